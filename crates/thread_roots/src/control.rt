use call_graph::Calls;
use cfix_base::List;
use flow_graph::Flow;

/// Control flow of each function of a program, in order, and the calls between them.
#[derive(Debug, Drop)]
pub struct Graphs {
    pub flows: List<Flow>,
    pub calls: Calls,
}
