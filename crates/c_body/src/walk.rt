use c_names::Fault;
use cfix_base::List;

/// What a walk over bodies gathers: the least fault so far, and the line of each access in the
/// order of evaluation.
#[derive(Drop)]
pub struct Walk {
    pub least: Option<Fault>,
    pub lines: List<u32>,
}
