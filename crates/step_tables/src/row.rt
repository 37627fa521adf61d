use c_prog::NodeView;
use cfix_base::{FnId, List, VarId};
use step_state::Item;

/// A node: its function, what it is, its items, those of its right operands, and the variables of
/// its accesses.
#[derive(Drop)]
pub struct Row<'a> {
    pub of: FnId,
    pub node: NodeView<'a>,
    pub items: List<Item>,
    pub operands: List<List<Item>>,
    pub variables: List<VarId>,
}
