use crate::function::Function;
use crate::global::Global;
use cfix_base::{List, OrderId};

/// A program as a tree. `starts` are the orders that begin with a token, rising.
#[derive(Drop)]
pub struct Tree {
    pub globals: List<Global>,
    pub functions: List<Function>,
    pub starts: List<OrderId>,
}
