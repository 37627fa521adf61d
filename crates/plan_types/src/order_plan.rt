use crate::fn_set::FnSet;
use crate::node_set::NodeSet;
use cfix_base::{AccessId, OrderId};

/// What the signals of an order report follow.
#[derive(Debug, Drop)]
pub struct OrderPlan {
    pub order: OrderId,
    /// Whether it is a first-before; otherwise it is an all-before.
    pub first: bool,
    pub a: AccessId,
    pub b: AccessId,
    /// Whether the order begins with a token: main's first node may come to `a`.
    pub starts: bool,
    /// The functions that reach `a`.
    pub reaches: FnSet,
    /// The nodes that may come to `a`.
    pub may: NodeSet,
}
