use crate::number::{FnId, NodeId};

/// Where operations can stand: at the start of a function, behind a node that is no condition, or
/// on one of the two ways out of a condition.
#[derive(Clone, Copy, Debug, PartialEq, Eq)]
pub enum Place {
    Start(FnId),
    After(NodeId),
    True(NodeId),
    False(NodeId),
}
