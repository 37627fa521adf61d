use crate::number::NodeId;

/// The kind of an access to a global `int` variable.
#[derive(Clone, Copy, Debug, PartialEq, Eq)]
pub enum Access {
    Read,
    Write,
}

/// The access with number `index`, counted from 0 in evaluation order, among those of a node.
#[derive(Clone, Copy, Debug, PartialEq, Eq)]
pub struct AccessId {
    pub node: NodeId,
    pub index: u32,
}
