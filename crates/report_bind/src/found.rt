use c_prog::AccessItem;
use cfix_base::{FnId, List, NodeId};

/// The accesses that the sites of an atomicity report mean.
#[derive(Clone, Copy, Debug, PartialEq, Eq)]
pub struct Sites {
    pub p: AccessItem,
    pub c: AccessItem,
    pub r: AccessItem,
}

/// The calls that a stack means, the outermost first, and the function in which the first of them
/// stands; without calls, the function of the access.
#[derive(Debug, Drop)]
pub struct Stack {
    pub function: FnId,
    pub calls: List<NodeId>,
}

/// The accesses that the sites of a report mean, and the calls that the stacks of p and c mean.
#[derive(Debug, Drop)]
pub struct Found {
    pub sites: Sites,
    pub p: Stack,
    pub c: Stack,
}
