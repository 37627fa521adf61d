use cfix_base::{AccessId, FnId, List, NodeId};

/// A report whose sites and stacks are those of a program.
#[derive(Debug, Drop)]
pub enum Bound {
    /// An atomicity violation.
    Atom(Atom),
    /// All `a` are to come before any `b`.
    All { a: AccessId, b: AccessId },
    /// The first `a` is to come before any `b`.
    First { a: AccessId, b: AccessId },
}

/// A bound atomicity violation: one thread makes the accesses p and c, and another makes r between.
#[derive(Debug, Drop)]
pub struct Atom {
    /// The region's function, in which both call paths begin.
    pub of: FnId,
    /// The node of that function at which p's path begins.
    pub np: NodeId,
    /// The node of that function at which c's path begins.
    pub nc: NodeId,
    pub p: AccessId,
    pub c: AccessId,
    pub r: AccessId,
    /// The call nodes from the region's function inwards to p, without p's own node.
    pub p_path: List<NodeId>,
    /// The call nodes from the region's function inwards to c, without c's own node.
    pub c_path: List<NodeId>,
    /// Whether p and c lie in one visit of one node; otherwise c lies in a later visit.
    pub same_visit: bool,
}
