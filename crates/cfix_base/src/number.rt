/// A node of a program: a simple statement, a condition, the step of a `for`, a `break`, a
/// `continue` or a `return`. Nodes count from 0 over the whole program, in the order of its
/// canonical text (of a loop: condition, step, body).
#[derive(Clone, Copy, Debug, PartialEq, Eq)]
pub struct NodeId {
    pub number: u32,
}

/// A function of a program, counted from 0 in the order of the definitions.
#[derive(Clone, Copy, Debug, PartialEq, Eq)]
pub struct FnId {
    pub number: u32,
}

/// A global variable of a program, counted from 0 in the order of the declarations.
#[derive(Clone, Copy, Debug, PartialEq, Eq)]
pub struct VarId {
    pub number: u32,
}

/// An inserted lock. `patch` uses lock k for class k.
#[derive(Clone, Copy, Debug, PartialEq, Eq)]
pub struct LockId {
    pub number: u32,
}

/// An inserted signal: an order report, counted from 0 among the order reports.
#[derive(Clone, Copy, Debug, PartialEq, Eq)]
pub struct OrderId {
    pub number: u32,
}
