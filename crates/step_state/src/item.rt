use c_prog::Var;
use cfix_base::{AccessId, FnId, NodeId, Op, VarId};

/// The right operand of an `&&` or `||` of a node. The operators count from 0 in the order of the
/// text.
#[derive(Clone, Copy)]
pub struct Operand {
    pub node: NodeId,
    pub number: usize,
}

/// A local `int` variable or, with an index, an element of a local array.
#[derive(Clone, Copy)]
pub struct LocalSite {
    pub local: u32,
    pub indexed: bool,
}

/// A global `int` variable or, with an index, an element of a global array, and which access of
/// its node this is.
#[derive(Clone, Copy)]
pub struct GlobalSite {
    pub access: AccessId,
    pub var: VarId,
    pub indexed: bool,
}

/// A `pthread_t` variable or, with an index, an element of an array of them.
#[derive(Clone, Copy)]
pub struct HandleSite {
    pub var: Var,
    pub indexed: bool,
}

/// An operator with one operand.
#[derive(Clone, Copy)]
pub enum Unary {
    Neg,
    Not,
}

/// An operator with two operands, both of which are always evaluated.
#[derive(Clone, Copy)]
pub enum Binary {
    Add,
    Sub,
    Mul,
    Div,
    Rem,
    Lt,
    Le,
    Gt,
    Ge,
    Eq,
    Ne,
}

/// An item that touches nothing but its own frame. `LocalKeep` leaves the index among the values.
#[derive(Clone, Copy)]
pub enum Reduction {
    Push(i32),
    Local(LocalSite),
    LocalKeep(LocalSite),
    Put(LocalSite),
    Un(Unary),
    Bin(Binary),
    And(Operand),
    Or(Operand),
    Bool,
    Clear(u32),
}

/// An item that reads or changes what is outside its frame. `GetKeep` leaves the index among the
/// values; `args` is how many values a printf takes. A wait on a condition variable is a `Sleep`,
/// which frees the mutex, and then a `Wake`, which locks it again.
#[derive(Clone, Copy)]
pub enum Action {
    Get(GlobalSite),
    GetKeep(GlobalSite),
    Put(GlobalSite),
    Take,
    Lock(VarId),
    Unlock(VarId),
    Create { target: HandleSite, of: FnId },
    Join(HandleSite),
    Print { node: NodeId, args: usize },
    Call(FnId),
    Sleep { cond: VarId, mutex: VarId },
    Wake { cond: VarId, mutex: VarId },
    Signal(VarId),
    Broadcast(VarId),
}

/// An item by which control goes on: the beginning of a visit, its end at a condition, its end at
/// any other node, the end of a function.
#[derive(Clone, Copy)]
pub enum Move {
    Node(NodeId),
    Branch(NodeId),
    Edge(NodeId),
    Exit,
}

/// One item of a frame's work.
#[derive(Clone, Copy)]
pub enum Item {
    Op(Op),
    Reduce(Reduction),
    Act(Action),
    Go(Move),
}
