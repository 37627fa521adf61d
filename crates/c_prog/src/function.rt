use crate::stmt::Stmt;
use cfix_base::{List, Op};
use sqlite_items::Items;

/// What a function gives back: an `int`, nothing, or it is the function of a thread.
#[derive(Clone, Copy, Debug, PartialEq, Eq)]
pub enum FnKind {
    Int,
    Void,
    Thread,
}

/// A function, with the operations of its start. A function of kind `Thread` has one parameter.
#[derive(Drop)]
pub struct Function {
    pub name: List<u8>,
    pub kind: FnKind,
    pub params: List<List<u8>>,
    pub start: List<Op>,
    pub body: Items<Stmt>,
}
