use crate::act::{Act, Value};
use crate::expr::Expr;
use cfix_base::{List, Op};
use sqlite_items::Items;

/// A jump statement (6.8.6 of ISO/IEC 9899:2011).
#[derive(Drop)]
pub enum Jump {
    Break,
    Continue,
    Return,
    ReturnNull,
    ReturnValue(Value),
}

/// A condition, with the operations of its two ways out.
#[derive(Drop)]
pub struct Cond {
    pub test: Expr,
    pub on_true: List<Op>,
    pub on_false: List<Op>,
}

/// The step of a `for`, with the operations behind it.
#[derive(Drop)]
pub struct Step {
    pub act: Act,
    pub after: List<Op>,
}

/// A statement. A simple statement, a condition, a step and a jump are each one node.
#[derive(Drop)]
pub enum Stmt {
    Simple {
        act: Act,
        after: List<Op>,
    },
    Jump {
        jump: Jump,
        after: List<Op>,
    },
    If {
        cond: Cond,
        yes: Items<Stmt>,
        no: Items<Stmt>,
    },
    Loop {
        cond: Cond,
        step: Option<Step>,
        body: Items<Stmt>,
    },
    Block(Items<Stmt>),
}
