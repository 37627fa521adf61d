use crate::cond::Cond;
use crate::decl::{Decl, LoopInt};
use crate::op::Op;
use crate::simple::{Plain, Simple, Value};
use cfix_base::{List, Spot};
use sqlite_items::{Boxed, Items};

/// A jump without a value and without its semicolon (6.8.6 of ISO/IEC 9899:2011).
#[derive(Clone, Copy, Debug, PartialEq, Eq)]
pub enum Bare {
    Break(Spot),
    Continue(Spot),
    Return(Spot),
    /// `return NULL`
    ReturnNull { at: Spot, null: Spot },
}

/// `{ cfix_leave(1); break; }`: operations, each with its semicolon behind it, and a jump
#[derive(Drop)]
pub struct BareBlock {
    pub before: Spot,
    pub first: Op,
    pub first_end: Spot,
    pub ops: List<(Op, Spot)>,
    pub bare: Bare,
    pub end: Spot,
    pub after: Spot,
}

/// `{ int cfix_value = value; cfix_leave(1); return cfix_value; }`: each operation has its semicolon
/// behind it
#[derive(Drop)]
pub struct ValueBlock {
    pub before: Spot,
    pub int: Spot,
    pub name: Spot,
    pub set: Spot,
    pub value: Value,
    pub value_end: Spot,
    pub first: Op,
    pub first_end: Spot,
    pub ops: List<(Op, Spot)>,
    pub at: Spot,
    pub returned: Spot,
    pub end: Spot,
    pub after: Spot,
}

/// A jump statement, with the operations before it where it has some.
#[derive(Drop)]
pub enum Jump {
    Bare { bare: Bare, end: Spot },
    /// `return value;`
    ReturnValue { at: Spot, value: Value, end: Spot },
    BareBlock(Boxed<BareBlock>),
    ValueBlock(Boxed<ValueBlock>),
}

/// The first part of a `for`; each declarator but the first has its comma before it.
#[derive(Drop)]
pub enum First {
    Ints {
        at: Spot,
        first: LoopInt,
        more: List<(Spot, LoopInt)>,
    },
    Plain(Plain),
}

/// The step of a `for`, and operations, each with its comma before it.
#[derive(Drop)]
pub struct LoopStep {
    pub plain: Plain,
    pub ops: List<(Spot, Op)>,
}

/// `if (cond)` or `while (cond)`
#[derive(Drop)]
pub struct Test {
    pub at: Spot,
    pub before: Spot,
    pub cond: Cond,
    pub after: Spot,
}

/// `for (first; cond; step)`
#[derive(Drop)]
pub struct LoopHead {
    pub at: Spot,
    pub before: Spot,
    pub first: Option<First>,
    pub first_end: Spot,
    pub cond: Option<Cond>,
    pub cond_end: Spot,
    pub step: Option<LoopStep>,
    pub after: Spot,
}

/// A statement (6.8 of ISO/IEC 9899:2011).
#[cycle(stmt)]
#[derive(Drop)]
pub enum Stmt {
    /// `{ items }`
    Block {
        before: Spot,
        items: Items<Item>,
        after: Spot,
    },
    /// `;`
    Nothing(Spot),
    /// A simple statement, and the operations behind it, each with its semicolon behind it.
    Simply {
        simple: Boxed<Simple>,
        end: Spot,
        ops: List<(Op, Spot)>,
    },
    Jumps(Boxed<Jump>),
    If {
        test: Boxed<Test>,
        then: Boxed<Stmt>,
        otherwise: Option<Else>,
    },
    While {
        test: Boxed<Test>,
        body: Boxed<Stmt>,
    },
    For {
        head: Boxed<LoopHead>,
        body: Boxed<Stmt>,
    },
}

/// `else body`
#[cycle(stmt)]
#[derive(Drop)]
pub struct Else {
    pub at: Spot,
    pub body: Boxed<Stmt>,
}

/// An item of a block: a declaration with the operations behind it, each with its semicolon behind
/// it, or a statement.
#[cycle(stmt)]
#[derive(Drop)]
pub enum Item {
    Declares {
        decl: Boxed<Decl>,
        end: Spot,
        ops: List<(Op, Spot)>,
    },
    Does(Stmt),
}
