//! The tree of a source as it stands in the text: one variant for each alternative of the grammar,
//! with the place of every token. Contracts see it as a tree of the grammar (`specs/`).
#![tactic(auto)]

mod cond;
mod decl;
mod expr;
mod file;
mod op;
mod simple;
mod stmt;
mod token;

pub use cond::{BothGuard, Cond, FalseGuard, Guard, TrueGuard};
pub use decl::{
    Decl, GlobalCond, GlobalInt, GlobalMutex, Globals, Hold, LocalInt, LoopInt, Qualifier, Size,
};
pub use expr::{Binary, Cast, Expr, Long, Prefix};
pub use file::{Function, Head, Header, Param, Params, Raw, Replacement, Returns, Top};
pub use op::{Op, Verb};
pub use simple::{
    Args, Call, Change, Create, Library, Place, Plain, Simple, Step, Target, ThreadArg, Value,
};
pub use stmt::{
    Bare, BareBlock, Else, First, Item, Jump, LoopHead, LoopStep, Stmt, Test, ValueBlock,
};
pub use token::{Ident, Kind, Numeral, Text, Token};
