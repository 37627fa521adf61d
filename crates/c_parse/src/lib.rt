//! Reading a whole file: the raw tree of its tokens, or the place of the first fault.
#![tactic(auto)]

mod directive;
mod fault;
mod globals;
mod head;
mod parsing;
mod top;

pub use c_raw::{
    Args, Bare, BareBlock, Binary, BothGuard, Call, Cast, Change, Cond, Create, Decl, Else, Expr,
    FalseGuard, First, Function, GlobalCond, GlobalInt, GlobalMutex, Globals, Guard, Head, Header,
    Hold, Ident, Item, Jump, Kind, Library, LocalInt, Long, LoopHead, LoopInt, LoopStep, Numeral,
    Op, Param, Params, Place, Plain, Prefix, Qualifier, Raw, Replacement, Returns, Simple, Size,
    Step, Stmt, Target, Test, Text, ThreadArg, Token, Top, TrueGuard, Value, ValueBlock, Verb,
};
pub use fault::ParseFault;
pub use parsing::parse;
