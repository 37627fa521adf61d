//! Copies of programs and of their parts.
#![tactic(auto)]

mod acts;
mod expressions;
mod statements;
mod trees;

pub use acts::{copy_act, copy_jump};
pub use expressions::{copy_expr, copy_list};
pub use trees::{copy, copy_globals, copy_names};
