//! The program as a tree: global variables, functions as trees of statements, and the operations
//! that stand at each place.
#![tactic(auto)]

mod access_item;
mod act;
mod expr;
mod function;
mod global;
mod node;
mod program;
mod stmt;
mod tree;

pub use access_item::{AccessItem, Touch};
pub use act::{Act, CallForm, How, LocalKind, Value};
pub use expr::{BinOp, Expr, Target, Var};
pub use function::{FnKind, Function};
pub use global::{Global, GlobalKind};
pub use node::NodeView;
pub use program::Program;
pub use stmt::{Cond, Jump, Step, Stmt};
pub use tree::Tree;
