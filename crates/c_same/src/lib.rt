//! Whether two programs are equal.
#![tactic(auto)]

mod same_act;
mod same_expr;
mod same_stmt;
mod same_tree;

pub use same_tree::same;
