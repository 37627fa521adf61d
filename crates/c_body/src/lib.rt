//! What the bodies of functions spell, with the faults of their names and the lines of their
//! accesses: expressions, calls, simple statements, declarations, conditions, jumps, statements.
#![tactic(auto)]

mod around;
mod calls;
mod conds;
mod declarators;
mod decls;
mod exprs;
mod jumps;
mod library;
mod ops;
mod plain;
mod simple;
mod stmts;
mod strings;
mod targets;
mod walk;

pub use around::Around;
pub use ops::{note_ops, ops_of};
pub use stmts::resolve_items;
pub use walk::Walk;
