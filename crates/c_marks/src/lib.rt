//! Marks, which tell the operations that are new from those that a program had before.
#![tactic(auto)]

mod marking;
mod old;

pub use marking::marks;
pub use old::{old_ops, old_starts};
