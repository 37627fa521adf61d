//! The accesses of nodes to global variables in evaluation order, those of a whole program, and
//! its nodes that call a function.
#![tactic(auto)]

mod access_list;
mod node_accesses;
mod numbering;
mod touches;

pub use access_list::AccessList;
pub use node_accesses::accesses;
pub use numbering::{tree_accesses, tree_calls};
