//! The nodes of a program by their numbers: how many there are, the node with a number, all of
//! them in order, and the operations at a place.
#![tactic(auto)]

mod find;
mod found;
mod node_order;
mod nodes;
mod places;

pub use node_order::all_nodes;
pub use nodes::node_count;
pub use places::{node_of, ops};
