//! What the names of a source stand for: the program that a tree of the grammar spells, and the
//! faults of its names with their places. The definitions alone, and the laws that follow from them.
#![tactic(auto)]

mod fault;
mod laws;

pub use fault::{Fault, FaultKind};
pub use laws::{a_text_spells_at_most_one_source, an_accepted_text_spells_a_source};
