//! The law of the canonical text: it spells its program again.
#![tactic(auto)]

mod laws;

pub use laws::{the_canonical_text_is_a_file, the_canonical_text_spells_its_program};
