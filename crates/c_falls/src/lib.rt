//! Whether control can fall through the end of a body.
#![tactic(auto)]

mod falls;

pub use falls::falls_through;
