//! The reading of a source text: its tokens, its tree, its names.
#![tactic(auto)]

mod flaw;
mod reading;

pub use flaw::{Flaw, FlawKind, ReadFault};
pub use reading::read_source;
