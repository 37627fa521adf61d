//! The heads of functions: their names, kinds and parameters, in definitions and in prototypes.
#![tactic(auto)]

mod cells;
mod head;
mod params;
mod prototype;

pub use cells::push_params;
pub use head::{head_count, head_kind, head_name};
pub use params::{Listing, add_params};
pub use prototype::note_prototype;
