//! Erasing: the entries of a schedule whose steps were not those of new operations.
#![tactic(auto)]

mod erasing;
mod inserted;

pub use erasing::erase;
