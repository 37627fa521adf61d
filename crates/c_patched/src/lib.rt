//! Whether a program has operations.
#![tactic(auto)]

mod patched;

pub use patched::is_patched;
