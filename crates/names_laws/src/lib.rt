//! What holds of the source that a file spells: each access and each call of its program has a
//! line.
#![tactic(auto)]

mod laws;

pub use laws::each_access_and_call_has_a_line;
