//! Laws of reading: what a list of tokens is for the grammar of files.
#![tactic(auto)]

mod laws;

pub use laws::{a_list_of_tokens_has_one_verdict, each_list_of_tokens_has_a_verdict};
