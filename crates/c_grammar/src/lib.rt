//! The grammar of the C programs that CFix reads: the trees, their tokens, and the depth of each
//! token.
#![tactic(auto)]

mod laws;
mod sign;
mod word;

pub use laws::words_and_signs_are_told_by_their_spelling;
pub use sign::Sign;
pub use word::Word;
