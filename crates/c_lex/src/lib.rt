//! The tokens of a source text: `lex` divides the text into blanks, comments and tokens, or names
//! its first fault.
#![tactic(auto)]

mod byte;
mod bytes;
mod comment;
mod fault;
mod identifier;
mod lexing;
mod literal;
mod number;
mod sign;
mod step;
mod table;
mod token;

pub use fault::LexFault;
pub use lexing::lex;
pub use number::number_value;
pub use token::{Kind, Token, Tokens};
