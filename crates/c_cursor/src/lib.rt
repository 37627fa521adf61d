//! The tokens of a text in the terms of the grammar, and the readers of one token. Each reader
//! answers what the grammar's reader of the same name answers at that place.
#![tactic(auto)]

mod cursor;
mod fault;
mod look;

pub use cursor::Cursor;
pub use fault::ReadFault;
pub use look::Look;
