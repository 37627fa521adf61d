//! What every crate of CFix speaks of: numbers, places, operations, accesses, schedule entries,
//! places in a text, lists, the words of the language, and the limits.
#![tactic(auto)]

mod access;
mod entry;
mod limits;
mod list;
mod mark;
mod memory;
mod number;
mod op;
mod place;
mod spot;
mod word;

pub use access::{Access, AccessId};
pub use entry::Entry;
pub use limits::{
    MAX_ARGUMENTS, MAX_ARRAY_LENGTH, MAX_DEPTH, MAX_FUNCTIONS, MAX_GLOBAL_CELLS, MAX_GLOBALS,
    MAX_INPUT_BYTES, MAX_LOCAL_CELLS, MAX_NODES, MAX_OPERATION_NUMBER, MAX_REPORTS,
    MAX_REPORTS_BYTES, MAX_SCHEDULE_BYTES, MAX_SCHEDULE_ENTRIES, MAX_SOURCE_BYTES, MAX_STEPS,
    MAX_TOKENS,
};
pub use list::List;
pub use mark::Marks;
pub use memory::NoMemory;
pub use number::{FnId, LockId, NodeId, OrderId, VarId};
pub use op::Op;
pub use place::Place;
pub use spot::Spot;
pub use word::{is_identifier, is_name, is_name_byte, is_name_start, is_reserved, is_word};
