//! What a name stands for at a place of a body: the names of the file, and the scope of the locals
//! (6.2.1 of ISO/IEC 9899:2011). The rules of single names, and the least fault.
#![tactic(auto)]

mod entry;
mod kind;
mod least;
mod local;
mod notes;
mod places;
mod scope;
mod sizes;
mod table;
mod uses;

pub use kind::VarKind;
pub use least::{note, note_if};
pub use local::Local;
pub use notes::{note_declare, note_reserved, note_use};
pub use scope::Scope;
pub use sizes::{note_length, note_size, size_length, size_number};
pub use table::{Meaning, Row, Table};
pub use uses::{
    Use, defined_number, function_number, global_number, is_cast, is_cond, is_defined, is_element,
    is_int, is_int_array, is_mutex, is_read, is_thread, is_thread_array, is_thread_function,
    is_void, local_number, use_of, var_of,
};
