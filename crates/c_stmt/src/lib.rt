//! Reading declarations, conditions and statements. Each function answers what the grammar's
//! reader of the same part answers at a place of the cursor.
#![tactic(auto)]

mod block;
mod choice;
mod cond;
mod decl;
mod flat;
mod guard;
mod jump;
mod looping;
mod stmt;
mod test;

pub use block::items_of;
pub use decl::{Length, hold_of, length_of, more_holds_of, size_of};
pub use stmt::stmt_of;
