//! The texts of schedules and of inputs: read, and schedules written.
#![tactic(auto)]

mod check_fault;
mod entries;
mod entry_text;
mod input_reader;
mod number_text;
mod schedule_reader;
mod schedule_writer;
mod value_text;

pub use check_fault::CheckFault;
pub use entries::Schedule;
pub use input_reader::{InputFault, input};
pub use number_text::number_of;
pub use schedule_reader::{SchedFault, schedule};
pub use schedule_writer::schedule_text;
