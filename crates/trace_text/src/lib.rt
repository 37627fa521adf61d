//! The lines of a trace: one for each step of a run, and the one that says how the run stands.
#![tactic(auto)]

mod closing;
mod events;
mod lines;
mod pieces;

pub use closing::closing_line;
pub use lines::{event_line, event_line_into};
