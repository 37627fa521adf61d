//! The replay of a schedule: its trace, line by line.
#![tactic(auto)]

mod closing;
mod fault;
mod replaying;
mod stepping;

pub use fault::ReplayFault;
pub use replaying::replay;
