//! The machine: one step of a run.
#![tactic(auto)]

mod build;
mod calls;
mod conditions;
mod counts;
mod enabled;
mod fault;
mod frames;
mod globals;
mod items;
mod locks;
mod machine_of;
mod moves;
mod mutexes;
mod next;
mod orders;
mod output;
mod sleepers;
mod start;
mod stepping;
mod threads;
mod work;

pub use build::machine;
pub use fault::StepFault;
pub use machine_of::Machine;
