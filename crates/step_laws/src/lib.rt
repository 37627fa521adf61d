//! Laws of steps and runs, each the contract of a function that does nothing.
#![tactic(auto)]

mod laws;

pub use laws::{
    control_goes_along_edges, frames_are_on_edges, runs_follow_each_other, threads_go_in_one_mode,
};
