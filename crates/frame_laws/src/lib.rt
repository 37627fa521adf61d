//! What steps keep of frames and threads, and runs as lists of steps: each law is the contract of a
//! function that does nothing.
#![tactic(auto)]

mod laws;

pub use laws::{runs_are_trails, trails_are_runs, trails_split};
