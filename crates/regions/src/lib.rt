//! Critical regions: the nodes of control flow between the two accesses of an atomicity violation.
#![tactic(auto)]

mod between;
mod critical;

pub use critical::region;
