//! Control flow: what control meets after each place of a function, and where its paths lead.
#![tactic(auto)]

mod around;
mod backward;
mod build;
mod choice;
mod counting;
mod counts;
mod graph;
mod inner_sizes;
mod links;
mod sizes;
mod table;

pub use build::{flow, flows};
pub use graph::Flow;
