//! Binding of bug reports: the accesses that their sites mean, the calls of their stacks, and where the
//! two accesses of an atomicity violation lie.
#![tactic(auto)]

mod binding;
mod fault;
mod found;
mod placing;
mod sites;
mod stacks;

pub use binding::bind;
pub use fault::{BindFault, Role};
