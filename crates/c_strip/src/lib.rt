//! A program without its new operations.
#![tactic(auto)]

mod stripping;

pub use stripping::strip;
