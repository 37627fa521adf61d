//! The tables that a machine makes once of a program, so that no step walks the tree.
#![tactic(auto)]

mod acts;
mod expressions;
mod functions;
mod keep;
mod nodes;
mod row;
mod sheet;
mod tables;
mod uses;
mod views;
mod walk;

pub use tables::Tables;
