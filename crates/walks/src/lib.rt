//! Walks along links between numbered things, as nodes of control flow or functions that call each other.
#![tactic(auto)]

mod linked;
mod walking;

pub use linked::Links;
pub use walking::walk;
