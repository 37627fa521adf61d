//! What the limits of a source count in a body: the nodes, the locals with their cells; and the
//! lines of its called names. Each is a pass of its own over the tree, and needs no scope.
#![tactic(auto)]

mod called;
mod cells;
mod limits;
mod nodes;
mod spots;

pub use called::push_calls;
pub use cells::{hold_cells, push_cells};
pub use limits::{note_cells, note_excess};
pub use nodes::push_nodes;
pub use spots::bare_spot;
