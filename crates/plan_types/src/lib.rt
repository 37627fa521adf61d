//! What the planner speaks of: sets of nodes and of functions, bound reports, classes of atomicity
//! reports, and the plan of an order report.
#![tactic(auto)]

mod bound;
mod class;
mod fn_set;
mod node_set;
mod number_set;
mod order_plan;

pub use bound::{Atom, Bound};
pub use class::{Class, Classes};
pub use fn_set::FnSet;
pub use node_set::NodeSet;
pub use number_set::NumberSet;
pub use order_plan::OrderPlan;
