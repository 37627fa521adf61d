//! Programs of the first form, which are straight, and what they are with the operations round a
//! critical region.
#![tactic(auto)]

mod form;
mod plain;
mod region;
mod straight;

pub use form::{is_first_form, plains_of};
pub use plain::Plain;
pub use region::Region;
pub use straight::guarded;
