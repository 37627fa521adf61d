//! The values of a frame: arithmetic on 32 bits, the cells of variables, and the items of work that
//! touch nothing but their own frame.
#![tactic(auto)]

mod arithmetic;
mod cells;
mod print;
mod reduction;
mod values;

pub use arithmetic::is_zero;
pub use cells::{place_of, read_cell, set_cell};
pub use print::printed;
pub use reduction::{pop_item, reduce};
pub use values::{drop_past, index_value, last_value, push_past, second_index};
