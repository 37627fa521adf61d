//! The state of a run: threads as lists of frames, each with the items of work that it has still to
//! do; and what one step is.
#![tactic(auto)]

mod depths;
mod event;
mod frame;
mod item;
mod stack;
mod state;
mod table;
mod thread;

pub use depths::Depths;
pub use event::{Bytes, Ending, Event, Trap};
pub use frame::{Frame, FrameView};
pub use item::{
    Action, Binary, GlobalSite, HandleSite, Item, LocalSite, Move, Operand, Reduction, Unary,
};
pub use stack::Stack;
pub use state::{Configuration, Counted, State};
pub use table::Table;
pub use thread::Thread;
