use crate::item::Item;
use crate::stack::Stack;
use crate::table::Table;
use cfix_base::{FnId, NodeId, Place};

/// A frame: one activation of a function. Frames have serial numbers in the order in which they
/// are made. `locals` holds the cells of each local `int` variable and `handles` the thread numbers
/// in each local `pthread_t` variable, where 0 is none; `last` is the place passed last.
#[derive(Drop)]
pub struct Frame {
    pub serial: u32,
    pub of: FnId,
    pub visit: Option<NodeId>,
    pub last: Place,
    pub locals: Table<Table<i32>>,
    pub handles: Table<Table<u32>>,
    pub values: Stack<i32>,
    pub work: Stack<Item>,
}

/// What can be read of a frame: its serial number, its function, the node of its visit in progress,
/// the place that it passed last, and how many of that place's operations it has still to make.
/// Without a visit, the node that its work begins next is the one that control meets after that
/// place.
#[derive(Clone, Copy, Debug, PartialEq, Eq)]
pub struct FrameView {
    pub serial: u32,
    pub of: FnId,
    pub visit: Option<NodeId>,
    pub place: Place,
    pub pending: usize,
}
