use crate::depths::Depths;
use crate::frame::Frame;
use crate::stack::Stack;

/// A thread: its frames, whether it was joined, and for each inserted lock below the program's mark,
/// by its number, how often the thread holds it and how many of its enters timed out.
#[derive(Drop)]
pub struct Thread {
    pub frames: Stack<Frame>,
    pub joined: bool,
    pub held: Depths,
    pub missed: Depths,
}
