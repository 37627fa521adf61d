/// A place in a text: its byte, counted from 0, and its line, which is 1 plus the number of line
/// feeds before it.
#[derive(Clone, Copy, Debug, PartialEq, Eq)]
pub struct Spot {
    pub at: u32,
    pub line: u32,
}
