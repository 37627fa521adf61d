/// One entry of a schedule: the thread that makes the next step (main is thread 0), and whether
/// that step is the timeout of an inserted `enter` or `wait`.
#[derive(Clone, Copy, Debug, PartialEq, Eq)]
pub struct Entry {
    pub thread: u32,
    pub timeout: bool,
}
