/// What is around a statement: the numbers of the nodes that control meets behind it, at a `break`
/// and at a `continue`. None is the exit.
#[derive(Clone, Copy, Debug, PartialEq, Eq)]
pub struct Around {
    pub follow: Option<u32>,
    pub on_break: Option<u32>,
    pub on_continue: Option<u32>,
}
