use cfix_base::FnId;

/// What a node is to the calls of a program.
#[derive(Clone, Copy, Debug, PartialEq, Eq)]
pub struct Site {
    /// The function in which it stands.
    pub of: FnId,
    /// The function that it calls. The creation of a thread is no call.
    pub callee: Option<FnId>,
    /// The function whose thread it creates.
    pub created: Option<FnId>,
}
