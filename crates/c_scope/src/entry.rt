use crate::local::Local;

/// A local, and the place of the local that it hides: the innermost of its name before it.
#[derive(Debug, Drop)]
pub struct Entry {
    pub local: Local,
    pub hidden: Option<usize>,
}
