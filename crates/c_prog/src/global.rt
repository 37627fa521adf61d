use cfix_base::List;

/// The type of a global variable: an `int` with its initial value, arrays with their length (in a
/// source within the limits 1 to 65536), a thread, a mutex, a condition
/// variable.
#[derive(Clone, Copy, Debug, PartialEq, Eq)]
pub enum GlobalKind {
    Int(i32),
    IntArray(u32),
    Thread,
    ThreadArray(u32),
    Mutex,
    Cond,
}

/// A global variable.
#[derive(Drop)]
pub struct Global {
    pub name: List<u8>,
    pub kind: GlobalKind,
}
