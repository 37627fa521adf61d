/// What a variable can be. `Argument` is the `void *` parameter of a thread function.
#[derive(Clone, Copy, Debug, PartialEq, Eq)]
pub enum VarKind {
    Int,
    IntArray,
    Thread,
    ThreadArray,
    Mutex,
    Cond,
    Argument,
}
