use crate::expr::{Expr, Target};
use cfix_base::{FnId, List, VarId};

/// The type of a local variable; an array has its length, in a source within the limits 1 to 65536.
#[derive(Clone, Copy, Debug, PartialEq, Eq)]
pub enum LocalKind {
    Int,
    IntArray(u32),
    Thread,
    ThreadArray(u32),
}

/// An assignment operator: `=`, `+=`, `-=`, `*=`, `/=` or `%=`.
#[derive(Clone, Copy, Debug, PartialEq, Eq)]
pub enum How {
    Set,
    Add,
    Sub,
    Mul,
    Div,
    Rem,
}

/// The call of a function with its arguments.
#[derive(Drop)]
pub struct CallForm {
    pub of: FnId,
    pub args: List<Expr>,
}

/// What is assigned, returned or begun with.
#[derive(Drop)]
pub enum Value {
    Expr(Expr),
    Call(CallForm),
}

/// What a simple statement, or the step of a `for`, does. `Up` is `x++` and `Down` is `x--`; `Wait`,
/// `Signal` and `Broadcast` are the calls on a condition variable.
#[derive(Drop)]
pub enum Act {
    Declare {
        name: List<u8>,
        kind: LocalKind,
        value: Option<Value>,
    },
    Assign {
        target: Target,
        how: How,
        value: Value,
    },
    Up(Target),
    Down(Target),
    Call(CallForm),
    Create {
        target: Target,
        of: FnId,
        arg: Expr,
    },
    Join(Target),
    Lock(VarId),
    Unlock(VarId),
    Print {
        text: List<u8>,
        args: List<Expr>,
    },
    Scan(Target),
    Wait {
        cond: VarId,
        mutex: VarId,
    },
    Signal(VarId),
    Broadcast(VarId),
}
