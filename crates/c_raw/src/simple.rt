use crate::expr::{Expr, Long};
use crate::token::{Ident, Text};
use cfix_base::{List, Spot};
use sqlite_items::Boxed;

/// `[index]`
#[derive(Drop)]
pub struct Place {
    pub before: Spot,
    pub index: Expr,
    pub after: Spot,
}

/// A name, with or without an index.
#[derive(Drop)]
pub struct Target {
    pub name: Ident,
    pub index: Option<Boxed<Place>>,
}

/// The arguments of a call that has some; each but the first has its comma before it.
#[derive(Drop)]
pub struct Args {
    pub first: Expr,
    pub more: List<(Spot, Expr)>,
}

/// `name(args)` (6.5.2.2 of ISO/IEC 9899:2011)
#[derive(Drop)]
pub struct Call {
    pub name: Ident,
    pub before: Spot,
    pub args: Option<Boxed<Args>>,
    pub after: Spot,
}

/// An expression or a call.
#[derive(Drop)]
pub enum Value {
    Computed(Expr),
    Called(Call),
}

/// An assignment operator other than `=` (6.5.16.2 of ISO/IEC 9899:2011).
#[derive(Clone, Copy, Debug, PartialEq, Eq)]
pub enum Change {
    /// `+=`
    AddTo,
    /// `-=`
    SubtractFrom,
    /// `*=`
    MultiplyBy,
    /// `/=`
    DivideBy,
    /// `%=`
    RemainderBy,
}

/// `++` or `--`
#[derive(Clone, Copy, Debug, PartialEq, Eq)]
pub enum Step {
    Up,
    Down,
}

/// An assignment of an expression, or a step.
#[derive(Drop)]
pub enum Plain {
    /// `target = value`
    SetTo {
        target: Target,
        at: Spot,
        value: Expr,
    },
    /// `target += value` and the like
    Changed {
        target: Target,
        how: Change,
        at: Spot,
        value: Expr,
    },
    /// `target++` or `target--`
    SteppedAfter {
        target: Target,
        step: Step,
        at: Spot,
    },
    /// `++target` or `--target`
    SteppedBefore {
        step: Step,
        at: Spot,
        target: Target,
    },
}

/// The argument of a new thread: `NULL`, or `(void *)arg`, with or without `(long)` before `arg`.
#[derive(Drop)]
pub enum ThreadArg {
    Null(Spot),
    Cast {
        before: Spot,
        void: Spot,
        star: Spot,
        after: Spot,
        long: Option<Long>,
        arg: Expr,
    },
}

/// `pthread_create(&target, NULL, function, arg)` (POSIX.1-2008)
#[derive(Drop)]
pub struct Create {
    pub at: Spot,
    pub before: Spot,
    pub amp: Spot,
    pub target: Target,
    pub first_comma: Spot,
    pub null: Spot,
    pub second_comma: Spot,
    pub function: Ident,
    pub third_comma: Spot,
    pub arg: ThreadArg,
    pub after: Spot,
}

/// A call of the headers (7.21.6.3 and 7.21.6.4 of ISO/IEC 9899:2011, and POSIX.1-2008).
#[derive(Drop)]
pub enum Library {
    Create(Boxed<Create>),
    /// `pthread_join(target, NULL)`
    Join {
        at: Spot,
        before: Spot,
        target: Target,
        comma: Spot,
        null: Spot,
        after: Spot,
    },
    /// `pthread_mutex_lock(&mutex)`
    Lock {
        at: Spot,
        before: Spot,
        amp: Spot,
        mutex: Ident,
        after: Spot,
    },
    /// `pthread_mutex_unlock(&mutex)`
    Unlock {
        at: Spot,
        before: Spot,
        amp: Spot,
        mutex: Ident,
        after: Spot,
    },
    /// `printf(text, more)`; each expression has its comma before it
    Print {
        at: Spot,
        before: Spot,
        text: Text,
        more: List<(Spot, Expr)>,
        after: Spot,
    },
    /// `scanf(text, &target)`
    Scan {
        at: Spot,
        before: Spot,
        text: Text,
        comma: Spot,
        amp: Spot,
        target: Target,
        after: Spot,
    },
    /// `pthread_cond_wait(&cond, &mutex)`
    Wait {
        at: Spot,
        before: Spot,
        cond_amp: Spot,
        cond: Ident,
        comma: Spot,
        mutex_amp: Spot,
        mutex: Ident,
        after: Spot,
    },
    /// `pthread_cond_signal(&cond)`
    Signal {
        at: Spot,
        before: Spot,
        amp: Spot,
        cond: Ident,
        after: Spot,
    },
    /// `pthread_cond_broadcast(&cond)`
    Broadcast {
        at: Spot,
        before: Spot,
        amp: Spot,
        cond: Ident,
        after: Spot,
    },
}

/// A simple statement without its semicolon.
#[derive(Drop)]
pub enum Simple {
    Plain(Plain),
    /// `target = call`
    SetCall {
        target: Target,
        at: Spot,
        call: Call,
    },
    Call(Call),
    Library(Library),
}
