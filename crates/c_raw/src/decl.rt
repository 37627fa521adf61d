use crate::expr::Expr;
use crate::simple::Value;
use crate::token::{Ident, Numeral};
use cfix_base::{List, Spot};

/// The number of an array's elements, or the name of a number.
#[derive(Drop)]
pub enum Size {
    Count(Numeral),
    Named(Ident),
}

/// A declarator of type `pthread_t`.
#[derive(Drop)]
pub enum Hold {
    OneThread(Ident),
    /// `name[size]`
    Threads {
        name: Ident,
        before: Spot,
        size: Size,
        after: Spot,
    },
}

/// A local declarator of type `int`.
#[derive(Drop)]
pub enum LocalInt {
    OneLocal(Ident),
    /// `name = value`
    SetLocal {
        name: Ident,
        at: Spot,
        value: Value,
    },
    /// `name[size]`
    LocalArray {
        name: Ident,
        before: Spot,
        size: Size,
        after: Spot,
    },
}

/// A declaration of local variables without its semicolon; each declarator but the first has its
/// comma before it.
#[derive(Drop)]
pub enum Decl {
    Ints {
        at: Spot,
        first: LocalInt,
        more: List<(Spot, LocalInt)>,
    },
    Holds {
        at: Spot,
        first: Hold,
        more: List<(Spot, Hold)>,
    },
}

/// A declarator in the first part of a `for`.
#[derive(Drop)]
pub enum LoopInt {
    OneLoop(Ident),
    /// `name = value`
    SetLoop { name: Ident, at: Spot, value: Expr },
}

/// A global declarator of type `int`.
#[derive(Drop)]
pub enum GlobalInt {
    OneGlobal(Ident),
    /// `name = value`, with or without a `-` before the value
    SetGlobal {
        name: Ident,
        at: Spot,
        minus: Option<Spot>,
        value: Size,
    },
    /// `name[size]`
    GlobalArray {
        name: Ident,
        before: Spot,
        size: Size,
        after: Spot,
    },
}

/// A declarator of type `pthread_mutex_t`.
#[derive(Drop)]
pub enum GlobalMutex {
    OneMutex(Ident),
    /// `name = PTHREAD_MUTEX_INITIALIZER`
    SetMutex { name: Ident, at: Spot, value: Spot },
}

/// A declarator of type `pthread_cond_t`.
#[derive(Drop)]
pub enum GlobalCond {
    OneCond(Ident),
    /// `name = PTHREAD_COND_INITIALIZER`
    SetCond { name: Ident, at: Spot, value: Spot },
}

/// A declaration of global variables without its qualifiers and its semicolon (6.7 of
/// ISO/IEC 9899:2011); each declarator but the first has its comma before it.
#[derive(Drop)]
pub enum Globals {
    Ints {
        at: Spot,
        first: GlobalInt,
        more: List<(Spot, GlobalInt)>,
    },
    Holds {
        at: Spot,
        first: Hold,
        more: List<(Spot, Hold)>,
    },
    Mutexes {
        at: Spot,
        first: GlobalMutex,
        more: List<(Spot, GlobalMutex)>,
    },
    Conds {
        at: Spot,
        first: GlobalCond,
        more: List<(Spot, GlobalCond)>,
    },
}

/// `static` or `volatile`
#[derive(Clone, Copy, Debug, PartialEq, Eq)]
pub enum Qualifier {
    Static,
    Volatile,
}
