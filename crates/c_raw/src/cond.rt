use crate::expr::Expr;
use crate::op::Op;
use cfix_base::{List, Spot};
use sqlite_items::Boxed;

/// Operations and the number behind them, as `cfix_enter(1), cfix_wait(2), 1`; each operation but
/// the first stands before its own comma.
#[derive(Drop)]
pub struct Guard {
    pub first: Op,
    pub comma: Spot,
    pub more: List<(Op, Spot)>,
    pub digit: Spot,
}

/// `(test) && (cfix_enter(1), 1)`
#[derive(Drop)]
pub struct TrueGuard {
    pub before: Spot,
    pub test: Expr,
    pub after: Spot,
    pub and: Spot,
    pub guard_before: Spot,
    pub guard: Guard,
    pub guard_after: Spot,
}

/// `(test) || (cfix_leave(1), 0)`
#[derive(Drop)]
pub struct FalseGuard {
    pub before: Spot,
    pub test: Expr,
    pub after: Spot,
    pub or: Spot,
    pub guard_before: Spot,
    pub guard: Guard,
    pub guard_after: Spot,
}

/// `((test) && (cfix_enter(1), 1)) || (cfix_leave(1), 0)`
#[derive(Drop)]
pub struct BothGuard {
    pub before: Spot,
    pub inner: TrueGuard,
    pub after: Spot,
    pub or: Spot,
    pub guard_before: Spot,
    pub guard: Guard,
    pub guard_after: Spot,
}

/// A condition: an expression, or one with operations where it is true, where it is false, or both.
#[derive(Drop)]
pub enum Cond {
    Bare(Expr),
    OnTrue(Boxed<TrueGuard>),
    OnFalse(Boxed<FalseGuard>),
    OnBoth(Boxed<BothGuard>),
}
