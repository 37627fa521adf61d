use crate::token::Numeral;
use cfix_base::Spot;

/// What an operation does.
#[derive(Clone, Copy, Debug, PartialEq, Eq)]
pub enum Verb {
    /// `cfix_enter`
    Enter,
    /// `cfix_leave`
    Leave,
    /// `cfix_wait`
    Wait,
    /// `cfix_done`
    Done,
    /// `cfix_first`
    First,
    /// `cfix_add`
    Add,
}

/// An operation, as `cfix_enter(3)`.
#[derive(Clone, Copy, Debug, PartialEq, Eq)]
pub struct Op {
    pub verb: Verb,
    pub at: Spot,
    pub before: Spot,
    pub number: Numeral,
    pub after: Spot,
}
