use c_read::Flaw;
use cfix_base::{NoMemory, NodeId};
use report_bind::Role;

/// Why the files of a command are refused.
#[derive(Clone, Copy, Debug, PartialEq, Eq)]
pub enum Refusal {
    /// The source is not accepted.
    Source(Flaw),
    /// The source is accepted and is not of the first form.
    Form,
    /// The reports are no JSON.
    NotJson,
    /// The outer value of the reports has another shape (none), or the report of this number is the
    /// first that has.
    Shape(Option<u32>),
    /// There are more reports than may be.
    TooMany,
    /// The reports are not of the first form.
    Reports,
    /// This site means no access.
    NoSite(Role),
    /// The stack of this site means no calls.
    StackBroken(Role),
    /// No path of control leads from the first node, of p, to the second, of c.
    NoPath(NodeId, NodeId),
    /// The report is bound, and p and c do not lie in one visit of a node.
    OtherMode,
    /// The word of the input that begins at this byte, from 0, is no number.
    BadNumber(u32),
    /// The line of the schedule with this number, from 1, is no entry.
    BadEntry(u32),
    /// The schedule has more entries than may be.
    TooManyEntries,
    /// The entry of the schedule with this number, from 1, is the first that makes no step.
    NotEnabled(u32),
}

/// Why a stage did not answer.
#[derive(Clone, Copy, Debug, PartialEq, Eq)]
pub enum Failure {
    NoMemory,
    Refused(Refusal),
}

impl From<NoMemory> for Failure {
    ghost use Rattle.std.specs.Prelude.{◌≡◌};
    ghost use Rattle.cfix_core.specs.declared.failure.Failure.TheVariants as failure;

    ghost from_gives = { λ _ given. given ≡ failure.NoMemory };

    fn from(_: NoMemory) -> Failure {
        Failure::NoMemory
    }
}
