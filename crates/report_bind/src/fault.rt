ghost use Rattle.std.specs.Prelude.{◌≡◌};

use cfix_base::{FnId, NoMemory, NodeId};
use thiserror::Error;

/// A site of a report, by its name there.
#[derive(Clone, Copy, Debug, PartialEq, Eq)]
pub enum Role {
    P,
    C,
    R,
    A,
    B,
}

/// Why a report is not bound. The first rule that is met counts, in this order of the variants.
#[derive(Clone, Copy, Debug, PartialEq, Eq, Error)]
pub enum BindFault {
    #[error("NoMemory")]
    NoMemory,
    /// The program has no access that the site means.
    #[error("NoSite")]
    NoSite(Role),
    /// The program has no calls that the stack of the site means; or, of c, the outermost functions of
    /// p and c differ.
    #[error("StackBroken")]
    StackBroken(Role),
    /// A stack is given, and threads do not begin in its outermost function.
    #[error("NotRoot")]
    NotRoot(FnId),
    /// No path of control flow leads from the node of p to that of c in the region's function.
    #[error("NoPath")]
    NoPath(NodeId, NodeId),
    /// The first access of an order may be passed over.
    #[error("MaybeAccess")]
    MaybeAccess,
    /// The node may run b before a.
    #[error("OrderCycle")]
    OrderCycle(NodeId),
}

impl From<NoMemory> for BindFault {
    ghost use Rattle.report_bind.specs.declared.fault.BindFault.TheVariants as fault;

    ghost from_gives = { λ _ given. given ≡ fault.NoMemory };

    fn from(_: NoMemory) -> BindFault {
        BindFault::NoMemory
    }
}
