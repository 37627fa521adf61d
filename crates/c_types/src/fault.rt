ghost use Rattle.std.specs.Prelude.{◌≡◌};

use c_names::{Fault, FaultKind};
use cfix_base::{NoMemory, Spot};
use thiserror::Error;

/// Why the names of a source are refused: of the faults the one at the least token, and of those
/// at one token the one that stands first here.
#[derive(Clone, Copy, Debug, PartialEq, Eq, Error)]
pub enum NameFault {
    #[error("NoMemory")]
    NoMemory,
    /// A name has no declaration; at the text's end where main is missing.
    #[error("Unknown")]
    Unknown(Spot),
    /// A name is declared again.
    #[error("Twice")]
    Twice(Spot),
    /// The number of arguments is another than that of the parameters.
    #[error("Arity")]
    Arity(Spot),
    /// A name or statement stands where it does not fit.
    #[error("WrongUse")]
    WrongUse(Spot),
    /// Control can fall through the end of an `int` function other than main.
    #[error("NoReturn")]
    NoReturn(Spot),
    /// main or the function of a thread is called.
    #[error("RootCalled")]
    RootCalled(Spot),
    /// A name has a beginning that is reserved.
    #[error("Reserved")]
    Reserved(Spot),
    /// A limit is passed.
    #[error("Limit")]
    Limit(Spot),
}

impl From<NoMemory> for NameFault {
    ghost use Rattle.c_types.specs.declared.fault.NameFault.TheVariants.{NoMemory};

    ghost from_gives = { λ _ e. e ≡ NoMemory };

    fn from(_: NoMemory) -> NameFault {
        NameFault::NoMemory
    }
}

impl NameFault {
    ghost use Rattle.std.specs.Prelude.{Some};
    ghost use Rattle.c_types.specs.Outcome.{Tells};

    // The fault, as it is told.
    pub(crate) fn of(fault: Fault) -> NameFault
        ensures { Tells result (Some fault) }
    {
        let spot = fault.spot;
        match fault.kind {
            FaultKind::Unknown => NameFault::Unknown(spot),
            FaultKind::Twice => NameFault::Twice(spot),
            FaultKind::Arity => NameFault::Arity(spot),
            FaultKind::WrongUse => NameFault::WrongUse(spot),
            FaultKind::NoReturn => NameFault::NoReturn(spot),
            FaultKind::RootCalled => NameFault::RootCalled(spot),
            FaultKind::Reserved => NameFault::Reserved(spot),
            FaultKind::Limit => NameFault::Limit(spot),
        }
    }
}
