ghost use Rattle.std.specs.Prelude.{◌≡◌};

use cfix_base::NoMemory;
use thiserror::Error;

/// Why a text is no list of reports. `BadJson` comes first, then `Shape` of none, then `TooMany`,
/// then `Shape` of a report.
#[derive(Clone, Copy, Debug, PartialEq, Eq, Error)]
pub enum ReportFault {
    #[error("NoMemory")]
    NoMemory,
    /// The text is no JSON, or its arrays and objects nest deeper than 127.
    #[error("BadJson")]
    BadJson,
    /// The value is no object with an array of reports (none), or the report of this number,
    /// counted from 0, is the first that is not of its shape.
    #[error("Shape")]
    Shape(Option<u32>),
    /// There are more reports than the limit.
    #[error("TooMany")]
    TooMany,
}

impl From<NoMemory> for ReportFault {
    ghost use Rattle.report_json.specs.declared.fault.ReportFault.TheVariants as fault;

    ghost from_gives = { λ _ given. given ≡ fault.NoMemory };

    fn from(_: NoMemory) -> ReportFault {
        ReportFault::NoMemory
    }
}

/// Why a part of a report was not read.
#[derive(Clone, Copy, PartialEq, Eq)]
pub enum Refusal {
    NoMemory,
    /// The part is not of its shape.
    Shape,
}

impl From<NoMemory> for Refusal {
    ghost use Rattle.report_json.specs.declared.fault.Refusal.TheVariants as refusal;

    ghost from_gives = { λ _ given. given ≡ refusal.NoMemory };

    fn from(_: NoMemory) -> Refusal {
        Refusal::NoMemory
    }
}
