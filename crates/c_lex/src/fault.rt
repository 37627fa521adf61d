ghost use Rattle.std.specs.Prelude.{◌≡◌};

use cfix_base::{NoMemory, Spot};
use thiserror::Error;

/// Why a text is not read. A spot is that of the first byte of the first token or comment that is
/// refused.
#[derive(Clone, Copy, Debug, PartialEq, Eq, Error)]
pub enum LexFault {
    #[error("NoMemory")]
    NoMemory,
    /// A byte that begins no token.
    #[error("BadByte")]
    BadByte(Spot),
    /// A `/*` with no `*/` behind it.
    #[error("OpenComment")]
    OpenComment(Spot),
    /// A `"` with no closing `"` on its line, or with a byte or an escape before it that no string
    /// may have.
    #[error("BadString")]
    BadString(Spot),
    /// Digits with a letter or `_` directly behind them, with a leading 0, or of a value above
    /// 2147483647.
    #[error("BadNumber")]
    BadNumber(Spot),
    /// The token past the limit.
    #[error("TooMany")]
    TooMany(Spot),
}

impl From<NoMemory> for LexFault {
    ghost use Rattle.c_lex.specs.declared.fault.LexFault.TheVariants.{NoMemory};

    ghost from_gives = { λ _ e. e ≡ NoMemory };

    fn from(_: NoMemory) -> LexFault {
        LexFault::NoMemory
    }
}

/// Why a piece of a text is refused.
#[derive(Clone, Copy, Debug, PartialEq, Eq)]
pub enum Refusal {
    BadByte,
    OpenComment,
    BadString,
    BadNumber,
}

impl Refusal {
    ghost use Rattle.c_lex.specs.Faults.{refusal_at};

    pub fn at(self, spot: Spot) -> LexFault
        ensures { result ≡ refusal_at self spot }
    {
        match self {
            Refusal::BadByte => LexFault::BadByte(spot),
            Refusal::OpenComment => LexFault::OpenComment(spot),
            Refusal::BadString => LexFault::BadString(spot),
            Refusal::BadNumber => LexFault::BadNumber(spot),
        }
    }
}
