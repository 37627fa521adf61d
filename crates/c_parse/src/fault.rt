use cfix_base::{NoMemory, Spot};
use thiserror::Error;

/// Why tokens are no file. A spot is that of the first byte of the token, or the text's end.
#[derive(Clone, Copy, Debug, PartialEq, Eq, Error)]
pub enum ParseFault {
    #[error("NoMemory")]
    NoMemory,
    /// The first token with which no file goes on; or the text's end, where the tokens only begin
    /// a file.
    #[error("Unexpected")]
    Unexpected(Spot),
    /// The first token that stands in more than 200 constructs, or that is the 201st binary
    /// operator of a whole expression.
    #[error("Deep")]
    Deep(Spot),
}

impl From<NoMemory> for ParseFault {
    ghost use Rattle.std.specs.Prelude.{◌≡◌};
    ghost use Rattle.c_parse.specs.declared.fault.ParseFault.TheVariants.{NoMemory};

    ghost from_gives = { λ _ e. e ≡ NoMemory };

    fn from(_: NoMemory) -> ParseFault {
        ParseFault::NoMemory
    }
}
