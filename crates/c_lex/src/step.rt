ghost use Rattle.std.specs.Prelude.{◌≡◌, ◌∷◌, IfOk};
ghost use Rattle.c_lex.specs.Reading.{piece_at};
ghost use Rattle.c_lex.specs.Steps.{Tells};

use crate::byte::is_blank;
use crate::comment::slash;
use crate::fault::Refusal;
use crate::identifier::identifier;
use crate::literal::literal;
use crate::number::numeral;
use crate::sign::sign;
use crate::token::Kind;
use cfix_base::{NoMemory, is_name_start};
use std::alloc::Global;

/// What stands first in a text: a blank or a comment of so many bytes, a token of so many bytes, or
/// what is refused.
#[derive(Debug, Drop)]
pub enum Step {
    Skip(usize),
    Take(Kind, usize),
    Refuse(Refusal),
}

/// The step of a text that is a first byte and what follows it.
pub fn next_step(alloc: Global, text: &[u8], first: u8, after: &[u8]) -> Result<Step, NoMemory>
    requires { text.now ≡ first ∷ after.now }
    ensures { IfOk result (λ step. Tells step (piece_at first after.now)) }
{
    if is_blank(first) {
        Ok(Step::Skip(1))
    } else if is_name_start(first) {
        identifier(alloc, text)
    } else if first.is_ascii_digit() {
        Ok(numeral(text))
    } else if first == b'"' {
        literal(alloc, after)
    } else if first == b'/' {
        slash(alloc, after)
    } else {
        sign(alloc, first, after)
    }
}
