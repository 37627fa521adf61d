ghost use Rattle.std.specs.Prelude.{◌≡◌, IfOk, false};
ghost use Rattle.c_lex.specs.Pieces.{Escape};
ghost use Rattle.c_lex.specs.Meaning.{character_value};
ghost use Rattle.c_lex.specs.Reading.{part_at, characters_at, literal_at};
ghost use Rattle.c_lex.specs.Steps.{Tells};

use crate::byte::{is_escape, is_plain};
use crate::fault::Refusal;
use crate::step::Step;
use crate::token::Kind;
use cfix_base::{List, NoMemory};
use std::alloc::Global;

/// What a byte of a string is: the closing quote, a `\`, a byte of the value, or refused.
#[derive(Clone, Copy)]
enum Part {
    Close,
    Backslash,
    Value(u8),
    Bad,
}

/// The byte that `\` and this byte stand for.
fn escape_value(byte: u8) -> u8
    ensures { result ≡ character_value (Escape byte) }
{
    match byte {
        b'n' => b'\n',
        b't' => b'\t',
        _ => byte,
    }
}

/// What a byte is, behind a `\` or not.
fn part_of(escaped: bool, byte: u8) -> Part
    ensures { result ≡ part_at escaped byte }
{
    if escaped {
        if is_escape(byte) {
            Part::Value(escape_value(byte))
        } else {
            Part::Bad
        }
    } else if byte == b'"' {
        Part::Close
    } else if byte == b'\\' {
        Part::Backslash
    } else if is_plain(byte) {
        Part::Value(byte)
    } else {
        Part::Bad
    }
}

/// The step at a `"`, where `after` is what follows it.
pub fn literal(alloc: Global, after: &[u8]) -> Result<Step, NoMemory>
    ensures { IfOk result (λ step. Tells step (literal_at (characters_at false after.now))) }
{
    let mut value = List::new(alloc);
    let mut rest = after;
    let mut escaped = false;
    'characters: while let Some((byte, behind)) = rest.split_first() {
        match part_of(escaped, *byte) {
            Part::Close => {
                let bytes = after.len() - behind.len() + 1;
                return Ok(Step::Take(Kind::Quoted(value), bytes));
            }
            Part::Backslash => escaped = true,
            Part::Value(byte) => {
                escaped = false;
                value.push(byte)?;
            }
            Part::Bad => return Ok(Step::Refuse(Refusal::BadString)),
        }
        rest = behind;
    }
    Ok(Step::Refuse(Refusal::BadString))
}
