ghost use Rattle.std.specs.Prelude.{◌≡◌, ◌≤◌, ◌<◌, ◌+◌, ◌^◌, [], length, take, drop, IfOk, IfErr};
ghost use Rattle.std.specs.List.{count_by};
ghost use Rattle.c_lex.specs.Bytes.{is_line_feed};
ghost use Rattle.c_lex.specs.Division.{HasOneDivision};
ghost use Rattle.c_lex.specs.Faults.{IsFirstFault, IsCaused};
ghost use Rattle.c_lex.specs.Lexed.{Lexed, Lexes, IsLexed, IsOrNoMemory};
ghost use Rattle.c_lex.specs.Reading.{outcome, pieces_at};
ghost use Rattle.c_lex.specs.Steps.{Comes};
ghost use Rattle.c_lex.specs.declared.fault.LexFault.{LexFault};

use crate::byte::line_feeds;
use crate::fault::LexFault;
use crate::step::{Step, next_step};
use crate::token::{Token, Tokens};
use cfix_base::{MAX_SOURCE_BYTES, MAX_TOKENS, Spot};
use std::alloc::Global;

/// The spot behind the first bytes of a text that begins at a spot.
fn advance(spot: Spot, text: &[u8], bytes: usize) -> Spot
    requires within { bytes ≤ length text.now }
    requires room { spot.at + bytes < 2 ^ 31 }
    requires line { spot.line ≤ spot.at + 1 }
    ensures at { result.at ≡ spot.at + length (take bytes text.now) }
    ensures line { result.line ≡ spot.line + count_by is_line_feed (take bytes text.now) }
{
    let passed = &text[..bytes];
    Spot {
        at: spot.at + passed.len() as u32,
        line: spot.line + line_feeds(passed) as u32,
    }
}

/// The text behind its first bytes.
fn behind(text: &[u8], bytes: usize) -> &[u8]
    requires { bytes ≤ length text.now }
    ensures { result.now ≡ drop bytes text.now }
{
    &text[bytes..]
}

/// What the pieces of a text come to.
fn read_pieces(alloc: Global, text: &[u8]) -> Result<Tokens, LexFault>
    requires { length text.now ≤ MAX_SOURCE_BYTES }
    ensures { Comes result (outcome MAX_TOKENS [] (pieces_at 0 text.now)) }
{
    let mut tokens = Tokens::new(alloc);
    let mut rest = text;
    let mut spot = Spot { at: 0, line: 1 };
    'pieces: while let Some((first, after)) = rest.split_first() {
        match next_step(alloc, rest, *first, after)? {
            Step::Skip(bytes) => {
                spot = advance(spot, rest, bytes);
                rest = behind(rest, bytes);
            }
            Step::Take(kind, bytes) => {
                tokens.add(Token { kind, spot }, bytes as u32)?;
                spot = advance(spot, rest, bytes);
                rest = behind(rest, bytes);
            }
            Step::Refuse(refusal) => return Err(refusal.at(spot)),
        }
    }
    Ok(tokens.ending(spot))
}

/// The tokens of a text, or its first fault: of its blanks, comments and tokens the first that is
/// refused, or the token past the limit.
pub fn lex(alloc: Global, text: &[u8]) -> Result<Tokens, LexFault>
    requires { length text.now ≤ MAX_SOURCE_BYTES }
    ensures divided { HasOneDivision text.now }

    // The tokens, and only where no piece has a fault.
    ensures tokens { IfOk result (λ tokens. Lexes text.now tokens) }
    ensures are_lexed { IfOk result (λ tokens. IsLexed tokens) }
    ensures whole { (lexed : Lexed) → Lexes text.now lexed → IsOrNoMemory result (Ok lexed) }

    // The first fault, wherever there is one.
    ensures fault { IfErr result (λ fault. IsCaused fault text.now) }
    ensures faulty { (fault : LexFault) → IsFirstFault text.now fault → IsOrNoMemory result (Err fault) }
{
    read_pieces(alloc, text)
}
