ghost use Rattle.std.specs.Prelude.{◌≡◌, IfOk, eqb, if◌then◌else◌};
ghost use Rattle.c_lex.specs.Bytes.{is_sign};
ghost use Rattle.c_lex.specs.Pieces.{Punctuator};
ghost use Rattle.c_lex.specs.Reading.{single_at, pair_at, sign_at};
ghost use Rattle.c_lex.specs.Steps.{Tells};

use crate::bytes::copy;
use crate::fault::Refusal;
use crate::step::Step;
use crate::table::is_among;
use crate::token::Kind;
use cfix_base::NoMemory;
use std::alloc::Global;

const SIGNS: [&[u8]; 33] = [
    b"(", b")", b"{", b"}", b"[", b"]", b";", b",", b"=", b"+", b"-", b"*", b"/", b"%", b"<", b">",
    b"<=", b">=", b"==", b"!=", b"!", b"&&", b"||", b"&", b"++", b"--", b"+=", b"-=", b"*=", b"/=",
    b"%=", b"#", b".",
];

fn is_sign(text: &[u8]) -> bool
    ensures { result ≡ is_sign text.now }
{
    is_among(&SIGNS, text)
}

/// Why a byte that begins nothing is refused.
fn stray(byte: u8) -> Refusal
    ensures { result ≡ (if eqb byte 34 then Refusal.BadString else Refusal.BadByte) }
{
    if byte == b'"' {
        Refusal::BadString
    } else {
        Refusal::BadByte
    }
}

fn take_sign(alloc: Global, text: &[u8]) -> Result<Step, NoMemory>
    ensures { IfOk result (λ step. Tells step (Punctuator text.now)) }
{
    Ok(Step::Take(Kind::Sign(copy(alloc, text)?), text.len()))
}

fn single(alloc: Global, byte: u8) -> Result<Step, NoMemory>
    ensures { IfOk result (λ step. Tells step (single_at byte)) }
{
    let text = [byte];
    if is_sign(&text) {
        take_sign(alloc, &text)
    } else {
        Ok(Step::Refuse(stray(byte)))
    }
}

pub fn pair(alloc: Global, byte: u8, next: u8) -> Result<Step, NoMemory>
    ensures { IfOk result (λ step. Tells step (pair_at byte next)) }
{
    let text = [byte, next];
    if is_sign(&text) {
        take_sign(alloc, &text)
    } else {
        single(alloc, byte)
    }
}

/// The step at a byte that begins no name, no number, no string and no comment: the longest sign.
pub fn sign(alloc: Global, byte: u8, after: &[u8]) -> Result<Step, NoMemory>
    ensures { IfOk result (λ step. Tells step (sign_at byte after.now)) }
{
    match after.split_first() {
        Some((next, _)) => pair(alloc, byte, *next),
        None => single(alloc, byte),
    }
}
