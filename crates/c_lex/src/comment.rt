ghost use Rattle.std.specs.Prelude.{◌≡◌, ◌&&◌, eqb, IfOk};
ghost use Rattle.c_lex.specs.Bytes.{begins_with};
ghost use Rattle.c_lex.specs.Reading.{close_at, comment_at, slash_at};
ghost use Rattle.c_lex.specs.Steps.{Tells};

use crate::byte::line_len;
use crate::fault::Refusal;
use crate::sign::sign;
use crate::step::Step;
use cfix_base::NoMemory;
use std::alloc::Global;

/// Whether `*/` stands at a byte, where `behind` is what follows it.
fn is_close(byte: u8, behind: &[u8]) -> bool
    ensures { result ≡ (eqb byte 42 && begins_with 47 behind.now) }
{
    match behind {
        [next, ..] => byte == b'*' && *next == b'/',
        [] => false,
    }
}

/// The number of bytes before the first `*/`.
fn close_at(text: &[u8]) -> Option<usize>
    ensures { result ≡ close_at text.now }
{
    let mut passed = 0;
    let mut rest = text;
    'bytes: while let Some((byte, behind)) = rest.split_first() {
        if is_close(*byte, behind) {
            return Some(passed);
        }
        passed += 1;
        rest = behind;
    }
    None
}

/// The step at a `/*`, where `body` is what follows it.
fn comment(body: &[u8]) -> Step
    ensures { Tells result (comment_at body.now (close_at body.now)) }
{
    match close_at(body) {
        Some(bytes) => Step::Skip(bytes + 4),
        None => Step::Refuse(Refusal::OpenComment),
    }
}

/// The step at a `/`, where `after` is what follows it.
pub fn slash(alloc: Global, after: &[u8]) -> Result<Step, NoMemory>
    ensures { IfOk result (λ step. Tells step (slash_at after.now)) }
{
    match after.split_first() {
        Some((b'/', line)) => Ok(Step::Skip(line_len(line) + 2)),
        Some((b'*', body)) => Ok(comment(body)),
        _ => sign(alloc, b'/', after),
    }
}
