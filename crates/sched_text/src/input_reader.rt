ghost use Rattle.std.specs.Prelude.{◌≡◌, ◌≤◌, ℕ, ℤ, List, Ok, Err, IfOk, IfErr, MatchResult, ◌⊎◌, length, drop};
ghost use Rattle.std.specs.List.{prefix_len};
ghost use Rattle.sched_text.specs.Inputs.{is_blank, is_in_word, SpellsInput, IsFirstBadWord, ExplainsInputFault};

use crate::value_text::value_of;
use cfix_base::MAX_INPUT_BYTES;
use std::alloc::{AllocFailed, Global};
use thiserror::Error;

/// Why a text is no input.
#[derive(Clone, Copy, Debug, PartialEq, Eq, Error)]
pub enum InputFault {
    #[error("NoMemory")]
    NoMemory,
    /// The byte, counted from 0, at which the first malformed word begins.
    #[error("BadNumber")]
    BadNumber(u32),
}

impl From<AllocFailed<i32>> for InputFault {
    ghost use Rattle.sched_text.specs.declared.input_reader.InputFault.TheVariants as fault;

    ghost from_gives = { λ _ given. given ≡ fault.NoMemory };

    fn from(_: AllocFailed<i32>) -> InputFault {
        InputFault::NoMemory
    }
}

fn is_blank_byte(byte: u8) -> bool
    ensures { result ≡ is_blank byte }
{
    byte == b' ' || byte == b'\t' || byte == b'\n' || byte == b'\r'
}

/// The number of bytes of the word that stands first.
fn word_len(text: &[u8]) -> usize
    ensures { result ≡ prefix_len is_in_word text.now }
{
    text.iter()
        .take_while(|byte| !is_blank_byte(**byte))
        .count()
}

/// What stands from byte `at` on.
fn text_from(text: &[u8], at: usize) -> &[u8]
    requires { at ≤ length text.now }
    ensures { result.now ≡ drop at text.now }
{
    &text[at..]
}

/// Reads the words one after another.
fn read_words(alloc: Global, text: &[u8]) -> Result<Vec<i32>, InputFault>
    requires { length text.now ≤ MAX_INPUT_BYTES }
    ensures ok { IfOk result (λ values. SpellsInput text.now values.items) }
    ensures refused { IfErr result (λ fault. ExplainsInputFault text.now fault) }
{
    let mut values = Vec::new(alloc);
    let mut at = 0;
    'words: while at < text.len() {
        let rest = text_from(text, at);
        let len = word_len(rest);
        if len == 0 {
            at += 1;
        } else {
            match value_of(&rest[..len]) {
                Some(value) => values.push(value)?,
                None => return Err(InputFault::BadNumber(at as u32)),
            }
            at += len;
        }
    }
    Ok(values)
}

/// Reads an input.
pub fn input(alloc: Global, text: &[u8]) -> Result<Vec<i32>, InputFault>
    requires { length text.now ≤ MAX_INPUT_BYTES }
    ensures ok { IfOk result (λ values. SpellsInput text.now values.items) }
    ensures refused { IfErr result (λ fault. ExplainsInputFault text.now fault) }

    // Both ways: what the text is fixes the answer, but for want of memory.
    ensures reads { (values : List ℤ) → SpellsInput text.now values → MatchResult result (λ got. got.items ≡ values) (λ fault. fault ≡ InputFault.NoMemory) }
    ensures bad_number { (start : ℕ) → IsFirstBadWord text.now start → (result ≡ Err (InputFault.BadNumber start)) ⊎ (result ≡ Err InputFault.NoMemory) }
{
    read_words(alloc, text)
}
