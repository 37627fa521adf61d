ghost use Rattle.std.specs.Prelude.{◌≡◌, ◌+◌, ◌++◌, ◌∷◌, ◌==◌, ◌<◌, ◌^◌, ◌≤◌, ℕ, List, IfOk, OnOk, drop, length};
ghost use Rattle.std.specs.Fmt.{signed_decimal};
ghost use Rattle.step_state.specs.Values.{last_value};
ghost use Rattle.step_state.specs.Act.{directive, number_sign, shown};

use cfix_base::NoMemory;
use itoa::Buffer;
use std::alloc::Global;

/// Adds a number in decimal, with a sign where it is negative.
fn add_number(bytes: &mut Vec<u8>, number: i32) -> Result<(), NoMemory>
    ensures { OnOk result (bytes.new.items ≡ bytes.old.items ++ signed_decimal number) }
{
    bytes.extend_from_slice(Buffer::new().format(number).as_bytes())?;
    Ok(())
}

/// The value in this place; 0 where there is none.
#[tactic(auto, using(crate::proofs::Prints::value_in, crate::proofs::Prints::value_out))]
fn value_at(values: &[i32], place: usize) -> i32
    ensures { result ≡ last_value (drop place values.now) }
{
    match values.get(place) {
        None => 0,
        Some(value) => *value,
    }
}

/// Writes what a `%` with this letter stands for, and tells how many values are used then.
fn add_directive(
    bytes: &mut Vec<u8>,
    letter: u8,
    values: &[i32],
    used: usize,
) -> Result<usize, NoMemory>
    requires { used + 1 < 2 ^ 64 }
    ensures written { IfOk result (λ next. (rest : List ℕ) → bytes.new.items ++ shown rest (drop next values.now) ≡ bytes.old.items ++ directive (letter == number_sign) letter (drop used values.now) (shown rest)) }
    ensures next { IfOk result (λ next. next ≤ used + 1) }
{
    if letter == b'd' {
        add_number(bytes, value_at(values, used))?;
        return Ok(used + 1);
    }
    bytes.push(letter)?;
    Ok(used)
}

/// How far a string is written, and how many values are used.
#[derive(Clone, Copy)]
struct Written {
    at: usize,
    used: usize,
}

/// The byte in this place.
fn byte_at(text: &[u8], at: usize) -> u8
    requires { at < length text.now }
    ensures { drop at text.now ≡ result ∷ drop (at + 1) text.now }
{
    text[at]
}

/// Writes one byte, or what a `%` stands for.
fn add_piece(
    bytes: &mut Vec<u8>,
    text: &[u8],
    values: &[i32],
    so_far: Written,
) -> Result<Written, NoMemory>
    requires within { so_far.at < length text.now }
    requires used { so_far.used ≤ so_far.at }
    ensures written { IfOk result (λ next. bytes.new.items ++ shown (drop next.at text.now) (drop next.used values.now) ≡ bytes.old.items ++ shown (drop so_far.at text.now) (drop so_far.used values.now)) }
    ensures further { IfOk result (λ next. (so_far.at < next.at) × (next.at ≤ length text.now) × (next.used ≤ next.at)) }
{
    let Written { at, used } = so_far;
    let byte = byte_at(text, at);
    if text.len() - at < 2 {
        bytes.push(byte)?;
        return Ok(Written { at: at + 1, used });
    }
    if byte != b'%' {
        bytes.push(byte)?;
        return Ok(Written { at: at + 1, used });
    }
    let next = add_directive(bytes, byte_at(text, at + 1), values, used)?;
    Ok(Written {
        at: at + 2,
        used: next,
    })
}

/// What a printf with this string writes of these values.
#[tactic(auto, using(crate::proofs::Prints::written_all))]
pub fn printed(alloc: Global, text: &[u8], values: &[i32]) -> Result<Vec<u8>, NoMemory>
    ensures { IfOk result (λ bytes. bytes.items ≡ shown text.now values.now) }
{
    let mut bytes = Vec::new(alloc);
    let mut so_far = Written { at: 0, used: 0 };
    while so_far.at < text.len() {
        so_far = add_piece(&mut bytes, text, values, so_far)?;
    }
    Ok(bytes)
}
