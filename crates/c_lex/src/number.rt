ghost use Rattle.std.specs.Prelude.{◌≡◌, true, false, pos, MatchOption, take};
ghost use Rattle.std.specs.List.{prefix_len};
ghost use Rattle.cfix_base.specs.Words.{is_name_byte};
ghost use Rattle.c_lex.specs.Pieces.{Numeral};
ghost use Rattle.c_lex.specs.Meaning.{has_leading_zero, decimal, is_value, is_number};
ghost use Rattle.c_lex.specs.Steps.{Tells};

use crate::byte::name_len;
use crate::fault::Refusal;
use crate::step::Step;
use crate::token::Kind;

/// The greatest number that is read.
const MAX_NUMBER: u64 = 2147483647;

fn has_leading_zero(text: &[u8]) -> bool
    ensures { result ≡ has_leading_zero text.now }
{
    match text {
        [digit, _, ..] => *digit == b'0',
        _ => false,
    }
}

/// The number that decimal digits write.
fn digits_value(text: &[u8]) -> Option<i32>
    ensures { MatchOption result (is_value text.now ≡ false) (λ value. (is_value text.now ≡ true) × (value ≡ pos (decimal text.now))) }
{
    let mut value: u64 = 0;
    let mut rest = text;
    'digits: while let Some((digit, behind)) = rest.split_first() {
        if !digit.is_ascii_digit() {
            return None;
        }
        value = 10 * value + u64::from(*digit - b'0');
        if value > MAX_NUMBER {
            return None;
        }
        rest = behind;
    }
    Some(value as i32)
}

/// The number that is written, if no 0 leads other digits and it is at most 2147483647.
pub fn number_value(text: &[u8]) -> Option<i32>
    ensures { MatchOption result (is_number text.now ≡ false) (λ value. (is_number text.now ≡ true) × (value ≡ pos (decimal text.now))) }
{
    if has_leading_zero(text) {
        None
    } else {
        digits_value(text)
    }
}

/// The step at a digit.
pub fn numeral(text: &[u8]) -> Step
    ensures { Tells result (Numeral (take (prefix_len is_name_byte text.now) text.now)) }
{
    let len = name_len(text);
    match number_value(&text[..len]) {
        Some(value) => Step::Take(Kind::Number(value), len),
        None => Step::Refuse(Refusal::BadNumber),
    }
}
