ghost use Rattle.std.specs.Prelude.{◌≡◌, ℤ, SomeIff, FitsSigned};
ghost use Rattle.std.specs.Int.{w32};
ghost use Rattle.step_state.specs.Values.{checked, is_zero, quotient, remainder, truth, binary, unary};
ghost use Rattle.step_values.specs.Results.{Computes};

use step_state::{Binary, Trap, Unary};

/// The result of 32-bit arithmetic, or the trap of one that is out of range.
#[tactic(auto, using(crate::proofs::Ranges::checked_none, crate::proofs::Ranges::checked_some))]
fn in_range(value: Option<i32>) -> Result<i32, Trap>
    ensures { (z : ℤ) → SomeIff value (FitsSigned w32 z) z → Computes result (checked z) }
{
    match value {
        None => Err(Trap::Overflow),
        Some(value) => Ok(value),
    }
}

fn truth_of(test: bool) -> i32
    ensures { result ≡ truth test }
{
    if test { 1 } else { 0 }
}

/// Whether a number is 0.
#[tactic(auto, using(crate::proofs::Ranges::zero_is, crate::proofs::Ranges::other_is))]
pub fn is_zero(value: i32) -> bool
    ensures { result ≡ is_zero value }
{
    if value == 0 { true } else { false }
}

/// A quotient, truncated toward zero.
#[tactic(auto, using(crate::proofs::Ranges::quotient_zero, crate::proofs::Ranges::quotient_none, crate::proofs::Ranges::quotient_some))]
fn divide(left: i32, right: i32) -> Result<i32, Trap>
    ensures { Computes result (quotient (is_zero right) left right) }
{
    if is_zero(right) {
        return Err(Trap::Zero);
    }
    match left.checked_div(right) {
        None => Err(Trap::Overflow),
        Some(value) => Ok(value),
    }
}

/// A remainder, with the sign of the left operand.
#[tactic(auto, using(crate::proofs::Ranges::remainder_zero, crate::proofs::Ranges::remainder_none, crate::proofs::Ranges::remainder_some))]
fn remain(left: i32, right: i32) -> Result<i32, Trap>
    ensures { Computes result (remainder (is_zero right) left right) }
{
    if is_zero(right) {
        return Err(Trap::Zero);
    }
    match left.checked_rem(right) {
        None => Err(Trap::Overflow),
        Some(value) => Ok(value),
    }
}

/// What an operator with one operand gives.
pub(crate) fn unary(op: Unary, value: i32) -> Result<i32, Trap>
    ensures { Computes result (unary op value) }
{
    match op {
        Unary::Neg => in_range(value.checked_neg()),
        Unary::Not => Ok(truth_of(is_zero(value))),
    }
}

/// What an operator with two operands gives.
pub(crate) fn binary(op: Binary, left: i32, right: i32) -> Result<i32, Trap>
    ensures { Computes result (binary op left right) }
{
    match op {
        Binary::Add => in_range(left.checked_add(right)),
        Binary::Sub => in_range(left.checked_sub(right)),
        Binary::Mul => in_range(left.checked_mul(right)),
        Binary::Div => divide(left, right),
        Binary::Rem => remain(left, right),
        Binary::Lt => Ok(truth_of(left < right)),
        Binary::Le => Ok(truth_of(left <= right)),
        Binary::Gt => Ok(truth_of(left > right)),
        Binary::Ge => Ok(truth_of(left >= right)),
        Binary::Eq => Ok(truth_of(left == right)),
        Binary::Ne => Ok(truth_of(left != right)),
    }
}
