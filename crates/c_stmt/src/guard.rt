//! Guards: the operations in a condition.
ghost use Rattle.std.specs.Prelude.{◌≡◌, drop};
ghost use Rattle.c_reading.specs.Reader.{one_of, many};
ghost use Rattle.c_reading.specs.ReadOp.{is_verb};
ghost use Rattle.c_reading.specs.ReadCond.{is_number_of, at_digit, read_guard};
ghost use Rattle.c_raw.specs.Conds.{guard_view};
ghost use Rattle.c_raw.specs.Ops.{op_view, ops_view};
ghost use Rattle.c_cursor.specs.Gives.{Gives};
ghost use Rattle.c_stmt.specs.Conds.{look_digit, guard_op, guard_op_view, guarded, guarded_view};

use c_cursor::{Cursor, Look, ReadFault};
use c_expr::{is_verb, op};
use c_grammar::Sign;
use c_raw::{Guard, Op};
use cfix_base::{List, Spot};
use std::alloc::Global;

// An operation with the comma behind it.
fn guard_op_of(cursor: &Cursor<'_>, at: usize) -> Result<((Op, Spot), usize), ReadFault>
    ensures { Gives guard_op_view cursor.now.tokens result (guard_op (drop at cursor.now.tokens)) }
{
    let (op, at) = op(cursor, at)?;
    let (comma, at) = cursor.sign(Sign::Comma, at)?;
    Ok(((op, comma), at))
}

fn guard_ops_of(
    cursor: &Cursor<'_>,
    alloc: Global,
    at: usize,
) -> Result<(List<(Op, Spot)>, usize), ReadFault>
    ensures { Gives ops_view cursor.now.tokens result (many is_verb guard_op (drop at cursor.now.tokens)) }
{
    let mut more = List::new(alloc);
    let mut place = at;
    'ops: for _ in 0..cursor.left(at) {
        if !is_verb(cursor, place) {
            return Ok((more, place));
        }
        let (next, after) = guard_op_of(cursor, place)?;
        more.push(next)?;
        place = after;
    }
    Ok((more, place))
}

fn is_number(digit: u32, value: i32) -> bool
    ensures { result ≡ is_number_of digit value }
{
    value >= 0 && value as u32 == digit
}

fn is_digit(digit: u32, look: Option<Look>) -> bool
    ensures { result ≡ look_digit digit look }
{
    match look {
        Some(Look::Number(value)) => is_number(digit, value),
        _ => false,
    }
}

// This number.
fn digit_of(cursor: &Cursor<'_>, digit: u32, at: usize) -> Result<(Spot, usize), ReadFault>
    ensures { Gives (λ s. s) cursor.now.tokens result (one_of (at_digit digit) (drop at cursor.now.tokens)) }
{
    if !is_digit(digit, cursor.look(at)) {
        return Err(ReadFault::Unexpected(at));
    }
    let (number, at) = cursor.numeral(at)?;
    Ok((number.spot, at))
}

/// Operations and the number behind them.
pub(crate) fn guard_of(
    cursor: &Cursor<'_>,
    alloc: Global,
    digit: u32,
    at: usize,
) -> Result<(Guard, usize), ReadFault>
    ensures { Gives guard_view cursor.now.tokens result (read_guard digit (drop at cursor.now.tokens)) }
{
    let (first, at) = op(cursor, at)?;
    let (comma, at) = cursor.sign(Sign::Comma, at)?;
    let (more, at) = guard_ops_of(cursor, alloc, at)?;
    let (digit, at) = digit_of(cursor, digit, at)?;
    Ok((
        Guard {
            first,
            comma,
            more,
            digit,
        },
        at,
    ))
}

/// A guard with its parentheses.
#[derive(Drop)]
pub(crate) struct Guarded {
    pub before: Spot,
    pub guard: Guard,
    pub after: Spot,
}

/// A guard in parentheses.
pub(crate) fn guarded_of(
    cursor: &Cursor<'_>,
    alloc: Global,
    digit: u32,
    at: usize,
) -> Result<(Guarded, usize), ReadFault>
    ensures { Gives guarded_view cursor.now.tokens result (guarded digit (drop at cursor.now.tokens)) }
{
    let (before, at) = cursor.sign(Sign::OpenParen, at)?;
    let (guard, at) = guard_of(cursor, alloc, digit, at)?;
    let (after, at) = cursor.sign(Sign::CloseParen, at)?;
    Ok((
        Guarded {
            before,
            guard,
            after,
        },
        at,
    ))
}
