ghost use Rattle.std.specs.Prelude.{◌≡◌, drop};
ghost use Rattle.c_reading.specs.Read.{commas};
ghost use Rattle.c_reading.specs.ReadOp.{read_op, read_ops};
ghost use Rattle.c_raw.specs.Ops.{op_view, ops_view, more_ops_view};
ghost use Rattle.c_cursor.specs.Gives.{Gives};

use crate::signs::{is_verb, verb};
use c_cursor::{Cursor, ReadFault};
use c_grammar::Sign;
use c_raw::Op;
use cfix_base::{List, Spot};
use std::alloc::Global;

/// An operation.
pub fn op(cursor: &Cursor<'_>, at: usize) -> Result<(Op, usize), ReadFault>
    ensures { Gives op_view cursor.now.tokens result (read_op (drop at cursor.now.tokens)) }
{
    let Some(((verb, spot), next)) = verb(cursor, at) else {
        return Err(ReadFault::Unexpected(at));
    };
    let (before, next) = cursor.sign(Sign::OpenParen, next)?;
    let (number, next) = cursor.numeral(next)?;
    let (after, next) = cursor.sign(Sign::CloseParen, next)?;
    let at = spot;
    Ok((
        Op {
            verb,
            at,
            before,
            number,
            after,
        },
        next,
    ))
}

/// Operations, each with the semicolon behind it.
pub fn ops(
    cursor: &Cursor<'_>,
    alloc: Global,
    at: usize,
) -> Result<(List<(Op, Spot)>, usize), ReadFault>
    ensures { Gives ops_view cursor.now.tokens result (read_ops (drop at cursor.now.tokens)) }
{
    let mut ops = List::new(alloc);
    let mut at = at;
    for _turn in 0..cursor.left(at) {
        if !is_verb(cursor, at) {
            return Ok((ops, at));
        }
        let (op, next) = op(cursor, at)?;
        let (end, next) = cursor.sign(Sign::Semicolon, next)?;
        ops.push((op, end))?;
        at = next;
    }
    Ok((ops, at))
}

/// Operations, each with the comma before it.
pub fn more_ops(
    cursor: &Cursor<'_>,
    alloc: Global,
    at: usize,
) -> Result<(List<(Spot, Op)>, usize), ReadFault>
    ensures { Gives more_ops_view cursor.now.tokens result (commas read_op (drop at cursor.now.tokens)) }
{
    let mut ops = List::new(alloc);
    let mut at = at;
    for _turn in 0..cursor.left(at) {
        if !cursor.is_sign(Sign::Comma, at) {
            return Ok((ops, at));
        }
        let (comma, next) = cursor.sign(Sign::Comma, at)?;
        let (op, next) = op(cursor, next)?;
        ops.push((comma, op))?;
        at = next;
    }
    Ok((ops, at))
}
