ghost use Rattle.std.specs.Prelude.{◌≡◌, drop};
ghost use Rattle.c_reading.specs.Reader.{map_out};
ghost use Rattle.c_reading.specs.ReadExpr.{expr_at};
ghost use Rattle.c_reading.specs.ReadSimple.{assigns_with, assigned, plain_at};
ghost use Rattle.c_raw.specs.Simples.{target_view, plain_view};
ghost use Rattle.c_cursor.specs.Gives.{Gives};

use crate::expressions::expr;
use crate::signs::{change, step};
use crate::targets::target;
use c_cursor::{Cursor, ReadFault};
use c_grammar::Sign;
use c_raw::{Plain, Target};
use std::alloc::Global;

/// What stands behind the target of an assignment of an expression, or of a step.
pub(crate) fn plain_of(
    cursor: &Cursor<'_>,
    alloc: Global,
    depth: u32,
    target: Target,
    at: usize,
) -> Result<(Plain, usize), ReadFault>
    ensures { Gives plain_view cursor.now.tokens result (map_out (assigned (target_view target)) (assigns_with 200 depth (expr_at depth 200) (drop at cursor.now.tokens))) }
{
    if cursor.is_sign(Sign::Assign, at) {
        let (spot, next) = cursor.sign(Sign::Assign, at)?;
        let (value, next) = expr(cursor, alloc, depth, next)?;
        let at = spot;
        return Ok((Plain::SetTo { target, at, value }, next));
    }
    if let Some(((how, spot), next)) = change(cursor, at) {
        let (value, next) = expr(cursor, alloc, depth, next)?;
        let at = spot;
        return Ok((
            Plain::Changed {
                target,
                how,
                at,
                value,
            },
            next,
        ));
    }
    match step(cursor, at) {
        Some(((step, spot), next)) => {
            let at = spot;
            Ok((Plain::SteppedAfter { target, step, at }, next))
        }
        None => Err(ReadFault::Unexpected(at)),
    }
}

/// An assignment of an expression, or a step.
pub fn plain(
    cursor: &Cursor<'_>,
    alloc: Global,
    depth: u32,
    at: usize,
) -> Result<(Plain, usize), ReadFault>
    ensures { Gives plain_view cursor.now.tokens result (plain_at 200 depth (drop at cursor.now.tokens)) }
{
    if cursor.is_name(at) {
        let (target, at) = target(cursor, alloc, depth, at)?;
        return plain_of(cursor, alloc, depth, target, at);
    }
    match step(cursor, at) {
        Some(((step, spot), next)) => {
            let (target, next) = target(cursor, alloc, depth, next)?;
            let at = spot;
            Ok((Plain::SteppedBefore { step, at, target }, next))
        }
        None => Err(ReadFault::Unexpected(at)),
    }
}
