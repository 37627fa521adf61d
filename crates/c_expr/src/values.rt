ghost use Rattle.std.specs.Prelude.{◌≡◌, drop};
ghost use Rattle.c_reading.specs.ReadSimple.{value_at};
ghost use Rattle.c_raw.specs.Simples.{value_view};
ghost use Rattle.c_cursor.specs.Gives.{Gives};
ghost use Rattle.c_expr.specs.Parts.{named_value_at};

use crate::arguments::{call_of, call_tail};
use crate::expressions::{chain, expr, indexed};
use crate::operand::with_index;
use c_cursor::{Cursor, ReadFault};
use c_grammar::Sign;
use c_raw::Value;
use cfix_base::MAX_DEPTH;
use std::alloc::Global;

// An expression or a call that begins with a name.
fn named_value(
    cursor: &Cursor<'_>,
    alloc: Global,
    depth: u32,
    at: usize,
) -> Result<(Value, usize), ReadFault>
    ensures { Gives value_view cursor.now.tokens result (named_value_at 200 depth (drop at cursor.now.tokens)) }
{
    let (name, at) = cursor.ident(alloc, at)?;
    if cursor.is_sign(Sign::OpenParen, at) {
        let (tail, at) = call_tail(cursor, alloc, depth, at)?;
        return Ok((Value::Called(call_of(name, tail)), at));
    }
    let (indexed, at) = indexed(cursor, alloc, depth, MAX_DEPTH, at)?;
    let first = with_index(alloc, name, indexed)?;
    let (operand, at) = chain(cursor, alloc, depth, first, at)?;
    Ok((Value::Computed(operand.expr), at))
}

/// An expression or a call.
pub fn value(
    cursor: &Cursor<'_>,
    alloc: Global,
    depth: u32,
    at: usize,
) -> Result<(Value, usize), ReadFault>
    ensures { Gives value_view cursor.now.tokens result (value_at 200 depth (drop at cursor.now.tokens)) }
{
    if cursor.is_name(at) {
        return named_value(cursor, alloc, depth, at);
    }
    let (expr, at) = expr(cursor, alloc, depth, at)?;
    Ok((Value::Computed(expr), at))
}
