ghost use Rattle.std.specs.Prelude.{◌≡◌, drop};
ghost use Rattle.c_reading.specs.Reader.{map_out};
ghost use Rattle.c_reading.specs.ReadSimple.{set_from, assigns_with, assigns_from, value_at, simple_at};
ghost use Rattle.c_raw.specs.Simples.{target_view, value_view, simple_view};
ghost use Rattle.c_cursor.specs.Gives.{Gives};
ghost use Rattle.c_expr.specs.Parts.{named_simple_at};

use crate::arguments::{call_of, call_tail};
use crate::assignments::plain_of;
use crate::expressions::indexed;
use crate::headers::library;
use crate::signs::step;
use crate::targets::{target, target_of};
use crate::values::value;
use c_cursor::{Cursor, ReadFault};
use c_grammar::Sign;
use c_raw::{Plain, Simple, Target, Value};
use cfix_base::{MAX_DEPTH, Spot};
use std::alloc::Global;

// The assignment of a value to a target.
fn set(target: Target, at: Spot, value: Value) -> Simple
    ensures { simple_view result ≡ set_from (target_view target) at (value_view value) }
{
    match value {
        Value::Computed(value) => Simple::Plain(Plain::SetTo { target, at, value }),
        Value::Called(call) => Simple::SetCall { target, at, call },
    }
}

// What stands behind the target of a simple statement.
fn simple_of(
    cursor: &Cursor<'_>,
    alloc: Global,
    depth: u32,
    target: Target,
    at: usize,
) -> Result<(Simple, usize), ReadFault>
    ensures { Gives simple_view cursor.now.tokens result (map_out (assigns_from (target_view target)) (assigns_with 200 depth (value_at 200 depth) (drop at cursor.now.tokens))) }
{
    if cursor.is_sign(Sign::Assign, at) {
        let (spot, next) = cursor.sign(Sign::Assign, at)?;
        let (value, next) = value(cursor, alloc, depth, next)?;
        return Ok((set(target, spot, value), next));
    }
    let (plain, at) = plain_of(cursor, alloc, depth, target, at)?;
    Ok((Simple::Plain(plain), at))
}

// A simple statement that begins with a name.
fn named_simple(
    cursor: &Cursor<'_>,
    alloc: Global,
    depth: u32,
    at: usize,
) -> Result<(Simple, usize), ReadFault>
    ensures { Gives simple_view cursor.now.tokens result (named_simple_at 200 depth (drop at cursor.now.tokens)) }
{
    let (name, at) = cursor.ident(alloc, at)?;
    if cursor.is_sign(Sign::OpenParen, at) {
        let (tail, at) = call_tail(cursor, alloc, depth, at)?;
        return Ok((Simple::Call(call_of(name, tail)), at));
    }
    let (indexed, at) = indexed(cursor, alloc, depth, MAX_DEPTH, at)?;
    let target = target_of(alloc, name, indexed.place)?;
    simple_of(cursor, alloc, depth, target, at)
}

/// A simple statement without its semicolon.
pub fn simple(
    cursor: &Cursor<'_>,
    alloc: Global,
    depth: u32,
    at: usize,
) -> Result<(Simple, usize), ReadFault>
    ensures { Gives simple_view cursor.now.tokens result (simple_at 200 depth (drop at cursor.now.tokens)) }
{
    if cursor.is_name(at) {
        return named_simple(cursor, alloc, depth, at);
    }
    if let Some(((step, spot), next)) = step(cursor, at) {
        let (target, next) = target(cursor, alloc, depth, next)?;
        let at = spot;
        return Ok((
            Simple::Plain(Plain::SteppedBefore { step, at, target }),
            next,
        ));
    }
    let (library, at) = library(cursor, alloc, depth, at)?;
    Ok((Simple::Library(library), at))
}
