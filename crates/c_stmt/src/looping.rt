//! The parts of a `for` (6.8.5.3 of ISO/IEC 9899:2011).
ghost use Rattle.std.specs.Prelude.{drop};
ghost use Rattle.c_reading.specs.ReadStmt.{first_at, loop_step_at};
ghost use Rattle.c_raw.specs.Stmts.{first_view, loop_step_view, first_part_view, cond_part_view, step_part_view};
ghost use Rattle.c_cursor.specs.Gives.{Gives};
ghost use Rattle.c_stmt.specs.Loops.{first_part_at, cond_part_at, step_part_at};

use crate::cond::cond_of;
use crate::decl::{loop_int_of, more_loop_ints_of};
use crate::test::{begins_first, begins_plain};
use c_cursor::{Cursor, ReadFault};
use c_expr::{begins_expr, more_ops, plain};
use c_grammar::Word;
use c_raw::{Cond, First, LoopStep};
use std::alloc::Global;

fn first_of(
    cursor: &Cursor<'_>,
    alloc: Global,
    depth: u32,
    at: usize,
) -> Result<(First, usize), ReadFault>
    ensures { Gives first_view cursor.now.tokens result (first_at 200 depth (drop at cursor.now.tokens)) }
{
    if !cursor.is_word(Word::Int, at) {
        let (plain, at) = plain(cursor, alloc, depth, at)?;
        return Ok((First::Plain(plain), at));
    }
    let (int, at) = cursor.word(Word::Int, at)?;
    let (first, at) = loop_int_of(cursor, alloc, depth, at)?;
    let (more, at) = more_loop_ints_of(cursor, alloc, depth, at)?;
    Ok((
        First::Ints {
            at: int,
            first,
            more,
        },
        at,
    ))
}

fn loop_step_of(
    cursor: &Cursor<'_>,
    alloc: Global,
    depth: u32,
    at: usize,
) -> Result<(LoopStep, usize), ReadFault>
    ensures { Gives loop_step_view cursor.now.tokens result (loop_step_at 200 depth (drop at cursor.now.tokens)) }
{
    let (plain, at) = plain(cursor, alloc, depth, at)?;
    let (ops, at) = more_ops(cursor, alloc, at)?;
    Ok((LoopStep { plain, ops }, at))
}

/// The first part of a `for`, if there is one.
pub(crate) fn first_part_of(
    cursor: &Cursor<'_>,
    alloc: Global,
    depth: u32,
    at: usize,
) -> Result<(Option<First>, usize), ReadFault>
    ensures { Gives first_part_view cursor.now.tokens result (first_part_at depth (drop at cursor.now.tokens)) }
{
    if !begins_first(cursor, at) {
        return Ok((None, at));
    }
    let (first, at) = first_of(cursor, alloc, depth, at)?;
    Ok((Some(first), at))
}

/// The condition of a `for`, if there is one.
pub(crate) fn cond_part_of(
    cursor: &Cursor<'_>,
    alloc: Global,
    depth: u32,
    at: usize,
) -> Result<(Option<Cond>, usize), ReadFault>
    ensures { Gives cond_part_view cursor.now.tokens result (cond_part_at depth (drop at cursor.now.tokens)) }
{
    if !begins_expr(cursor, at) {
        return Ok((None, at));
    }
    let (cond, at) = cond_of(cursor, alloc, depth, at)?;
    Ok((Some(cond), at))
}

/// The step of a `for`, if there is one.
pub(crate) fn step_part_of(
    cursor: &Cursor<'_>,
    alloc: Global,
    depth: u32,
    at: usize,
) -> Result<(Option<LoopStep>, usize), ReadFault>
    ensures { Gives step_part_view cursor.now.tokens result (step_part_at depth (drop at cursor.now.tokens)) }
{
    if !begins_plain(cursor, at) {
        return Ok((None, at));
    }
    let (step, at) = loop_step_of(cursor, alloc, depth, at)?;
    Ok((Some(step), at))
}
