//! Declarations (6.7 of ISO/IEC 9899:2011).
ghost use Rattle.std.specs.Prelude.{drop};
ghost use Rattle.c_reading.specs.Read.{commas, listed};
ghost use Rattle.c_reading.specs.ReadDecl.{read_size, read_length, read_hold, local_at, decl_at, loop_int_at};
ghost use Rattle.c_raw.specs.Decls.{size_view, hold_view, more_holds_view, local_int_view, more_local_ints_view, decl_view, loop_int_view, more_loop_ints_view};
ghost use Rattle.c_cursor.specs.Gives.{Gives};
ghost use Rattle.c_stmt.specs.Decls.{length_view, locals_view, next_hold_view, next_local_view, next_loop_int_view, next_hold, next_local, next_loop_int};

use c_cursor::{Cursor, ReadFault};
use c_expr::{expr, value};
use c_grammar::{Sign, Word};
use c_raw::{Decl, Hold, LocalInt, LoopInt, Size};
use cfix_base::{List, Spot};
use sqlite_items::Boxed;
use std::alloc::Global;

/// `[size]` behind a declared name.
#[derive(Drop)]
pub struct Length {
    pub before: Spot,
    pub size: Size,
    pub after: Spot,
}

/// The number of an array's elements, or the name of a number.
pub fn size_of(cursor: &Cursor<'_>, alloc: Global, at: usize) -> Result<(Size, usize), ReadFault>
    ensures { Gives size_view cursor.now.tokens result (read_size (drop at cursor.now.tokens)) }
{
    if cursor.is_number(at) {
        let (number, at) = cursor.numeral(at)?;
        return Ok((Size::Count(number), at));
    }
    let (name, at) = cursor.ident(alloc, at)?;
    Ok((Size::Named(name), at))
}

/// `[size]`
pub fn length_of(
    cursor: &Cursor<'_>,
    alloc: Global,
    at: usize,
) -> Result<(Length, usize), ReadFault>
    ensures { Gives length_view cursor.now.tokens result (read_length (drop at cursor.now.tokens)) }
{
    let (before, at) = cursor.sign(Sign::OpenBracket, at)?;
    let (size, at) = size_of(cursor, alloc, at)?;
    let (after, at) = cursor.sign(Sign::CloseBracket, at)?;
    Ok((
        Length {
            before,
            size,
            after,
        },
        at,
    ))
}

/// A declarator of type `pthread_t`.
pub fn hold_of(cursor: &Cursor<'_>, alloc: Global, at: usize) -> Result<(Hold, usize), ReadFault>
    ensures { Gives hold_view cursor.now.tokens result (read_hold (drop at cursor.now.tokens)) }
{
    let (name, at) = cursor.ident(alloc, at)?;
    if !cursor.is_sign(Sign::OpenBracket, at) {
        return Ok((Hold::OneThread(name), at));
    }
    let (length, at) = length_of(cursor, alloc, at)?;
    let Length {
        before,
        size,
        after,
    } = length;
    Ok((
        Hold::Threads {
            name,
            before,
            size,
            after,
        },
        at,
    ))
}

fn next_hold_of(
    cursor: &Cursor<'_>,
    alloc: Global,
    at: usize,
) -> Result<((Spot, Hold), usize), ReadFault>
    ensures { Gives next_hold_view cursor.now.tokens result (next_hold (drop at cursor.now.tokens)) }
{
    let (comma, at) = cursor.sign(Sign::Comma, at)?;
    let (hold, at) = hold_of(cursor, alloc, at)?;
    Ok(((comma, hold), at))
}

/// Declarators of type `pthread_t`, each with the comma before it.
pub fn more_holds_of(
    cursor: &Cursor<'_>,
    alloc: Global,
    at: usize,
) -> Result<(List<(Spot, Hold)>, usize), ReadFault>
    ensures { Gives more_holds_view cursor.now.tokens result (commas read_hold (drop at cursor.now.tokens)) }
{
    let mut more = List::new(alloc);
    let mut place = at;
    'holds: for _ in 0..cursor.left(at) {
        if !cursor.is_sign(Sign::Comma, place) {
            return Ok((more, place));
        }
        let (next, after) = next_hold_of(cursor, alloc, place)?;
        more.push(next)?;
        place = after;
    }
    Ok((more, place))
}

/// A local declarator of type `int`.
#[tactic(auto, unfolding(c_reading::specs::ReadDecl::local_at))]
fn local_of(
    cursor: &Cursor<'_>,
    alloc: Global,
    depth: u32,
    at: usize,
) -> Result<(LocalInt, usize), ReadFault>
    ensures { Gives local_int_view cursor.now.tokens result (local_at 200 depth (drop at cursor.now.tokens)) }
{
    let (name, at) = cursor.ident(alloc, at)?;
    if cursor.is_sign(Sign::Assign, at) {
        let (set, at) = cursor.sign(Sign::Assign, at)?;
        let (value, at) = value(cursor, alloc, depth, at)?;
        return Ok((
            LocalInt::SetLocal {
                name,
                at: set,
                value,
            },
            at,
        ));
    }
    if !cursor.is_sign(Sign::OpenBracket, at) {
        return Ok((LocalInt::OneLocal(name), at));
    }
    let (length, at) = length_of(cursor, alloc, at)?;
    let Length {
        before,
        size,
        after,
    } = length;
    Ok((
        LocalInt::LocalArray {
            name,
            before,
            size,
            after,
        },
        at,
    ))
}

fn next_local_of(
    cursor: &Cursor<'_>,
    alloc: Global,
    depth: u32,
    at: usize,
) -> Result<((Spot, LocalInt), usize), ReadFault>
    ensures { Gives next_local_view cursor.now.tokens result (next_local depth (drop at cursor.now.tokens)) }
{
    let (comma, at) = cursor.sign(Sign::Comma, at)?;
    let (local, at) = local_of(cursor, alloc, depth, at)?;
    Ok(((comma, local), at))
}

fn more_locals_of(
    cursor: &Cursor<'_>,
    alloc: Global,
    depth: u32,
    at: usize,
) -> Result<(List<(Spot, LocalInt)>, usize), ReadFault>
    ensures { Gives more_local_ints_view cursor.now.tokens result (commas (local_at 200 depth) (drop at cursor.now.tokens)) }
{
    let mut more = List::new(alloc);
    let mut place = at;
    'locals: for _ in 0..cursor.left(at) {
        if !cursor.is_sign(Sign::Comma, place) {
            return Ok((more, place));
        }
        let (next, after) = next_local_of(cursor, alloc, depth, place)?;
        more.push(next)?;
        place = after;
    }
    Ok((more, place))
}

/// Local declarators of type `int`.
#[derive(Drop)]
pub(crate) struct Locals {
    pub first: LocalInt,
    pub more: List<(Spot, LocalInt)>,
}

/// The declarators behind an `int`.
pub(crate) fn locals_of(
    cursor: &Cursor<'_>,
    alloc: Global,
    depth: u32,
    at: usize,
) -> Result<(Locals, usize), ReadFault>
    ensures { Gives locals_view cursor.now.tokens result (listed (local_at 200 depth) (drop at cursor.now.tokens)) }
{
    let (first, at) = local_of(cursor, alloc, depth, at)?;
    let (more, at) = more_locals_of(cursor, alloc, depth, at)?;
    Ok((Locals { first, more }, at))
}

/// A declaration of local variables, without its semicolon.
#[tactic(auto, unfolding(c_reading::specs::ReadDecl::decl_at))]
fn decl_of(
    cursor: &Cursor<'_>,
    alloc: Global,
    depth: u32,
    at: usize,
) -> Result<(Decl, usize), ReadFault>
    ensures { Gives decl_view cursor.now.tokens result (decl_at 200 depth (drop at cursor.now.tokens)) }
{
    if cursor.is_word(Word::Int, at) {
        let (int, at) = cursor.word(Word::Int, at)?;
        let (locals, at) = locals_of(cursor, alloc, depth, at)?;
        let Locals { first, more } = locals;
        return Ok((
            Decl::Ints {
                at: int,
                first,
                more,
            },
            at,
        ));
    }
    let (thread, at) = cursor.word(Word::Thread, at)?;
    let (first, at) = hold_of(cursor, alloc, at)?;
    let (more, at) = more_holds_of(cursor, alloc, at)?;
    Ok((
        Decl::Holds {
            at: thread,
            first,
            more,
        },
        at,
    ))
}

/// A declaration of local variables, without its semicolon, in a box.
pub(crate) fn boxed_decl_of(
    cursor: &Cursor<'_>,
    alloc: Global,
    depth: u32,
    at: usize,
) -> Result<(Boxed<Decl>, usize), ReadFault>
    ensures { Gives decl_view cursor.now.tokens result (decl_at 200 depth (drop at cursor.now.tokens)) }
{
    let (decl, at) = decl_of(cursor, alloc, depth, at)?;
    Ok((Boxed::new(alloc, decl)?, at))
}

/// A declarator in the first part of a `for`.
#[tactic(auto, unfolding(c_reading::specs::ReadDecl::loop_int_at))]
pub(crate) fn loop_int_of(
    cursor: &Cursor<'_>,
    alloc: Global,
    depth: u32,
    at: usize,
) -> Result<(LoopInt, usize), ReadFault>
    ensures { Gives loop_int_view cursor.now.tokens result (loop_int_at 200 depth (drop at cursor.now.tokens)) }
{
    let (name, at) = cursor.ident(alloc, at)?;
    if !cursor.is_sign(Sign::Assign, at) {
        return Ok((LoopInt::OneLoop(name), at));
    }
    let (set, at) = cursor.sign(Sign::Assign, at)?;
    let (value, at) = expr(cursor, alloc, depth, at)?;
    Ok((
        LoopInt::SetLoop {
            name,
            at: set,
            value,
        },
        at,
    ))
}

fn next_loop_int_of(
    cursor: &Cursor<'_>,
    alloc: Global,
    depth: u32,
    at: usize,
) -> Result<((Spot, LoopInt), usize), ReadFault>
    ensures { Gives next_loop_int_view cursor.now.tokens result (next_loop_int depth (drop at cursor.now.tokens)) }
{
    let (comma, at) = cursor.sign(Sign::Comma, at)?;
    let (int, at) = loop_int_of(cursor, alloc, depth, at)?;
    Ok(((comma, int), at))
}

pub(crate) fn more_loop_ints_of(
    cursor: &Cursor<'_>,
    alloc: Global,
    depth: u32,
    at: usize,
) -> Result<(List<(Spot, LoopInt)>, usize), ReadFault>
    ensures { Gives more_loop_ints_view cursor.now.tokens result (commas (loop_int_at 200 depth) (drop at cursor.now.tokens)) }
{
    let mut more = List::new(alloc);
    let mut place = at;
    'ints: for _ in 0..cursor.left(at) {
        if !cursor.is_sign(Sign::Comma, place) {
            return Ok((more, place));
        }
        let (next, after) = next_loop_int_of(cursor, alloc, depth, place)?;
        more.push(next)?;
        place = after;
    }
    Ok((more, place))
}
