//! Statements (6.8 of ISO/IEC 9899:2011).
ghost use Rattle.std.specs.Prelude.{drop};
ghost use Rattle.c_reading.specs.ReadStmt.{stmt_at};
ghost use Rattle.c_raw.specs.Stmts.{stmt_view};
ghost use Rattle.c_cursor.specs.Gives.{Gives};
ghost use Rattle.c_stmt.specs.Stmts.{test_view, test_at, if_at, while_at, for_at};

use crate::block::brace_of;
use crate::choice::{choice, choice_else};
use crate::cond::cond_of;
use crate::flat::flat_of;
use crate::looping::{cond_part_of, first_part_of, step_part_of};
use c_cursor::{Cursor, ReadFault};
use c_grammar::{Sign, Word};
use c_raw::{LoopHead, Stmt, Test};
use sqlite_items::Boxed;
use std::alloc::Global;

/// `if (cond)` or `while (cond)`.
fn test_of(
    cursor: &Cursor<'_>,
    alloc: Global,
    depth: u32,
    word: Word,
    at: usize,
) -> Result<(Boxed<Test>, usize), ReadFault>
    ensures { Gives test_view cursor.now.tokens result (test_at word depth (drop at cursor.now.tokens)) }
{
    let (word, at) = cursor.word(word, at)?;
    let (before, at) = cursor.sign(Sign::OpenParen, at)?;
    let (cond, at) = cond_of(cursor, alloc, depth, at)?;
    let (after, at) = cursor.sign(Sign::CloseParen, at)?;
    let test = Test {
        at: word,
        before,
        cond,
        after,
    };
    Ok((Boxed::new(alloc, test)?, at))
}

/// An `if` with its `else`, where it has one.
#[cycle(statement)]
#[tactic(auto, unfolding(crate::specs::Stmts::if_at))]
fn if_of(
    cursor: &Cursor<'_>,
    alloc: Global,
    depth: u32,
    at: usize,
) -> Result<(Stmt, usize), ReadFault>
    ensures { Gives stmt_view cursor.now.tokens result (if_at depth (drop at cursor.now.tokens)) }
{
    let (test, at) = test_of(cursor, alloc, depth, Word::If, at)?;
    let (then, at) = stmt_of(cursor, alloc, depth, at)?;
    if !cursor.is_word(Word::Else, at) {
        return Ok((choice(alloc, test, then)?, at));
    }
    let (word, at) = cursor.word(Word::Else, at)?;
    let (body, at) = stmt_of(cursor, alloc, depth, at)?;
    Ok((choice_else(alloc, test, then, word, body)?, at))
}

/// A `while`.
#[cycle(statement)]
#[tactic(auto, unfolding(crate::specs::Stmts::while_at))]
fn while_of(
    cursor: &Cursor<'_>,
    alloc: Global,
    depth: u32,
    at: usize,
) -> Result<(Stmt, usize), ReadFault>
    ensures { Gives stmt_view cursor.now.tokens result (while_at depth (drop at cursor.now.tokens)) }
{
    let (test, at) = test_of(cursor, alloc, depth, Word::While, at)?;
    let (body, at) = stmt_of(cursor, alloc, depth, at)?;
    let body = Boxed::new(alloc, body)?;
    Ok((Stmt::While { test, body }, at))
}

/// A `for`.
#[cycle(statement)]
#[tactic(auto, unfolding(crate::specs::Stmts::for_at))]
fn for_of(
    cursor: &Cursor<'_>,
    alloc: Global,
    depth: u32,
    at: usize,
) -> Result<(Stmt, usize), ReadFault>
    ensures { Gives stmt_view cursor.now.tokens result (for_at depth (drop at cursor.now.tokens)) }
{
    let (word, at) = cursor.word(Word::For, at)?;
    let (before, at) = cursor.sign(Sign::OpenParen, at)?;
    let (first, at) = first_part_of(cursor, alloc, depth, at)?;
    let (first_end, at) = cursor.sign(Sign::Semicolon, at)?;
    let (cond, at) = cond_part_of(cursor, alloc, depth, at)?;
    let (cond_end, at) = cursor.sign(Sign::Semicolon, at)?;
    let (step, at) = step_part_of(cursor, alloc, depth, at)?;
    let (after, at) = cursor.sign(Sign::CloseParen, at)?;
    let (body, at) = stmt_of(cursor, alloc, depth, at)?;
    let head = LoopHead {
        at: word,
        before,
        first,
        first_end,
        cond,
        cond_end,
        step,
        after,
    };
    let head = Boxed::new(alloc, head)?;
    let body = Boxed::new(alloc, body)?;
    Ok((Stmt::For { head, body }, at))
}

/// A statement.
#[cycle(statement)]
pub fn stmt_of(
    cursor: &Cursor<'_>,
    alloc: Global,
    depth: u32,
    at: usize,
) -> Result<(Stmt, usize), ReadFault>
    ensures { Gives stmt_view cursor.now.tokens result (stmt_at 200 depth (drop at cursor.now.tokens)) }
{
    if cursor.is_sign(Sign::OpenBrace, at) {
        if depth == 0 {
            return Err(ReadFault::Deep(at));
        }
        brace_of(cursor, alloc, depth - 1, at)
    } else if cursor.is_word(Word::If, at) {
        if depth == 0 {
            return Err(ReadFault::Deep(at));
        }
        if_of(cursor, alloc, depth - 1, at)
    } else if cursor.is_word(Word::While, at) {
        if depth == 0 {
            return Err(ReadFault::Deep(at));
        }
        while_of(cursor, alloc, depth - 1, at)
    } else if cursor.is_word(Word::For, at) {
        if depth < 2 {
            return Err(ReadFault::Deep(at));
        }
        for_of(cursor, alloc, depth - 2, at)
    } else {
        flat_of(cursor, alloc, depth, at)
    }
}
