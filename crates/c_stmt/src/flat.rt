//! Statements with no other statement in them.
ghost use Rattle.std.specs.Prelude.{◌≡◌, IfOk, drop};
ghost use Rattle.c_reading.specs.ReadSimple.{simple_at};
ghost use Rattle.c_grammar.specs.Stmt.{Jumps};
ghost use Rattle.c_raw.specs.Simples.{simple_view};
ghost use Rattle.c_raw.specs.Stmts.{stmt_view, jump_view};
ghost use Rattle.c_cursor.specs.Gives.{Gives};
ghost use Rattle.c_stmt.specs.Stmts.{simply_at, flat_at};

use crate::jump::jump_of;
use crate::test::begins_jump;
use c_cursor::{Cursor, ReadFault};
use c_expr::{ops, simple};
use c_grammar::Sign;
use c_raw::{Jump, Simple, Stmt};
use sqlite_items::Boxed;
use std::alloc::{AllocError, Global};

/// The statement that is this jump.
pub(crate) fn jumps(alloc: Global, jump: Jump) -> Result<Stmt, AllocError>
    ensures { IfOk result (λ stmt. stmt_view stmt ≡ Jumps (jump_view jump)) }
{
    Ok(Stmt::Jumps(Boxed::new(alloc, jump)?))
}

// A simple statement without its semicolon.
fn simple_of(
    cursor: &Cursor<'_>,
    alloc: Global,
    depth: u32,
    at: usize,
) -> Result<(Boxed<Simple>, usize), ReadFault>
    ensures { Gives simple_view cursor.now.tokens result (simple_at 200 depth (drop at cursor.now.tokens)) }
{
    let (simple, at) = simple(cursor, alloc, depth, at)?;
    Ok((Boxed::new(alloc, simple)?, at))
}

/// A simple statement with the operations behind it.
#[tactic(auto, unfolding(crate::specs::Stmts::simply_at))]
fn simply_of(
    cursor: &Cursor<'_>,
    alloc: Global,
    depth: u32,
    at: usize,
) -> Result<(Stmt, usize), ReadFault>
    ensures { Gives stmt_view cursor.now.tokens result (simply_at depth (drop at cursor.now.tokens)) }
{
    let (simple, at) = simple_of(cursor, alloc, depth, at)?;
    let (end, at) = cursor.sign(Sign::Semicolon, at)?;
    let (ops, at) = ops(cursor, alloc, at)?;
    Ok((Stmt::Simply { simple, end, ops }, at))
}

/// A statement with no other one in it.
#[tactic(auto, unfolding(crate::specs::Stmts::flat_at))]
pub(crate) fn flat_of(
    cursor: &Cursor<'_>,
    alloc: Global,
    depth: u32,
    at: usize,
) -> Result<(Stmt, usize), ReadFault>
    ensures { Gives stmt_view cursor.now.tokens result (flat_at depth (drop at cursor.now.tokens)) }
{
    if cursor.is_sign(Sign::Semicolon, at) {
        let (end, at) = cursor.sign(Sign::Semicolon, at)?;
        return Ok((Stmt::Nothing(end), at));
    }
    if begins_jump(cursor, at) {
        let (jump, at) = jump_of(cursor, alloc, depth, at)?;
        return Ok((jumps(alloc, jump)?, at));
    }
    let (stmt, at) = simply_of(cursor, alloc, depth, at)?;
    Ok((stmt, at))
}
