//! Jumps (6.8.6 of ISO/IEC 9899:2011).
ghost use Rattle.std.specs.Prelude.{drop};
ghost use Rattle.c_raw.specs.Stmts.{bare_view, bare_block_view, value_block_view, jump_view};
ghost use Rattle.c_reading.specs.ReadStmt.{read_bare};
ghost use Rattle.c_cursor.specs.Gives.{Gives};
ghost use Rattle.c_stmt.specs.Jumps.{jump_at, return_from, bare_block_from, set_value_view, set_value_at, return_value_view, return_value, value_block_from};

use c_cursor::{Cursor, ReadFault};
use c_expr::{op, ops, value};
use c_grammar::{Sign, Word};
use c_raw::{Bare, BareBlock, Jump, Op, Value, ValueBlock};
use cfix_base::{List, Spot};
use std::alloc::Global;

/// A jump without a value and without its semicolon.
pub(crate) fn bare_of(cursor: &Cursor<'_>, at: usize) -> Result<(Bare, usize), ReadFault>
    ensures { Gives bare_view cursor.now.tokens result (read_bare (drop at cursor.now.tokens)) }
{
    if cursor.is_word(Word::Break, at) {
        let (word, at) = cursor.word(Word::Break, at)?;
        return Ok((Bare::Break(word), at));
    }
    if cursor.is_word(Word::Continue, at) {
        let (word, at) = cursor.word(Word::Continue, at)?;
        return Ok((Bare::Continue(word), at));
    }
    let (word, at) = cursor.word(Word::Return, at)?;
    if !cursor.is_word(Word::Null, at) {
        return Ok((Bare::Return(word), at));
    }
    let (null, at) = cursor.word(Word::Null, at)?;
    Ok((Bare::ReturnNull { at: word, null }, at))
}

/// A `return` behind its word.
#[tactic(auto, unfolding(crate::specs::Jumps::return_from))]
fn return_of(
    cursor: &Cursor<'_>,
    alloc: Global,
    depth: u32,
    word: Spot,
    at: usize,
) -> Result<(Jump, usize), ReadFault>
    ensures { Gives jump_view cursor.now.tokens result (return_from depth word (drop at cursor.now.tokens)) }
{
    if cursor.is_word(Word::Null, at) {
        let (null, at) = cursor.word(Word::Null, at)?;
        let (end, at) = cursor.sign(Sign::Semicolon, at)?;
        let bare = Bare::ReturnNull { at: word, null };
        return Ok((Jump::Bare { bare, end }, at));
    }
    if cursor.is_sign(Sign::Semicolon, at) {
        let (end, at) = cursor.sign(Sign::Semicolon, at)?;
        let bare = Bare::Return(word);
        return Ok((Jump::Bare { bare, end }, at));
    }
    let (value, next) = value(cursor, alloc, depth, at)?;
    let (end, next) = cursor.sign(Sign::Semicolon, next)?;
    let at = word;
    Ok((Jump::ReturnValue { at, value, end }, next))
}

/// A jump that is no block.
#[tactic(auto, unfolding(crate::specs::Jumps::jump_at, crate::specs::Jumps::return_from))]
pub(crate) fn jump_of(
    cursor: &Cursor<'_>,
    alloc: Global,
    depth: u32,
    at: usize,
) -> Result<(Jump, usize), ReadFault>
    ensures { Gives jump_view cursor.now.tokens result (jump_at depth (drop at cursor.now.tokens)) }
{
    if cursor.is_word(Word::Break, at) {
        let (word, at) = cursor.word(Word::Break, at)?;
        let (end, at) = cursor.sign(Sign::Semicolon, at)?;
        let bare = Bare::Break(word);
        return Ok((Jump::Bare { bare, end }, at));
    }
    if cursor.is_word(Word::Continue, at) {
        let (word, at) = cursor.word(Word::Continue, at)?;
        let (end, at) = cursor.sign(Sign::Semicolon, at)?;
        let bare = Bare::Continue(word);
        return Ok((Jump::Bare { bare, end }, at));
    }
    let (word, at) = cursor.word(Word::Return, at)?;
    let (jump, at) = return_of(cursor, alloc, depth, word, at)?;
    Ok((jump, at))
}

/// `{ cfix_leave(1); break; }`
#[tactic(auto, unfolding(crate::specs::Jumps::bare_block_from))]
pub(crate) fn bare_block_of(
    cursor: &Cursor<'_>,
    alloc: Global,
    before: Spot,
    at: usize,
) -> Result<(BareBlock, usize), ReadFault>
    ensures { Gives bare_block_view cursor.now.tokens result (bare_block_from before (drop at cursor.now.tokens)) }
{
    let (first, at) = op(cursor, at)?;
    let (first_end, at) = cursor.sign(Sign::Semicolon, at)?;
    let (ops, at) = ops(cursor, alloc, at)?;
    let (bare, at) = bare_of(cursor, at)?;
    let (end, at) = cursor.sign(Sign::Semicolon, at)?;
    let (after, at) = cursor.sign(Sign::CloseBrace, at)?;
    Ok((
        BareBlock {
            before,
            first,
            first_end,
            ops,
            bare,
            end,
            after,
        },
        at,
    ))
}

/// `cfix_value = value;`
#[derive(Drop)]
struct SetValue {
    name: Spot,
    set: Spot,
    value: Value,
    end: Spot,
}

fn set_value_of(
    cursor: &Cursor<'_>,
    alloc: Global,
    depth: u32,
    at: usize,
) -> Result<(SetValue, usize), ReadFault>
    ensures { Gives set_value_view cursor.now.tokens result (set_value_at depth (drop at cursor.now.tokens)) }
{
    let (name, at) = cursor.word(Word::Value, at)?;
    let (set, at) = cursor.sign(Sign::Assign, at)?;
    let (value, at) = value(cursor, alloc, depth, at)?;
    let (end, at) = cursor.sign(Sign::Semicolon, at)?;
    Ok((
        SetValue {
            name,
            set,
            value,
            end,
        },
        at,
    ))
}

/// `cfix_leave(1); return cfix_value; }`
#[derive(Drop)]
struct ReturnValue {
    first: Op,
    first_end: Spot,
    ops: List<(Op, Spot)>,
    at: Spot,
    returned: Spot,
    end: Spot,
    after: Spot,
}

fn return_value_of(
    cursor: &Cursor<'_>,
    alloc: Global,
    at: usize,
) -> Result<(ReturnValue, usize), ReadFault>
    ensures { Gives return_value_view cursor.now.tokens result (return_value (drop at cursor.now.tokens)) }
{
    let (first, at) = op(cursor, at)?;
    let (first_end, at) = cursor.sign(Sign::Semicolon, at)?;
    let (ops, at) = ops(cursor, alloc, at)?;
    let (word, at) = cursor.word(Word::Return, at)?;
    let (returned, at) = cursor.word(Word::Value, at)?;
    let (end, at) = cursor.sign(Sign::Semicolon, at)?;
    let (after, at) = cursor.sign(Sign::CloseBrace, at)?;
    Ok((
        ReturnValue {
            first,
            first_end,
            ops,
            at: word,
            returned,
            end,
            after,
        },
        at,
    ))
}

/// `{ int cfix_value = value; cfix_leave(1); return cfix_value; }`, behind the `int`.
#[tactic(auto, unfolding(crate::specs::Jumps::value_block_from))]
pub(crate) fn value_block_of(
    cursor: &Cursor<'_>,
    alloc: Global,
    depth: u32,
    before: Spot,
    int: Spot,
    at: usize,
) -> Result<(ValueBlock, usize), ReadFault>
    ensures { Gives value_block_view cursor.now.tokens result (value_block_from depth before int (drop at cursor.now.tokens)) }
{
    let (start, at) = set_value_of(cursor, alloc, depth, at)?;
    let (tail, at) = return_value_of(cursor, alloc, at)?;
    Ok((
        ValueBlock {
            before,
            int,
            name: start.name,
            set: start.set,
            value: start.value,
            value_end: start.end,
            first: tail.first,
            first_end: tail.first_end,
            ops: tail.ops,
            at: tail.at,
            returned: tail.returned,
            end: tail.end,
            after: tail.after,
        },
        at,
    ))
}
