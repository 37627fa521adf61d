//! Heads of functions, and what stands behind them (6.9.1 of ISO/IEC 9899:2011).
ghost use Rattle.std.specs.Prelude.{◌≡◌, drop, IfOk};
ghost use Rattle.c_reading.specs.Reader.{maybe_read};
ghost use Rattle.c_reading.specs.Read.{is_name, read_ident, commas};
ghost use Rattle.c_reading.specs.ReadFile.{read_param, read_params, head_end_at, head_tail_at, thread_head_at, with_end};
ghost use Rattle.c_raw.specs.Files.{name_view, param_view, more_params_view, params_view, head_view, top_view};
ghost use Rattle.c_cursor.specs.Gives.{Gives};
ghost use Rattle.c_parse.specs.Heads.{next_param_view, next_param, head_end_view, head_tail_view, thread_head_view};

use c_cursor::{Cursor, ReadFault};
use c_expr::ops;
use c_grammar::{Sign, Word};
use c_raw::{Function, Head, Ident, Item, Op, Param, Params, Top};
use c_stmt::items_of;
use cfix_base::{List, MAX_DEPTH, Spot};
use sqlite_items::{Boxed, Items};
use std::alloc::{AllocError, Global};

fn name_of(
    cursor: &Cursor<'_>,
    alloc: Global,
    at: usize,
) -> Result<(Option<Ident>, usize), ReadFault>
    ensures { Gives name_view cursor.now.tokens result (maybe_read is_name read_ident (drop at cursor.now.tokens)) }
{
    if !cursor.is_name(at) {
        return Ok((None, at));
    }
    let (name, at) = cursor.ident(alloc, at)?;
    Ok((Some(name), at))
}

fn param_of(cursor: &Cursor<'_>, alloc: Global, at: usize) -> Result<(Param, usize), ReadFault>
    ensures { Gives param_view cursor.now.tokens result (read_param (drop at cursor.now.tokens)) }
{
    let (int, at) = cursor.word(Word::Int, at)?;
    let (name, at) = name_of(cursor, alloc, at)?;
    Ok((Param { at: int, name }, at))
}

fn next_param_of(
    cursor: &Cursor<'_>,
    alloc: Global,
    at: usize,
) -> Result<((Spot, Param), usize), ReadFault>
    ensures { Gives next_param_view cursor.now.tokens result (next_param (drop at cursor.now.tokens)) }
{
    let (comma, at) = cursor.sign(Sign::Comma, at)?;
    let (param, at) = param_of(cursor, alloc, at)?;
    Ok(((comma, param), at))
}

fn more_params_of(
    cursor: &Cursor<'_>,
    alloc: Global,
    at: usize,
) -> Result<(List<(Spot, Param)>, usize), ReadFault>
    ensures { Gives more_params_view cursor.now.tokens result (commas read_param (drop at cursor.now.tokens)) }
{
    let mut more = List::new(alloc);
    let mut place = at;
    'params: for _ in 0..cursor.left(at) {
        if !cursor.is_sign(Sign::Comma, place) {
            return Ok((more, place));
        }
        let (next, after) = next_param_of(cursor, alloc, place)?;
        more.push(next)?;
        place = after;
    }
    Ok((more, place))
}

fn params_of(cursor: &Cursor<'_>, alloc: Global, at: usize) -> Result<(Params, usize), ReadFault>
    ensures { Gives params_view cursor.now.tokens result (read_params (drop at cursor.now.tokens)) }
{
    if cursor.is_word(Word::Void, at) {
        let (void, at) = cursor.word(Word::Void, at)?;
        return Ok((Params::VoidParams(void), at));
    }
    if !cursor.is_word(Word::Int, at) {
        return Ok((Params::NoParams, at));
    }
    let (first, at) = param_of(cursor, alloc, at)?;
    let (more, at) = more_params_of(cursor, alloc, at)?;
    Ok((Params::SomeParams { first, more }, at))
}

/// The braces of a function with what stands in them.
#[derive(Drop)]
pub(crate) struct Body {
    pub before: Spot,
    pub ops: List<(Op, Spot)>,
    pub items: Items<Item>,
    pub after: Spot,
}

/// The semicolon of a prototype, or a body.
#[derive(Drop)]
pub(crate) enum HeadEnd {
    Prototype(Spot),
    Body(Body),
}

#[tactic(auto, unfolding(c_stmt::specs::Stmts::items_at))]
fn head_end_of(cursor: &Cursor<'_>, alloc: Global, at: usize) -> Result<(HeadEnd, usize), ReadFault>
    ensures { Gives head_end_view cursor.now.tokens result (head_end_at 200 (drop at cursor.now.tokens)) }
{
    if cursor.is_sign(Sign::Semicolon, at) {
        let (end, at) = cursor.sign(Sign::Semicolon, at)?;
        return Ok((HeadEnd::Prototype(end), at));
    }
    let (before, at) = cursor.sign(Sign::OpenBrace, at)?;
    let (ops, at) = ops(cursor, alloc, at)?;
    let (items, at) = items_of(cursor, alloc, MAX_DEPTH, at)?;
    let (after, at) = cursor.sign(Sign::CloseBrace, at)?;
    let body = Body {
        before,
        ops,
        items,
        after,
    };
    Ok((HeadEnd::Body(body), at))
}

/// What stands behind the name of a function.
#[derive(Drop)]
pub(crate) struct HeadTail {
    pub before: Spot,
    pub params: Params,
    pub after: Spot,
    pub end: HeadEnd,
}

/// What stands behind the name of a function.
pub(crate) fn head_tail_of(
    cursor: &Cursor<'_>,
    alloc: Global,
    at: usize,
) -> Result<(HeadTail, usize), ReadFault>
    ensures { Gives head_tail_view cursor.now.tokens result (head_tail_at 200 (drop at cursor.now.tokens)) }
{
    let (before, at) = cursor.sign(Sign::OpenParen, at)?;
    let (params, at) = params_of(cursor, alloc, at)?;
    let (after, at) = cursor.sign(Sign::CloseParen, at)?;
    let (end, at) = head_end_of(cursor, alloc, at)?;
    Ok((
        HeadTail {
            before,
            params,
            after,
            end,
        },
        at,
    ))
}

/// A thread function behind its `void`.
#[derive(Drop)]
pub(crate) struct ThreadHead {
    pub star: Spot,
    pub name: Ident,
    pub before: Spot,
    pub void: Spot,
    pub param_star: Spot,
    pub param: Option<Ident>,
    pub after: Spot,
    pub end: HeadEnd,
}

/// A thread function behind its `void`.
pub(crate) fn thread_head_of(
    cursor: &Cursor<'_>,
    alloc: Global,
    at: usize,
) -> Result<(ThreadHead, usize), ReadFault>
    ensures { Gives thread_head_view cursor.now.tokens result (thread_head_at 200 (drop at cursor.now.tokens)) }
{
    let (star, at) = cursor.sign(Sign::Star, at)?;
    let (name, at) = cursor.ident(alloc, at)?;
    let (before, at) = cursor.sign(Sign::OpenParen, at)?;
    let (void, at) = cursor.word(Word::Void, at)?;
    let (param_star, at) = cursor.sign(Sign::Star, at)?;
    let (param, at) = name_of(cursor, alloc, at)?;
    let (after, at) = cursor.sign(Sign::CloseParen, at)?;
    let (end, at) = head_end_of(cursor, alloc, at)?;
    Ok((
        ThreadHead {
            star,
            name,
            before,
            void,
            param_star,
            param,
            after,
            end,
        },
        at,
    ))
}

/// A prototype or a function.
pub(crate) fn ended(alloc: Global, head: Head, end: HeadEnd) -> Result<Top, AllocError>
    ensures { IfOk result (λ t. top_view t ≡ with_end (head_view head) (head_end_view end)) }
{
    match end {
        HeadEnd::Prototype(end) => {
            let head = Boxed::new(alloc, head)?;
            Ok(Top::Prototype { head, end })
        }
        HeadEnd::Body(body) => {
            let Body {
                before,
                ops,
                items,
                after,
            } = body;
            let function = Function {
                head,
                before,
                ops,
                items,
                after,
            };
            Ok(Top::Function(Boxed::new(alloc, function)?))
        }
    }
}
