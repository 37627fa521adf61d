//! The calls of the headers.

ghost use Rattle.std.specs.Prelude.{◌≡◌, drop};
ghost use Rattle.c_reading.specs.ReadSimple.{cast_tail_at, cast_unary_at, cast_arg_at, thread_arg_at, create_at, join_at, lock_tail, print_at, scan_at, wait_at, library_at};
ghost use Rattle.c_reading.specs.Reader.{map_out, seq};
ghost use Rattle.c_reading.specs.Read.{read_word};
ghost use Rattle.c_grammar.specs.declared.word.Word.TheVariants as w;
ghost use Rattle.c_raw.specs.Simples.{thread_arg_view, create_view, library_view};
ghost use Rattle.c_cursor.specs.Gives.{Gives};
ghost use Rattle.c_expr.specs.Calls.{cast_view, cast_in, arg_from, create_from, join_from, lock_from, unlock_from, print_from, scan_from, wait_from, signal_from, broadcast_from, condition_at};

use crate::arguments::more_exprs;
use crate::expressions::{inside, unary};
use crate::targets::target;
use c_cursor::{Cursor, ReadFault};
use c_grammar::{Sign, Word};
use c_raw::{Create, Expr, Library, Long, ThreadArg};
use cfix_base::{MAX_DEPTH, Spot};
use sqlite_items::Boxed;
use std::alloc::Global;

/// What is cast to `void *`, with or without `(long)` before it.
#[derive(Drop)]
struct CastValue {
    long: Option<Long>,
    value: Expr,
}

// What begins with a parenthesis behind `(void *)`.
fn cast_tail(
    cursor: &Cursor<'_>,
    alloc: Global,
    depth: u32,
    at: usize,
) -> Result<(CastValue, usize), ReadFault>
    ensures { Gives cast_view cursor.now.tokens result (map_out cast_in (cast_tail_at 200 depth (drop at cursor.now.tokens))) }
{
    if !cursor.is_sign(Sign::OpenParen, at) {
        return Err(ReadFault::Unexpected(at));
    }
    if depth == 0 {
        return Err(ReadFault::Deep(at));
    }
    let (before, at) = cursor.sign(Sign::OpenParen, at)?;
    if !cursor.is_word(Word::Long, at) {
        let (operand, at) = inside(cursor, alloc, depth - 1, MAX_DEPTH, before, at)?;
        let value = operand.expr;
        return Ok((CastValue { long: None, value }, at));
    }
    let (word, at) = cursor.word(Word::Long, at)?;
    let (after, at) = cursor.sign(Sign::CloseParen, at)?;
    let (operand, at) = unary(cursor, alloc, depth, MAX_DEPTH, at)?;
    let long = Some(Long {
        before,
        word,
        after,
    });
    let value = operand.expr;
    Ok((CastValue { long, value }, at))
}

// What stands behind `(void *)`.
fn cast_value(
    cursor: &Cursor<'_>,
    alloc: Global,
    depth: u32,
    at: usize,
) -> Result<(CastValue, usize), ReadFault>
    ensures { Gives cast_view cursor.now.tokens result (cast_unary_at 200 depth (drop at cursor.now.tokens)) }
{
    if cursor.is_sign(Sign::OpenParen, at) {
        return cast_tail(cursor, alloc, depth, at);
    }
    let (operand, at) = unary(cursor, alloc, depth, MAX_DEPTH, at)?;
    let value = operand.expr;
    Ok((CastValue { long: None, value }, at))
}

// An argument that is cast to `void *`.
fn cast_arg(
    cursor: &Cursor<'_>,
    alloc: Global,
    depth: u32,
    at: usize,
) -> Result<(ThreadArg, usize), ReadFault>
    ensures { Gives thread_arg_view cursor.now.tokens result (map_out arg_from (cast_arg_at 200 depth (drop at cursor.now.tokens))) }
{
    if !cursor.is_sign(Sign::OpenParen, at) {
        return Err(ReadFault::Unexpected(at));
    }
    if depth == 0 {
        return Err(ReadFault::Deep(at));
    }
    let (before, at) = cursor.sign(Sign::OpenParen, at)?;
    let (void, at) = cursor.word(Word::Void, at)?;
    let (star, at) = cursor.sign(Sign::Star, at)?;
    let (after, at) = cursor.sign(Sign::CloseParen, at)?;
    let (inner, at) = cast_value(cursor, alloc, depth, at)?;
    let CastValue { long, value } = inner;
    Ok((
        ThreadArg::Cast {
            before,
            void,
            star,
            after,
            long,
            arg: value,
        },
        at,
    ))
}

// The argument of a new thread.
fn thread_arg(
    cursor: &Cursor<'_>,
    alloc: Global,
    depth: u32,
    at: usize,
) -> Result<(ThreadArg, usize), ReadFault>
    ensures { Gives thread_arg_view cursor.now.tokens result (thread_arg_at 200 depth (drop at cursor.now.tokens)) }
{
    if cursor.is_word(Word::Null, at) {
        let (null, at) = cursor.word(Word::Null, at)?;
        return Ok((ThreadArg::Null(null), at));
    }
    cast_arg(cursor, alloc, depth, at)
}

fn create(
    cursor: &Cursor<'_>,
    alloc: Global,
    depth: u32,
    at: usize,
) -> Result<(Create, usize), ReadFault>
    ensures { Gives create_view cursor.now.tokens result (map_out create_from (create_at 200 depth (drop at cursor.now.tokens))) }
{
    let (word, at) = cursor.word(Word::Create, at)?;
    let (before, at) = cursor.sign(Sign::OpenParen, at)?;
    let (amp, at) = cursor.sign(Sign::Ampersand, at)?;
    let (target, at) = target(cursor, alloc, depth, at)?;
    let (first_comma, at) = cursor.sign(Sign::Comma, at)?;
    let (null, at) = cursor.word(Word::Null, at)?;
    let (second_comma, at) = cursor.sign(Sign::Comma, at)?;
    let (function, at) = cursor.ident(alloc, at)?;
    let (third_comma, at) = cursor.sign(Sign::Comma, at)?;
    let (arg, at) = thread_arg(cursor, alloc, depth, at)?;
    let (after, at) = cursor.sign(Sign::CloseParen, at)?;
    let create = Create {
        at: word,
        before,
        amp,
        target,
        first_comma,
        null,
        second_comma,
        function,
        third_comma,
        arg,
        after,
    };
    Ok((create, at))
}

fn join(
    cursor: &Cursor<'_>,
    alloc: Global,
    depth: u32,
    at: usize,
) -> Result<(Library, usize), ReadFault>
    ensures { Gives library_view cursor.now.tokens result (map_out join_from (join_at 200 depth (drop at cursor.now.tokens))) }
{
    let (word, at) = cursor.word(Word::Join, at)?;
    let (before, at) = cursor.sign(Sign::OpenParen, at)?;
    let (target, at) = target(cursor, alloc, depth, at)?;
    let (comma, at) = cursor.sign(Sign::Comma, at)?;
    let (null, at) = cursor.word(Word::Null, at)?;
    let (after, at) = cursor.sign(Sign::CloseParen, at)?;
    let join = Library::Join {
        at: word,
        before,
        target,
        comma,
        null,
        after,
    };
    Ok((join, at))
}

fn lock(cursor: &Cursor<'_>, alloc: Global, at: usize) -> Result<(Library, usize), ReadFault>
    ensures { Gives library_view cursor.now.tokens result (map_out lock_from (seq (read_word w.Lock) lock_tail (drop at cursor.now.tokens))) }
{
    let (word, at) = cursor.word(Word::Lock, at)?;
    let (before, at) = cursor.sign(Sign::OpenParen, at)?;
    let (amp, at) = cursor.sign(Sign::Ampersand, at)?;
    let (mutex, at) = cursor.ident(alloc, at)?;
    let (after, at) = cursor.sign(Sign::CloseParen, at)?;
    let lock = Library::Lock {
        at: word,
        before,
        amp,
        mutex,
        after,
    };
    Ok((lock, at))
}

fn unlock(cursor: &Cursor<'_>, alloc: Global, at: usize) -> Result<(Library, usize), ReadFault>
    ensures { Gives library_view cursor.now.tokens result (map_out unlock_from (seq (read_word w.Unlock) lock_tail (drop at cursor.now.tokens))) }
{
    let (word, at) = cursor.word(Word::Unlock, at)?;
    let (before, at) = cursor.sign(Sign::OpenParen, at)?;
    let (amp, at) = cursor.sign(Sign::Ampersand, at)?;
    let (mutex, at) = cursor.ident(alloc, at)?;
    let (after, at) = cursor.sign(Sign::CloseParen, at)?;
    let unlock = Library::Unlock {
        at: word,
        before,
        amp,
        mutex,
        after,
    };
    Ok((unlock, at))
}

fn print(
    cursor: &Cursor<'_>,
    alloc: Global,
    depth: u32,
    at: usize,
) -> Result<(Library, usize), ReadFault>
    ensures { Gives library_view cursor.now.tokens result (map_out print_from (print_at 200 depth (drop at cursor.now.tokens))) }
{
    let (word, at) = cursor.word(Word::Printf, at)?;
    let (before, at) = cursor.sign(Sign::OpenParen, at)?;
    let (text, at) = cursor.text(alloc, at)?;
    let (more, at) = more_exprs(cursor, alloc, depth, at)?;
    let (after, at) = cursor.sign(Sign::CloseParen, at)?;
    let print = Library::Print {
        at: word,
        before,
        text,
        more,
        after,
    };
    Ok((print, at))
}

fn scan(
    cursor: &Cursor<'_>,
    alloc: Global,
    depth: u32,
    at: usize,
) -> Result<(Library, usize), ReadFault>
    ensures { Gives library_view cursor.now.tokens result (map_out scan_from (scan_at 200 depth (drop at cursor.now.tokens))) }
{
    let (word, at) = cursor.word(Word::Scanf, at)?;
    let (before, at) = cursor.sign(Sign::OpenParen, at)?;
    let (text, at) = cursor.text(alloc, at)?;
    let (comma, at) = cursor.sign(Sign::Comma, at)?;
    let (amp, at) = cursor.sign(Sign::Ampersand, at)?;
    let (target, at) = target(cursor, alloc, depth, at)?;
    let (after, at) = cursor.sign(Sign::CloseParen, at)?;
    let scan = Library::Scan {
        at: word,
        before,
        text,
        comma,
        amp,
        target,
        after,
    };
    Ok((scan, at))
}

fn wait(cursor: &Cursor<'_>, alloc: Global, at: usize) -> Result<(Library, usize), ReadFault>
    ensures { Gives library_view cursor.now.tokens result (map_out wait_from (wait_at (drop at cursor.now.tokens))) }
{
    let (word, at) = cursor.word(Word::CondWait, at)?;
    let (before, at) = cursor.sign(Sign::OpenParen, at)?;
    let (cond_amp, at) = cursor.sign(Sign::Ampersand, at)?;
    let (cond, at) = cursor.ident(alloc, at)?;
    let (comma, at) = cursor.sign(Sign::Comma, at)?;
    let (mutex_amp, at) = cursor.sign(Sign::Ampersand, at)?;
    let (mutex, at) = cursor.ident(alloc, at)?;
    let (after, at) = cursor.sign(Sign::CloseParen, at)?;
    let wait = Library::Wait {
        at: word,
        before,
        cond_amp,
        cond,
        comma,
        mutex_amp,
        mutex,
        after,
    };
    Ok((wait, at))
}

fn signal(cursor: &Cursor<'_>, alloc: Global, at: usize) -> Result<(Library, usize), ReadFault>
    ensures { Gives library_view cursor.now.tokens result (map_out signal_from (seq (read_word w.Signal) lock_tail (drop at cursor.now.tokens))) }
{
    let (word, at) = cursor.word(Word::Signal, at)?;
    let (before, at) = cursor.sign(Sign::OpenParen, at)?;
    let (amp, at) = cursor.sign(Sign::Ampersand, at)?;
    let (cond, at) = cursor.ident(alloc, at)?;
    let (after, at) = cursor.sign(Sign::CloseParen, at)?;
    let signal = Library::Signal {
        at: word,
        before,
        amp,
        cond,
        after,
    };
    Ok((signal, at))
}

fn broadcast(cursor: &Cursor<'_>, alloc: Global, at: usize) -> Result<(Library, usize), ReadFault>
    ensures { Gives library_view cursor.now.tokens result (map_out broadcast_from (seq (read_word w.Broadcast) lock_tail (drop at cursor.now.tokens))) }
{
    let (word, at) = cursor.word(Word::Broadcast, at)?;
    let (before, at) = cursor.sign(Sign::OpenParen, at)?;
    let (amp, at) = cursor.sign(Sign::Ampersand, at)?;
    let (cond, at) = cursor.ident(alloc, at)?;
    let (after, at) = cursor.sign(Sign::CloseParen, at)?;
    let broadcast = Library::Broadcast {
        at: word,
        before,
        amp,
        cond,
        after,
    };
    Ok((broadcast, at))
}

// A call on a condition variable.
fn condition(cursor: &Cursor<'_>, alloc: Global, at: usize) -> Result<(Library, usize), ReadFault>
    ensures { Gives library_view cursor.now.tokens result (condition_at (drop at cursor.now.tokens)) }
{
    if cursor.is_word(Word::CondWait, at) {
        return wait(cursor, alloc, at);
    }
    if cursor.is_word(Word::Signal, at) {
        return signal(cursor, alloc, at);
    }
    broadcast(cursor, alloc, at)
}

/// A call of the headers.
pub fn library(
    cursor: &Cursor<'_>,
    alloc: Global,
    depth: u32,
    at: usize,
) -> Result<(Library, usize), ReadFault>
    ensures { Gives library_view cursor.now.tokens result (library_at 200 depth (drop at cursor.now.tokens)) }
{
    if cursor.is_word(Word::Create, at) {
        let (create, at) = create(cursor, alloc, depth, at)?;
        let boxed = Boxed::new(alloc, create)?;
        return Ok((Library::Create(boxed), at));
    }
    if cursor.is_word(Word::Join, at) {
        return join(cursor, alloc, depth, at);
    }
    if cursor.is_word(Word::Lock, at) {
        return lock(cursor, alloc, at);
    }
    if cursor.is_word(Word::Unlock, at) {
        return unlock(cursor, alloc, at);
    }
    if cursor.is_word(Word::Printf, at) {
        return print(cursor, alloc, depth, at);
    }
    if cursor.is_word(Word::Scanf, at) {
        return scan(cursor, alloc, depth, at);
    }
    condition(cursor, alloc, at)
}
