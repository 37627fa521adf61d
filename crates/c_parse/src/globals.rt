//! Declarations of global variables (6.7 of ISO/IEC 9899:2011).
ghost use Rattle.std.specs.Prelude.{◌≡◌, drop};
ghost use Rattle.c_reading.specs.Reader.{maybe_read};
ghost use Rattle.c_reading.specs.Read.{is_sign, read_sign, commas};
ghost use Rattle.c_grammar.specs.declared.sign.Sign.TheVariants as s;
ghost use Rattle.c_reading.specs.ReadDecl.{global_int_from, read_global_tail, read_global_int, read_global_mutex, read_global_cond};
ghost use Rattle.c_reading.specs.ReadFile.{read_globals_tail};
ghost use Rattle.c_raw.specs.Tokens.{ident_view};
ghost use Rattle.c_raw.specs.Decls.{global_int_view, more_global_ints_view, global_mutex_view, more_global_mutexes_view, global_cond_view, more_global_conds_view};
ghost use Rattle.c_cursor.specs.Gives.{Gives};
ghost use Rattle.c_parse.specs.Globals.{declared_view, next_int_view, next_int, next_mutex_view, next_mutex, next_cond_view, next_cond, ints_tail_view, globals_view_of, read_holds_at, read_mutexes_at, read_conds_at};

use c_cursor::{Cursor, ReadFault};
use c_grammar::{Sign, Word};
use c_raw::{GlobalCond, GlobalInt, GlobalMutex, Globals, Ident, Size};
use c_stmt::{Length, hold_of, length_of, more_holds_of, size_of};
use cfix_base::{List, Spot};
use std::alloc::Global;

/// What stands behind the name of a global `int`.
#[derive(Drop)]
pub(crate) enum Declared {
    Nothing,
    Set {
        at: Spot,
        minus: Option<Spot>,
        value: Size,
    },
    Array(Length),
}

/// The declarator of this name.
pub(crate) fn global_int(name: Ident, declared: Declared) -> GlobalInt
    ensures { global_int_view result ≡ global_int_from (ident_view name, declared_view declared) }
{
    match declared {
        Declared::Nothing => GlobalInt::OneGlobal(name),
        Declared::Set { at, minus, value } => GlobalInt::SetGlobal {
            name,
            at,
            minus,
            value,
        },
        Declared::Array(length) => {
            let Length {
                before,
                size,
                after,
            } = length;
            GlobalInt::GlobalArray {
                name,
                before,
                size,
                after,
            }
        }
    }
}

fn minus_of(cursor: &Cursor<'_>, at: usize) -> Result<(Option<Spot>, usize), ReadFault>
    ensures { Gives (λ x. x) cursor.now.tokens result (maybe_read (is_sign s.Minus) (read_sign s.Minus) (drop at cursor.now.tokens)) }
{
    if !cursor.is_sign(Sign::Minus, at) {
        return Ok((None, at));
    }
    let (minus, at) = cursor.sign(Sign::Minus, at)?;
    Ok((Some(minus), at))
}

fn declared_of(
    cursor: &Cursor<'_>,
    alloc: Global,
    at: usize,
) -> Result<(Declared, usize), ReadFault>
    ensures { Gives declared_view cursor.now.tokens result (read_global_tail (drop at cursor.now.tokens)) }
{
    if cursor.is_sign(Sign::Assign, at) {
        let (set, at) = cursor.sign(Sign::Assign, at)?;
        let (minus, at) = minus_of(cursor, at)?;
        let (value, at) = size_of(cursor, alloc, at)?;
        return Ok((
            Declared::Set {
                at: set,
                minus,
                value,
            },
            at,
        ));
    }
    if !cursor.is_sign(Sign::OpenBracket, at) {
        return Ok((Declared::Nothing, at));
    }
    let (length, at) = length_of(cursor, alloc, at)?;
    Ok((Declared::Array(length), at))
}

fn next_int_of(
    cursor: &Cursor<'_>,
    alloc: Global,
    at: usize,
) -> Result<((Spot, GlobalInt), usize), ReadFault>
    ensures { Gives next_int_view cursor.now.tokens result (next_int (drop at cursor.now.tokens)) }
{
    let (comma, at) = cursor.sign(Sign::Comma, at)?;
    let (name, at) = cursor.ident(alloc, at)?;
    let (declared, at) = declared_of(cursor, alloc, at)?;
    Ok(((comma, global_int(name, declared)), at))
}

fn more_ints_of(
    cursor: &Cursor<'_>,
    alloc: Global,
    at: usize,
) -> Result<(List<(Spot, GlobalInt)>, usize), ReadFault>
    ensures { Gives more_global_ints_view cursor.now.tokens result (commas read_global_int (drop at cursor.now.tokens)) }
{
    let mut more = List::new(alloc);
    let mut place = at;
    'ints: for _ in 0..cursor.left(at) {
        if !cursor.is_sign(Sign::Comma, place) {
            return Ok((more, place));
        }
        let (next, after) = next_int_of(cursor, alloc, place)?;
        more.push(next)?;
        place = after;
    }
    Ok((more, place))
}

/// What stands behind the name of the first global `int` of a declaration.
#[derive(Drop)]
pub(crate) struct IntsTail {
    pub declared: Declared,
    pub more: List<(Spot, GlobalInt)>,
    pub end: Spot,
}

/// What stands behind the name of the first global `int`, with the semicolon.
pub(crate) fn ints_tail_of(
    cursor: &Cursor<'_>,
    alloc: Global,
    at: usize,
) -> Result<(IntsTail, usize), ReadFault>
    ensures { Gives ints_tail_view cursor.now.tokens result (read_globals_tail (drop at cursor.now.tokens)) }
{
    let (declared, at) = declared_of(cursor, alloc, at)?;
    let (more, at) = more_ints_of(cursor, alloc, at)?;
    let (end, at) = cursor.sign(Sign::Semicolon, at)?;
    Ok((
        IntsTail {
            declared,
            more,
            end,
        },
        at,
    ))
}

fn mutex_of(
    cursor: &Cursor<'_>,
    alloc: Global,
    at: usize,
) -> Result<(GlobalMutex, usize), ReadFault>
    ensures { Gives global_mutex_view cursor.now.tokens result (read_global_mutex (drop at cursor.now.tokens)) }
{
    let (name, at) = cursor.ident(alloc, at)?;
    if !cursor.is_sign(Sign::Assign, at) {
        return Ok((GlobalMutex::OneMutex(name), at));
    }
    let (set, at) = cursor.sign(Sign::Assign, at)?;
    let (value, at) = cursor.word(Word::MutexInitializer, at)?;
    Ok((
        GlobalMutex::SetMutex {
            name,
            at: set,
            value,
        },
        at,
    ))
}

fn next_mutex_of(
    cursor: &Cursor<'_>,
    alloc: Global,
    at: usize,
) -> Result<((Spot, GlobalMutex), usize), ReadFault>
    ensures { Gives next_mutex_view cursor.now.tokens result (next_mutex (drop at cursor.now.tokens)) }
{
    let (comma, at) = cursor.sign(Sign::Comma, at)?;
    let (mutex, at) = mutex_of(cursor, alloc, at)?;
    Ok(((comma, mutex), at))
}

fn more_mutexes_of(
    cursor: &Cursor<'_>,
    alloc: Global,
    at: usize,
) -> Result<(List<(Spot, GlobalMutex)>, usize), ReadFault>
    ensures { Gives more_global_mutexes_view cursor.now.tokens result (commas read_global_mutex (drop at cursor.now.tokens)) }
{
    let mut more = List::new(alloc);
    let mut place = at;
    'mutexes: for _ in 0..cursor.left(at) {
        if !cursor.is_sign(Sign::Comma, place) {
            return Ok((more, place));
        }
        let (next, after) = next_mutex_of(cursor, alloc, place)?;
        more.push(next)?;
        place = after;
    }
    Ok((more, place))
}

fn cond_of(cursor: &Cursor<'_>, alloc: Global, at: usize) -> Result<(GlobalCond, usize), ReadFault>
    ensures { Gives global_cond_view cursor.now.tokens result (read_global_cond (drop at cursor.now.tokens)) }
{
    let (name, at) = cursor.ident(alloc, at)?;
    if !cursor.is_sign(Sign::Assign, at) {
        return Ok((GlobalCond::OneCond(name), at));
    }
    let (set, at) = cursor.sign(Sign::Assign, at)?;
    let (value, at) = cursor.word(Word::CondInitializer, at)?;
    Ok((
        GlobalCond::SetCond {
            name,
            at: set,
            value,
        },
        at,
    ))
}

fn next_cond_of(
    cursor: &Cursor<'_>,
    alloc: Global,
    at: usize,
) -> Result<((Spot, GlobalCond), usize), ReadFault>
    ensures { Gives next_cond_view cursor.now.tokens result (next_cond (drop at cursor.now.tokens)) }
{
    let (comma, at) = cursor.sign(Sign::Comma, at)?;
    let (cond, at) = cond_of(cursor, alloc, at)?;
    Ok(((comma, cond), at))
}

fn more_conds_of(
    cursor: &Cursor<'_>,
    alloc: Global,
    at: usize,
) -> Result<(List<(Spot, GlobalCond)>, usize), ReadFault>
    ensures { Gives more_global_conds_view cursor.now.tokens result (commas read_global_cond (drop at cursor.now.tokens)) }
{
    let mut more = List::new(alloc);
    let mut place = at;
    'conds: for _ in 0..cursor.left(at) {
        if !cursor.is_sign(Sign::Comma, place) {
            return Ok((more, place));
        }
        let (next, after) = next_cond_of(cursor, alloc, place)?;
        more.push(next)?;
        place = after;
    }
    Ok((more, place))
}

/// Global threads, with the semicolon.
pub(crate) fn holds_of(
    cursor: &Cursor<'_>,
    alloc: Global,
    at: usize,
) -> Result<((Globals, Spot), usize), ReadFault>
    ensures { Gives globals_view_of cursor.now.tokens result (read_holds_at (drop at cursor.now.tokens)) }
{
    let (word, at) = cursor.word(Word::Thread, at)?;
    let (first, at) = hold_of(cursor, alloc, at)?;
    let (more, at) = more_holds_of(cursor, alloc, at)?;
    let (end, at) = cursor.sign(Sign::Semicolon, at)?;
    let globals = Globals::Holds {
        at: word,
        first,
        more,
    };
    Ok(((globals, end), at))
}

/// Global mutexes, with the semicolon.
pub(crate) fn mutexes_of(
    cursor: &Cursor<'_>,
    alloc: Global,
    at: usize,
) -> Result<((Globals, Spot), usize), ReadFault>
    ensures { Gives globals_view_of cursor.now.tokens result (read_mutexes_at (drop at cursor.now.tokens)) }
{
    let (word, at) = cursor.word(Word::Mutex, at)?;
    let (first, at) = mutex_of(cursor, alloc, at)?;
    let (more, at) = more_mutexes_of(cursor, alloc, at)?;
    let (end, at) = cursor.sign(Sign::Semicolon, at)?;
    let globals = Globals::Mutexes {
        at: word,
        first,
        more,
    };
    Ok(((globals, end), at))
}

/// Global condition variables, with the semicolon.
pub(crate) fn conds_of(
    cursor: &Cursor<'_>,
    alloc: Global,
    at: usize,
) -> Result<((Globals, Spot), usize), ReadFault>
    ensures { Gives globals_view_of cursor.now.tokens result (read_conds_at (drop at cursor.now.tokens)) }
{
    let (word, at) = cursor.word(Word::Cond, at)?;
    let (first, at) = cond_of(cursor, alloc, at)?;
    let (more, at) = more_conds_of(cursor, alloc, at)?;
    let (end, at) = cursor.sign(Sign::Semicolon, at)?;
    let globals = Globals::Conds {
        at: word,
        first,
        more,
    };
    Ok(((globals, end), at))
}
