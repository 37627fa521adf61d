//! Declarations and functions of a file.
ghost use Rattle.std.specs.Prelude.{◌≡◌, drop, IfOk};
ghost use Rattle.c_grammar.specs.File.{Variables};
ghost use Rattle.c_reading.specs.ReadFile.{qualifier_of, heads_allowed, static_of, read_qualifiers, top_at};
ghost use Rattle.c_raw.specs.Tokens.{ident_view};
ghost use Rattle.c_raw.specs.Decls.{qualifiers_view, globals_view};
ghost use Rattle.c_raw.specs.Files.{returns_view, top_view};
ghost use Rattle.c_cursor.specs.Gives.{Gives};
ghost use Rattle.c_expr.specs.Finds.{Finds};
ghost use Rattle.c_parse.specs.Tops.{look_qualifier, qualifier_at_view, plain_top, ints_top, thread_top, void_from, int_from, last_from, declared_at};

use crate::directive::directive_of;
use crate::globals::{conds_of, global_int, holds_of, ints_tail_of, mutexes_of};
use crate::head::{ended, head_tail_of, thread_head_of};
use c_cursor::{Cursor, Look, ReadFault};
use c_grammar::{Sign, Word};
use c_raw::{Globals, Head, Ident, Qualifier, Returns, Top};
use cfix_base::{List, Spot};
use sqlite_items::Boxed;
use std::alloc::{AllocError, Global};

fn qualifier_in(look: Look) -> Option<Qualifier>
    ensures { result ≡ look_qualifier look }
{
    match look {
        Look::Word(Word::Static) => Some(Qualifier::Static),
        Look::Word(Word::Volatile) => Some(Qualifier::Volatile),
        _ => None,
    }
}

fn qualifier(cursor: &Cursor<'_>, at: usize) -> Option<((Qualifier, Spot), usize)>
    ensures { Finds qualifier_at_view qualifier_of cursor.now.tokens at result }
{
    let (look, spot, next) = cursor.next(at)?;
    let qualifier = qualifier_in(look)?;
    Some(((qualifier, spot), next))
}

fn qualifiers_of(
    cursor: &Cursor<'_>,
    alloc: Global,
    at: usize,
) -> Result<(List<(Qualifier, Spot)>, usize), ReadFault>
    ensures { Gives qualifiers_view cursor.now.tokens result (read_qualifiers (drop at cursor.now.tokens)) }
{
    let mut qualifiers = List::new(alloc);
    let mut place = at;
    'qualifiers: for _ in 0..cursor.left(at) {
        let Some((next, after)) = qualifier(cursor, place) else {
            return Ok((qualifiers, place));
        };
        qualifiers.push(next)?;
        place = after;
    }
    Ok((qualifiers, place))
}

// Whether a head may stand behind these qualifiers.
fn heads_allowed(qualifiers: &List<(Qualifier, Spot)>) -> bool
    ensures { result ≡ heads_allowed (qualifiers_view qualifiers.now) }
{
    match qualifiers.as_slice() {
        [] => true,
        [(Qualifier::Static, _)] => true,
        _ => false,
    }
}

fn static_of(qualifiers: &List<(Qualifier, Spot)>) -> Option<Spot>
    ensures { result ≡ static_of (qualifiers_view qualifiers.now) }
{
    match qualifiers.as_slice().first() {
        Some((_, spot)) => Some(*spot),
        None => None,
    }
}

fn variables(
    alloc: Global,
    qualifiers: List<(Qualifier, Spot)>,
    globals: Globals,
    end: Spot,
) -> Result<Top, AllocError>
    ensures { IfOk result (λ t. top_view t ≡ Variables (qualifiers_view qualifiers) (globals_view globals) end) }
{
    let globals = Boxed::new(alloc, globals)?;
    Ok(Top::Variables {
        qualifiers,
        globals,
        end,
    })
}

/// A head up to the function's name.
#[derive(Drop)]
struct Start {
    internal: Option<Spot>,
    returns: Returns,
    at: Spot,
    name: Ident,
}

fn plain_top_of(
    cursor: &Cursor<'_>,
    alloc: Global,
    start: Start,
    at: usize,
) -> Result<(Top, usize), ReadFault>
    ensures { Gives top_view cursor.now.tokens result (plain_top start.internal (returns_view start.returns) start.at (ident_view start.name) (drop at cursor.now.tokens)) }
{
    let (tail, at) = head_tail_of(cursor, alloc, at)?;
    let head = Head::Plain {
        internal: start.internal,
        returns: start.returns,
        at: start.at,
        name: start.name,
        before: tail.before,
        params: tail.params,
        after: tail.after,
    };
    Ok((ended(alloc, head, tail.end)?, at))
}

fn ints_top_of(
    cursor: &Cursor<'_>,
    alloc: Global,
    qualifiers: List<(Qualifier, Spot)>,
    int: Spot,
    name: Ident,
    at: usize,
) -> Result<(Top, usize), ReadFault>
    ensures { Gives top_view cursor.now.tokens result (ints_top (qualifiers_view qualifiers) int (ident_view name) (drop at cursor.now.tokens)) }
{
    let (tail, at) = ints_tail_of(cursor, alloc, at)?;
    let globals = Globals::Ints {
        at: int,
        first: global_int(name, tail.declared),
        more: tail.more,
    };
    Ok((variables(alloc, qualifiers, globals, tail.end)?, at))
}

fn thread_top_of(
    cursor: &Cursor<'_>,
    alloc: Global,
    internal: Option<Spot>,
    void: Spot,
    at: usize,
) -> Result<(Top, usize), ReadFault>
    ensures { Gives top_view cursor.now.tokens result (thread_top internal void (drop at cursor.now.tokens)) }
{
    let (start, at) = thread_head_of(cursor, alloc, at)?;
    let head = Head::Thread {
        internal,
        at: void,
        star: start.star,
        name: start.name,
        before: start.before,
        void: start.void,
        param_star: start.param_star,
        param: start.param,
        after: start.after,
    };
    Ok((ended(alloc, head, start.end)?, at))
}

fn void_top_of(
    cursor: &Cursor<'_>,
    alloc: Global,
    internal: Option<Spot>,
    at: usize,
) -> Result<(Top, usize), ReadFault>
    ensures { Gives top_view cursor.now.tokens result (void_from internal (drop at cursor.now.tokens)) }
{
    let (void, at) = cursor.word(Word::Void, at)?;
    if cursor.is_sign(Sign::Star, at) {
        let (top, at) = thread_top_of(cursor, alloc, internal, void, at)?;
        return Ok((top, at));
    }
    let (name, at) = cursor.ident(alloc, at)?;
    let start = Start {
        internal,
        returns: Returns::Void,
        at: void,
        name,
    };
    let (top, at) = plain_top_of(cursor, alloc, start, at)?;
    Ok((top, at))
}

fn int_top_of(
    cursor: &Cursor<'_>,
    alloc: Global,
    qualifiers: List<(Qualifier, Spot)>,
    at: usize,
) -> Result<(Top, usize), ReadFault>
    ensures { Gives top_view cursor.now.tokens result (int_from (qualifiers_view qualifiers) (drop at cursor.now.tokens)) }
{
    let (int, at) = cursor.word(Word::Int, at)?;
    let (name, at) = cursor.ident(alloc, at)?;
    if heads_allowed(&qualifiers) {
        if cursor.is_sign(Sign::OpenParen, at) {
            let start = Start {
                internal: static_of(&qualifiers),
                returns: Returns::Int,
                at: int,
                name,
            };
            let (top, at) = plain_top_of(cursor, alloc, start, at)?;
            return Ok((top, at));
        }
    }
    let (top, at) = ints_top_of(cursor, alloc, qualifiers, int, name, at)?;
    Ok((top, at))
}

fn last_top_of(
    cursor: &Cursor<'_>,
    alloc: Global,
    qualifiers: List<(Qualifier, Spot)>,
    at: usize,
) -> Result<(Top, usize), ReadFault>
    ensures { Gives top_view cursor.now.tokens result (last_from (qualifiers_view qualifiers) (drop at cursor.now.tokens)) }
{
    if heads_allowed(&qualifiers) {
        if cursor.is_word(Word::Void, at) {
            let (top, at) = void_top_of(cursor, alloc, static_of(&qualifiers), at)?;
            return Ok((top, at));
        }
    }
    let ((globals, end), at) = conds_of(cursor, alloc, at)?;
    Ok((variables(alloc, qualifiers, globals, end)?, at))
}

fn declared_top_of(cursor: &Cursor<'_>, alloc: Global, at: usize) -> Result<(Top, usize), ReadFault>
    ensures { Gives top_view cursor.now.tokens result (declared_at (drop at cursor.now.tokens)) }
{
    let (qualifiers, at) = qualifiers_of(cursor, alloc, at)?;
    if cursor.is_word(Word::Int, at) {
        let (top, at) = int_top_of(cursor, alloc, qualifiers, at)?;
        return Ok((top, at));
    }
    if cursor.is_word(Word::Thread, at) {
        let ((globals, end), at) = holds_of(cursor, alloc, at)?;
        return Ok((variables(alloc, qualifiers, globals, end)?, at));
    }
    if cursor.is_word(Word::Mutex, at) {
        let ((globals, end), at) = mutexes_of(cursor, alloc, at)?;
        return Ok((variables(alloc, qualifiers, globals, end)?, at));
    }
    let (top, at) = last_top_of(cursor, alloc, qualifiers, at)?;
    Ok((top, at))
}

/// An include, a define, a declaration, a prototype or a function.
pub(crate) fn top_of(
    cursor: &Cursor<'_>,
    alloc: Global,
    at: usize,
) -> Result<(Top, usize), ReadFault>
    ensures { Gives top_view cursor.now.tokens result (top_at 200 (drop at cursor.now.tokens)) }
{
    if cursor.is_sign(Sign::Hash, at) {
        return directive_of(cursor, alloc, at);
    }
    declared_top_of(cursor, alloc, at)
}
