//! Includes and defines, each on one line (6.10 of ISO/IEC 9899:2011).
ghost use Rattle.std.specs.Prelude.{◌≡◌, eqb, drop};
ghost use Rattle.c_reading.specs.Reader.{one_of, many, begins};
ghost use Rattle.c_reading.specs.Read.{ident_of, numeral_of, text_of};
ghost use Rattle.c_reading.specs.ReadFile.{on_line, sign_on, header_text_of, is_inside, inside_of, header_from, replacement_from};
ghost use Rattle.c_raw.specs.Tokens.{ident_view, numeral_view, text_view, token_view};
ghost use Rattle.c_raw.specs.Files.{header_view, replacement_view, top_view};
ghost use Rattle.c_cursor.specs.Seen.{spot_at};
ghost use Rattle.c_cursor.specs.Gives.{Gives};
ghost use Rattle.c_parse.specs.Directives.{inside_view, header_at, replacement_at, named_at, directive_view, directive_tail_at, directive_at};

use c_cursor::{Cursor, Look, ReadFault};
use c_grammar::Sign;
use c_raw::{Header, Ident, Numeral, Replacement, Text, Token, Top};
use cfix_base::{List, Spot};
use std::alloc::Global;

// Whether the next token stands on this line.
fn is_on(cursor: &Cursor<'_>, line: u32, at: usize) -> bool
    ensures { result ≡ eqb (spot_at cursor.now.end (drop at cursor.now.tokens)).line line }
{
    cursor.spot(at).line == line
}

fn sign_on(
    cursor: &Cursor<'_>,
    sign: Sign,
    line: u32,
    at: usize,
) -> Result<(Spot, usize), ReadFault>
    ensures { Gives (λ s. s) cursor.now.tokens result (sign_on line sign (drop at cursor.now.tokens)) }
{
    if !is_on(cursor, line, at) {
        return Err(ReadFault::Unexpected(at));
    }
    cursor.sign(sign, at)
}

fn ident_on(
    cursor: &Cursor<'_>,
    alloc: Global,
    line: u32,
    at: usize,
) -> Result<(Ident, usize), ReadFault>
    ensures { Gives ident_view cursor.now.tokens result (one_of (on_line line ident_of) (drop at cursor.now.tokens)) }
{
    if !is_on(cursor, line, at) {
        return Err(ReadFault::Unexpected(at));
    }
    cursor.ident(alloc, at)
}

fn numeral_on(cursor: &Cursor<'_>, line: u32, at: usize) -> Result<(Numeral, usize), ReadFault>
    ensures { Gives numeral_view cursor.now.tokens result (one_of (on_line line numeral_of) (drop at cursor.now.tokens)) }
{
    if !is_on(cursor, line, at) {
        return Err(ReadFault::Unexpected(at));
    }
    cursor.numeral(at)
}

fn text_on(
    cursor: &Cursor<'_>,
    alloc: Global,
    line: u32,
    at: usize,
) -> Result<(Text, usize), ReadFault>
    ensures { Gives text_view cursor.now.tokens result (one_of (on_line line text_of) (drop at cursor.now.tokens)) }
{
    if !is_on(cursor, line, at) {
        return Err(ReadFault::Unexpected(at));
    }
    cursor.text(alloc, at)
}

// The one string that an include may have.
fn header_text(
    cursor: &Cursor<'_>,
    alloc: Global,
    line: u32,
    at: usize,
) -> Result<(Text, usize), ReadFault>
    ensures { Gives text_view cursor.now.tokens result (one_of (on_line line header_text_of) (drop at cursor.now.tokens)) }
{
    let (text, next) = text_on(cursor, alloc, line, at)?;
    if text.bytes.as_slice() != b"cfix.h".as_slice() {
        return Err(ReadFault::Unexpected(at));
    }
    Ok((text, next))
}

fn is_inside(cursor: &Cursor<'_>, line: u32, at: usize) -> bool
    ensures { result ≡ begins (is_inside line) (drop at cursor.now.tokens) }
{
    match cursor.next(at) {
        Some((look, spot, _)) => look != Look::Sign(Sign::Greater) && spot.line == line,
        None => false,
    }
}

fn inside_token(
    cursor: &Cursor<'_>,
    alloc: Global,
    line: u32,
    at: usize,
) -> Result<(Token, usize), ReadFault>
    ensures { Gives token_view cursor.now.tokens result (one_of (inside_of line) (drop at cursor.now.tokens)) }
{
    if !is_inside(cursor, line, at) {
        return Err(ReadFault::Unexpected(at));
    }
    cursor.token(alloc, at)
}

// The tokens inside the angle brackets of an include.
fn inside(
    cursor: &Cursor<'_>,
    alloc: Global,
    line: u32,
    at: usize,
) -> Result<(List<Token>, usize), ReadFault>
    ensures { Gives inside_view cursor.now.tokens result (many (is_inside line) (one_of (inside_of line)) (drop at cursor.now.tokens)) }
{
    let mut tokens = List::new(alloc);
    let mut place = at;
    'tokens: for _ in 0..cursor.left(at) {
        if !is_inside(cursor, line, place) {
            return Ok((tokens, place));
        }
        let (next, after) = inside_token(cursor, alloc, line, place)?;
        tokens.push(next)?;
        place = after;
    }
    Ok((tokens, place))
}

fn header(
    cursor: &Cursor<'_>,
    alloc: Global,
    line: u32,
    at: usize,
) -> Result<(Header, usize), ReadFault>
    ensures { Gives header_view cursor.now.tokens result (header_at line (drop at cursor.now.tokens)) }
{
    if !cursor.is_sign(Sign::Less, at) {
        let (text, at) = header_text(cursor, alloc, line, at)?;
        return Ok((Header::Quoted(text), at));
    }
    let (before, at) = sign_on(cursor, Sign::Less, line, at)?;
    let (inside, at) = inside(cursor, alloc, line, at)?;
    let (after, at) = sign_on(cursor, Sign::Greater, line, at)?;
    Ok((
        Header::Angled {
            before,
            inside,
            after,
        },
        at,
    ))
}

fn replacement(cursor: &Cursor<'_>, line: u32, at: usize) -> Result<(Replacement, usize), ReadFault>
    ensures { Gives replacement_view cursor.now.tokens result (replacement_at line (drop at cursor.now.tokens)) }
{
    if !cursor.is_sign(Sign::OpenParen, at) {
        let (number, at) = numeral_on(cursor, line, at)?;
        return Ok((Replacement::Plainly(number), at));
    }
    let (before, at) = sign_on(cursor, Sign::OpenParen, line, at)?;
    let (number, at) = numeral_on(cursor, line, at)?;
    let (after, at) = sign_on(cursor, Sign::CloseParen, line, at)?;
    Ok((
        Replacement::InParens {
            before,
            number,
            after,
        },
        at,
    ))
}

/// What stands behind the `#` of a line, with the place of its first word.
#[derive(Drop)]
enum Directive {
    Include {
        name: Spot,
        header: Header,
    },
    Define {
        name: Spot,
        defined: Ident,
        value: Replacement,
    },
}

// Behind the first word of a line.
fn named(
    cursor: &Cursor<'_>,
    alloc: Global,
    name: Ident,
    line: u32,
    at: usize,
    here: usize,
) -> Result<(Directive, usize), ReadFault>
    ensures { Gives directive_view cursor.now.tokens result (named_at (ident_view name) line (drop here cursor.now.tokens) (drop at cursor.now.tokens)) }
{
    if name.text.as_slice() == b"include".as_slice() {
        let (header, at) = header(cursor, alloc, line, at)?;
        return Ok((
            Directive::Include {
                name: name.spot,
                header,
            },
            at,
        ));
    }
    if name.text.as_slice() == b"define".as_slice() {
        let (defined, at) = ident_on(cursor, alloc, line, at)?;
        let (value, at) = replacement(cursor, line, at)?;
        return Ok((
            Directive::Define {
                name: name.spot,
                defined,
                value,
            },
            at,
        ));
    }
    Err(ReadFault::Unexpected(here))
}

fn tail(
    cursor: &Cursor<'_>,
    alloc: Global,
    line: u32,
    at: usize,
) -> Result<(Directive, usize), ReadFault>
    ensures { Gives directive_view cursor.now.tokens result (directive_tail_at line (drop at cursor.now.tokens)) }
{
    let (name, next) = ident_on(cursor, alloc, line, at)?;
    let (directive, next) = named(cursor, alloc, name, line, next, at)?;
    Ok((directive, next))
}

/// An include or a define.
pub(crate) fn directive_of(
    cursor: &Cursor<'_>,
    alloc: Global,
    at: usize,
) -> Result<(Top, usize), ReadFault>
    ensures { Gives top_view cursor.now.tokens result (directive_at (drop at cursor.now.tokens)) }
{
    let (hash, at) = cursor.sign(Sign::Hash, at)?;
    let (directive, at) = tail(cursor, alloc, hash.line, at)?;
    let top = match directive {
        Directive::Include { name, header } => Top::Include {
            at: hash,
            name,
            header,
        },
        Directive::Define {
            name,
            defined,
            value,
        } => Top::Define {
            at: hash,
            name,
            defined,
            value,
        },
    };
    Ok((top, at))
}
