//! The whole file.
ghost use Rattle.std.specs.Prelude.{◌≡◌, List, drop, IfOk, IfErr};
ghost use Rattle.c_lex.specs.Lexed.{IsLexed};
ghost use Rattle.c_grammar.specs.Parsed.{IsParsed};
ghost use Rattle.c_reading.specs.Reader.{many, begins};
ghost use Rattle.c_grammar.specs.Marks.{head};
ghost use Rattle.c_grammar.specs.Token as t;
ghost use Rattle.c_grammar.specs.File.{File, line_of, is_later};
ghost use Rattle.c_reading.specs.ReadFile.{begins_top, begins_top_kind, top_at, checked};
ghost use Rattle.c_raw.specs.Files.{top_view, file_view};
ghost use Rattle.c_cursor.specs.Gives.{Gives};
ghost use Rattle.c_cursor.specs.Seen.{passes};
ghost use Rattle.c_parse.specs.Parsed.{tops_view, Reads, Answers, Parses, FaultIs, IsFileOf, IsTreeOf, IsUnexpected, IsDeep, IsFault, spot_in};

use crate::fault::ParseFault;
use crate::top::top_of;
use c_cursor::{Cursor, Look, ReadFault};
use c_grammar::{Sign, Word};
use c_lex::Tokens;
use c_raw::{Raw, Top};
use cfix_base::List;
use std::alloc::Global;

fn is_top_look(look: Option<Look>) -> bool
    ensures { result ≡ passes begins_top_kind look }
{
    matches!(
        look,
        Some(
            Look::Sign(Sign::Hash)
                | Look::Word(
                    Word::Static
                        | Word::Volatile
                        | Word::Int
                        | Word::Void
                        | Word::Thread
                        | Word::Mutex
                        | Word::Cond
                )
        )
    )
}

fn begins_top(cursor: &Cursor<'_>, at: usize) -> bool
    ensures { result ≡ begins begins_top (drop at cursor.now.tokens) }
{
    is_top_look(cursor.look(at))
}

// The line of an include or define.
fn line_of(top: &Top) -> Option<u32>
    ensures { result ≡ line_of (top_view top.now) }
{
    match top {
        Top::Include { at, .. } | Top::Define { at, .. } => Some(at.line),
        _ => None,
    }
}

// Whether the next token, if there is one, stands behind this line.
fn is_later(cursor: &Cursor<'_>, line: Option<u32>, at: usize) -> bool
    ensures { result ≡ is_later line (head (drop at cursor.now.tokens)) }
{
    let Some(line) = line else {
        return true;
    };
    match cursor.next(at) {
        Some((_look, spot, _next)) => line < spot.line,
        None => true,
    }
}

fn checked_top_of(cursor: &Cursor<'_>, alloc: Global, at: usize) -> Result<(Top, usize), ReadFault>
    ensures { Gives top_view cursor.now.tokens result (checked (top_at 200) (drop at cursor.now.tokens)) }
{
    let (top, at) = top_of(cursor, alloc, at)?;
    if !is_later(cursor, line_of(&top), at) {
        return Err(ReadFault::Unexpected(at));
    }
    Ok((top, at))
}

fn tops_of(cursor: &Cursor<'_>, alloc: Global) -> Result<(List<Top>, usize), ReadFault>
    ensures { Gives tops_view cursor.now.tokens result (many begins_top (checked (top_at 200)) cursor.now.tokens) }
{
    let mut tops = List::new(alloc);
    let mut place = 0;
    'tops: for _ in 0..cursor.left(0) {
        if !begins_top(cursor, place) {
            return Ok((tops, place));
        }
        let (next, after) = checked_top_of(cursor, alloc, place)?;
        tops.push(next)?;
        place = after;
    }
    Ok((tops, place))
}

fn all_of(cursor: &Cursor<'_>, alloc: Global) -> Result<List<Top>, ReadFault>
    ensures { Reads cursor.now.tokens result }
{
    let (tops, at) = tops_of(cursor, alloc)?;
    if cursor.left(at) != 0 {
        return Err(ReadFault::Unexpected(at));
    }
    Ok(tops)
}

fn read(alloc: Global, tokens: &Tokens) -> Result<Raw, ParseFault>
    ensures { Answers tokens.now result }
{
    let cursor = Cursor::new(alloc, tokens)?;
    match all_of(&cursor, alloc) {
        Ok(tops) => Ok(Raw {
            tops,
            end: tokens.end(),
        }),
        Err(ReadFault::NoMemory) => Err(ParseFault::NoMemory),
        Err(ReadFault::Unexpected(at)) => Err(ParseFault::Unexpected(cursor.spot(at))),
        Err(ReadFault::Deep(at)) => Err(ParseFault::Deep(cursor.spot(at))),
    }
}

/// The one tree that the grammar assigns to the tokens, or the first fault. It reads forwards once
/// and takes time linear in the number of tokens.
pub fn parse(alloc: Global, tokens: &Tokens) -> Result<Raw, ParseFault>
    ensures tree { IfOk result (λ raw. Parses tokens.now raw) }

    // What resolving its names wants, where the tokens are those of a text.
    ensures parsed { IfOk result (λ raw. IsLexed tokens.now → IsParsed raw.end (file_view raw)) }
    ensures fault { IfErr result (λ e. FaultIs e tokens.now) }
    ensures is_read { (file : File) → IsFileOf tokens.now file → IsTreeOf file result }
    ensures is_unexpected { (rest : List t.Token) → IsUnexpected tokens.now rest → IsFault (ParseFault.Unexpected (spot_in tokens.now rest)) result }
    ensures is_deep { (rest : List t.Token) → IsDeep tokens.now rest → IsFault (ParseFault.Deep (spot_in tokens.now rest)) result }
{
    read(alloc, tokens)
}
