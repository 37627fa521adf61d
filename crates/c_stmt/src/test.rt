//! What a part begins with.
ghost use Rattle.std.specs.Prelude.{◌≡◌, drop};
ghost use Rattle.c_reading.specs.Reader.{begins};
ghost use Rattle.c_reading.specs.ReadStmt.{begins_plain, begins_first, begins_item, begins_item_kind, begins_item_word, begins_item_sign, begins_decl, begins_jump};
ghost use Rattle.c_cursor.specs.Seen.{passes};
ghost use Rattle.c_stmt.specs.Tests.{look_plain, look_first, look_decl, look_jump};

use c_cursor::{Cursor, Look};
use c_grammar::{Sign, Word};

fn is_plain_look(look: Option<Look>) -> bool
    ensures { result ≡ look_plain look }
{
    matches!(
        look,
        Some(Look::Name | Look::Sign(Sign::PlusPlus | Sign::MinusMinus))
    )
}

fn is_first_look(look: Option<Look>) -> bool
    ensures { result ≡ look_first look }
{
    matches!(
        look,
        Some(Look::Name | Look::Sign(Sign::PlusPlus | Sign::MinusMinus) | Look::Word(Word::Int))
    )
}

fn is_decl_look(look: Option<Look>) -> bool
    ensures { result ≡ look_decl look }
{
    matches!(look, Some(Look::Word(Word::Int | Word::Thread)))
}

fn is_jump_look(look: Option<Look>) -> bool
    ensures { result ≡ look_jump look }
{
    matches!(
        look,
        Some(Look::Word(Word::Break | Word::Continue | Word::Return))
    )
}

fn is_item_word(word: Word) -> bool
    ensures { result ≡ begins_item_word word }
{
    matches!(
        word,
        Word::Break
            | Word::Continue
            | Word::For
            | Word::If
            | Word::Int
            | Word::Return
            | Word::While
            | Word::Printf
            | Word::Scanf
            | Word::Thread
            | Word::Create
            | Word::Join
            | Word::Lock
            | Word::Unlock
            | Word::CondWait
            | Word::Signal
            | Word::Broadcast
    )
}

fn is_item_sign(sign: Sign) -> bool
    ensures { result ≡ begins_item_sign sign }
{
    matches!(
        sign,
        Sign::OpenBrace | Sign::Semicolon | Sign::PlusPlus | Sign::MinusMinus
    )
}

fn is_item_look(look: Option<Look>) -> bool
    ensures { result ≡ passes begins_item_kind look }
{
    match look {
        Some(Look::Name) => true,
        Some(Look::Word(word)) => is_item_word(word),
        Some(Look::Sign(sign)) => is_item_sign(sign),
        _ => false,
    }
}

/// Whether an assignment or a step begins here.
pub(crate) fn begins_plain(cursor: &Cursor<'_>, at: usize) -> bool
    ensures { result ≡ begins begins_plain (drop at cursor.now.tokens) }
{
    is_plain_look(cursor.look(at))
}

/// Whether the first part of a `for` begins here.
pub(crate) fn begins_first(cursor: &Cursor<'_>, at: usize) -> bool
    ensures { result ≡ begins begins_first (drop at cursor.now.tokens) }
{
    is_first_look(cursor.look(at))
}

/// Whether an item of a block begins here.
pub(crate) fn begins_item(cursor: &Cursor<'_>, at: usize) -> bool
    ensures { result ≡ begins begins_item (drop at cursor.now.tokens) }
{
    is_item_look(cursor.look(at))
}

/// Whether a declaration begins here.
pub(crate) fn begins_decl(cursor: &Cursor<'_>, at: usize) -> bool
    ensures { result ≡ begins begins_decl (drop at cursor.now.tokens) }
{
    is_decl_look(cursor.look(at))
}

/// Whether a jump that is no block begins here.
pub(crate) fn begins_jump(cursor: &Cursor<'_>, at: usize) -> bool
    ensures { result ≡ begins begins_jump (drop at cursor.now.tokens) }
{
    is_jump_look(cursor.look(at))
}
