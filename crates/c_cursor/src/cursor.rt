ghost use Rattle.std.specs.Prelude.{◌≡◌, ◌≤◌, ◌<◌, ◌+◌, ◌++◌, ◌∷◌, [], length, drop, map, IfOk, OnOk};
ghost use Rattle.c_reading.specs.Reader.{begins, one_of, size};
ghost use Rattle.c_reading.specs.Read.{is_word, is_sign, is_name, is_number, read_word, read_sign, read_ident, read_numeral, read_text};
ghost use Rattle.c_raw.specs.Tokens.{ident_view, numeral_view, text_view, kind_view, token_view};
ghost use Rattle.c_grammar.specs.Spelling.{word_kind, sign_kind};
ghost use Rattle.c_grammar.specs.Lexical.{kind_read, token_read};
ghost use Rattle.c_cursor.specs.Seen.{look_of, look_at, number_at, spot_at, Next};
ghost use Rattle.c_cursor.specs.Marks.{marked};
ghost use Rattle.c_cursor.specs.Gives.{Gives};

use crate::fault::ReadFault;
use crate::look::{Look, kind_look};
use c_grammar::{Sign, Word};
use c_lex::{Kind, Tokens};
use c_raw::{Ident, Kind as CopiedKind, Numeral, Text, Token};
use cfix_base::{List, NoMemory, Spot};
use std::alloc::Global;
use std::marker::Model;

/// What a token is, and where it stands.
#[derive(Clone, Copy, Debug, PartialEq, Eq)]
struct Mark {
    look: Look,
    spot: Spot,
}

/// The tokens of a text, each looked at once. A place counts the tokens before it.
#[derive(Drop)]
pub struct Cursor<'a> {
    tokens: &'a Tokens,
    marks: List<Mark>,
}

impl<'a> Model for Cursor<'a> {
    ghost use Rattle.std.specs.Prelude.{◌≡◌, ◌≤◌, length, map};
    ghost use Rattle.c_grammar.specs.Lexical.{token_read};
    ghost use Rattle.c_cursor.specs.Seen.{Source};
    ghost use Rattle.c_cursor.specs.Marks.{marked};

    ghost Value = { Source };

    ghost invariant = { λ c. (c.marks ≡ marked c.tokens.now.tokens) × (length c.tokens.now.tokens ≤ 1000000) };

    ghost view = { λ c. record { tokens = map token_read c.tokens.now.tokens; end = c.tokens.now.end } };
}

impl<'a> Cursor<'a> {
    /// The cursor over these tokens.
    pub fn new(alloc: Global, tokens: &'a Tokens) -> Result<Cursor<'a>, NoMemory>
        ensures tokens { IfOk result (λ c. c.tokens ≡ map token_read tokens.now.tokens) }
        ensures end { IfOk result (λ c. c.end ≡ tokens.now.end) }
    {
        let mut marks = List::new(alloc);
        for place in 0..tokens.len() {
            let token = tokens.at(place);
            marks.push(Mark {
                look: kind_look(&token.kind),
                spot: token.spot,
            })?;
        }
        Ok(Cursor { tokens, marks })
    }

    /// What the token at this place is.
    pub fn look(&self, at: usize) -> Option<Look>
        ensures { result ≡ look_at (drop at self.now.tokens) }
    {
        if at < self.marks.len() {
            Some(self.marks.at(at).look)
        } else {
            None
        }
    }

    /// What the token at this place is, where it stands, and the place behind it.
    pub fn next(&self, at: usize) -> Option<(Look, Spot, usize)>
        ensures { Next self.now.tokens at result }
    {
        if at >= self.marks.len() {
            return None;
        }
        let mark = self.marks.at(at);
        Some((mark.look, mark.spot, at + 1))
    }

    /// Where the token at this place stands, or where the text ends.
    pub fn spot(&self, at: usize) -> Spot
        ensures { result ≡ spot_at self.now.end (drop at self.now.tokens) }
    {
        if at < self.marks.len() {
            self.marks.at(at).spot
        } else {
            self.tokens.end()
        }
    }

    /// Whether the token at this place is this word.
    pub fn is_word(&self, word: Word, at: usize) -> bool
        ensures { result ≡ begins (is_word word) (drop at self.now.tokens) }
    {
        match self.look(at) {
            Some(Look::Word(found)) => found == word,
            _ => false,
        }
    }

    /// Whether the token at this place is this sign.
    pub fn is_sign(&self, sign: Sign, at: usize) -> bool
        ensures { result ≡ begins (is_sign sign) (drop at self.now.tokens) }
    {
        match self.look(at) {
            Some(Look::Sign(found)) => found == sign,
            _ => false,
        }
    }

    /// Whether the token at this place is a name.
    pub fn is_name(&self, at: usize) -> bool
        ensures { result ≡ begins is_name (drop at self.now.tokens) }
    {
        matches!(self.look(at), Some(Look::Name))
    }

    /// Whether the token at this place is a number.
    pub fn is_number(&self, at: usize) -> bool
        ensures { result ≡ begins is_number (drop at self.now.tokens) }
    {
        matches!(self.look(at), Some(Look::Number(_)))
    }

    // The place behind a token.
    fn behind(&self, at: usize) -> usize
        requires { at < length self.now.tokens }
        ensures { result ≡ at + 1 }
    {
        let _ = &self.tokens;
        at + 1
    }

    /// This word.
    pub fn word(&self, word: Word, at: usize) -> Result<(Spot, usize), ReadFault>
        ensures { Gives (λ s. s) self.now.tokens result (read_word word (drop at self.now.tokens)) }
    {
        if !self.is_word(word, at) {
            return Err(ReadFault::Unexpected(at));
        }
        Ok((self.spot(at), self.behind(at)))
    }

    /// This sign.
    pub fn sign(&self, sign: Sign, at: usize) -> Result<(Spot, usize), ReadFault>
        ensures { Gives (λ s. s) self.now.tokens result (read_sign sign (drop at self.now.tokens)) }
    {
        if !self.is_sign(sign, at) {
            return Err(ReadFault::Unexpected(at));
        }
        Ok((self.spot(at), self.behind(at)))
    }

    /// A name.
    pub fn ident(&self, alloc: Global, at: usize) -> Result<(Ident, usize), ReadFault>
        ensures { Gives ident_view self.now.tokens result (read_ident (drop at self.now.tokens)) }
    {
        if at >= self.tokens.len() {
            return Err(ReadFault::Unexpected(at));
        }
        let token = self.tokens.at(at);
        match &token.kind {
            Kind::Name(text) => {
                let text = copied(alloc, text)?;
                let spot = token.spot;
                Ok((Ident { text, spot }, at + 1))
            }
            _ => Err(ReadFault::Unexpected(at)),
        }
    }

    /// The value of the number at this place, if it is one.
    pub fn number(&self, at: usize) -> Option<i32>
        ensures { result ≡ number_at (drop at self.now.tokens) }
    {
        match self.look(at) {
            Some(Look::Number(value)) => Some(value),
            _ => None,
        }
    }

    /// A number.
    pub fn numeral(&self, at: usize) -> Result<(Numeral, usize), ReadFault>
        ensures { Gives numeral_view self.now.tokens result (read_numeral (drop at self.now.tokens)) }
    {
        match self.number(at) {
            Some(value) => {
                let spot = self.spot(at);
                Ok((Numeral { value, spot }, self.behind(at)))
            }
            None => Err(ReadFault::Unexpected(at)),
        }
    }

    /// A string.
    pub fn text(&self, alloc: Global, at: usize) -> Result<(Text, usize), ReadFault>
        ensures { Gives text_view self.now.tokens result (read_text (drop at self.now.tokens)) }
    {
        if at >= self.tokens.len() {
            return Err(ReadFault::Unexpected(at));
        }
        let token = self.tokens.at(at);
        match &token.kind {
            Kind::Quoted(bytes) => {
                let bytes = copied(alloc, bytes)?;
                let spot = token.spot;
                Ok((Text { bytes, spot }, at + 1))
            }
            _ => Err(ReadFault::Unexpected(at)),
        }
    }

    /// Any token, with a copy of what it carries.
    pub fn token(&self, alloc: Global, at: usize) -> Result<(Token, usize), ReadFault>
        ensures { Gives token_view self.now.tokens result (one_of (λ t. Some t) (drop at self.now.tokens)) }
    {
        if at >= self.tokens.len() {
            return Err(ReadFault::Unexpected(at));
        }
        let token = self.tokens.at(at);
        let kind = kind_copy(alloc, &token.kind)?;
        let spot = token.spot;
        Ok((Token { kind, spot }, at + 1))
    }

    /// The number of tokens from this place on.
    pub fn left(&self, at: usize) -> usize
        ensures { result ≡ size (drop at self.now.tokens) }
    {
        self.marks.len().saturating_sub(at)
    }
}

fn copied(alloc: Global, bytes: &List<u8>) -> Result<List<u8>, NoMemory>
    ensures { IfOk result (λ copy. copy ≡ bytes.now) }
{
    Ok(List::from_vec(Vec::from_slice(alloc, bytes.as_slice())?))
}

fn word_copy(alloc: Global, text: &List<u8>, look: Look) -> Result<CopiedKind, NoMemory>
    requires { look ≡ look_of (word_kind text.now) }
    ensures { IfOk result (λ copy. kind_view copy ≡ word_kind text.now) }
{
    match look {
        Look::Word(word) => Ok(CopiedKind::Word(word)),
        _ => Ok(CopiedKind::Other(copied(alloc, text)?)),
    }
}

fn sign_copy(alloc: Global, text: &List<u8>, look: Look) -> Result<CopiedKind, NoMemory>
    requires { look ≡ look_of (sign_kind text.now) }
    ensures { IfOk result (λ copy. kind_view copy ≡ sign_kind text.now) }
{
    match look {
        Look::Sign(sign) => Ok(CopiedKind::Sign(sign)),
        _ => Ok(CopiedKind::Other(copied(alloc, text)?)),
    }
}

fn kind_copy(alloc: Global, kind: &Kind) -> Result<CopiedKind, NoMemory>
    ensures { IfOk result (λ copy. kind_view copy ≡ kind_read kind.now) }
{
    match kind {
        Kind::Name(text) => Ok(CopiedKind::Name(copied(alloc, text)?)),
        Kind::Word(text) => word_copy(alloc, text, kind_look(kind)),
        Kind::Number(value) => Ok(CopiedKind::Number(*value)),
        Kind::Quoted(bytes) => Ok(CopiedKind::Quoted(copied(alloc, bytes)?)),
        Kind::Sign(text) => sign_copy(alloc, text, kind_look(kind)),
    }
}
