ghost use Rattle.std.specs.Prelude.{◌≡◌, ◌<◌, ◌≤◌, ◌⊎◌, [], ◌∷◌, ◌++◌, length, slice_get, OnOk, IfErr};

use crate::fault::LexFault;
use cfix_base::{List, MAX_TOKENS, Spot};
use std::alloc::Global;
use std::marker::Model;

/// What a token is. `Number` holds the value of its digits, `Quoted` the bytes that the characters
/// and escapes of a string stand for; the others hold the bytes of the text.
#[derive(Debug, Drop)]
pub enum Kind {
    Name(List<u8>),
    Word(List<u8>),
    Number(i32),
    Quoted(List<u8>),
    Sign(List<u8>),
}

/// A token and where its first byte stands.
#[derive(Debug, Drop)]
pub struct Token {
    pub kind: Kind,
    pub spot: Spot,
}

/// A token and the number of its bytes.
#[derive(Debug, Drop)]
struct Placed {
    token: Token,
    bytes: u32,
}

/// The tokens of a text, in its order.
#[derive(Debug, Drop)]
pub struct Tokens {
    items: List<Placed>,
    end: Spot,
}

impl Model for Tokens {
    ghost use Rattle.std.specs.Prelude.{◌≤◌, length, map};
    ghost use Rattle.c_lex.specs.Lexed.{Lexed};

    ghost Value = { Lexed };

    ghost invariant = { λ t. length t.items ≤ 1000000 };

    ghost view = { λ t. record { tokens = map (λ p. p.token) t.items; lengths = map (λ p. p.bytes) t.items; end = t.end } };
}

impl Tokens {
    /// No tokens, at the start of a text.
    pub(crate) fn new(alloc: Global) -> Tokens
        ensures tokens { result.tokens ≡ [] }
        ensures lengths { result.lengths ≡ [] }
    {
        Tokens {
            items: List::new(alloc),
            end: Spot { at: 0, line: 1 },
        }
    }

    /// Adds a token of so many bytes, unless it is one too many.
    pub(crate) fn add(&mut self, token: Token, bytes: u32) -> Result<(), LexFault>
        ensures tokens { OnOk result (self.new.tokens ≡ self.old.tokens ++ token ∷ []) }
        ensures lengths { OnOk result (self.new.lengths ≡ self.old.lengths ++ bytes ∷ []) }
        ensures room { OnOk result (length self.old.tokens < MAX_TOKENS) }
        ensures fault { IfErr result (λ fault. (fault ≡ LexFault.NoMemory) ⊎ ((fault ≡ LexFault.TooMany token.spot) × (MAX_TOKENS ≤ length self.old.tokens))) }
    {
        if self.items.len() >= MAX_TOKENS as usize {
            return Err(LexFault::TooMany(token.spot));
        }
        self.items.push(Placed { token, bytes })?;
        Ok(())
    }

    /// The tokens, with the text's end.
    pub(crate) fn ending(mut self, end: Spot) -> Tokens
        ensures tokens { result.tokens ≡ self.tokens }
        ensures lengths { result.lengths ≡ self.lengths }
        ensures end { result.end ≡ end }
    {
        self.end = end;
        self
    }

    /// The number of tokens.
    pub fn len(&self) -> usize
        ensures value { result ≡ length self.now.tokens }
        ensures limit { result ≤ MAX_TOKENS }
    {
        self.items.len()
    }

    /// The token at `place`, counted from 0.
    pub fn at(&self, place: usize) -> &Token
        requires { place < length self.now.tokens }
        ensures { slice_get self.now.tokens place ≡ Some result.now }
    {
        &self.items.at(place).token
    }

    /// The text's end: the number of its bytes, and 1 plus the number of its line feeds.
    pub fn end(&self) -> Spot
        ensures { result ≡ self.now.end }
    {
        self.end
    }
}
