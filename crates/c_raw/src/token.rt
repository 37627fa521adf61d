use c_grammar::{Sign, Word};
use cfix_base::{List, Spot};

/// A name with its bytes.
#[derive(Debug, Drop)]
pub struct Ident {
    pub text: List<u8>,
    pub spot: Spot,
}

/// A number with its value, which is not negative.
#[derive(Clone, Copy, Debug, PartialEq, Eq)]
pub struct Numeral {
    pub value: i32,
    pub spot: Spot,
}

/// A string with the bytes that it stands for.
#[derive(Debug, Drop)]
pub struct Text {
    pub bytes: List<u8>,
    pub spot: Spot,
}

/// What a token is. A word that the grammar does not know is `Other`.
#[derive(Debug, Drop)]
pub enum Kind {
    Name(List<u8>),
    Number(i32),
    Quoted(List<u8>),
    Word(Word),
    Other(List<u8>),
    Sign(Sign),
}

/// A token and where it stands.
#[derive(Debug, Drop)]
pub struct Token {
    pub kind: Kind,
    pub spot: Spot,
}
