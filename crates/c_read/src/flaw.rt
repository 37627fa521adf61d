ghost use Rattle.std.specs.Prelude.{◌≡◌};
ghost use Rattle.c_read.specs.Flaws.{token_answer, grammar_answer, name_answer};

use c_lex::LexFault;
use c_parse::ParseFault;
use c_types::NameFault;
use cfix_base::Spot;
use thiserror::Error;

/// What is wrong with a source: its tokens, then its grammar, then its names, as `lex`, `parse` and
/// `resolve` have it.
#[derive(Clone, Copy, Debug, PartialEq, Eq)]
pub enum FlawKind {
    BadByte,
    OpenComment,
    BadString,
    BadNumber,
    TooMany,
    Unexpected,
    Deep,
    Unknown,
    Twice,
    Arity,
    WrongUse,
    NoReturn,
    RootCalled,
    Reserved,
    Limit,
}

/// What is wrong with a source, and where.
#[derive(Clone, Copy, Debug, PartialEq, Eq)]
pub struct Flaw {
    pub kind: FlawKind,
    pub spot: Spot,
}

/// Why a source was not read.
#[derive(Clone, Copy, Debug, PartialEq, Eq, Error)]
pub enum ReadFault {
    #[error("NoMemory")]
    NoMemory,
    #[error("Flawed")]
    Flawed(Flaw),
}

fn flawed(kind: FlawKind, spot: Spot) -> ReadFault
    ensures { result ≡ ReadFault.Flawed (record { kind = kind; spot = spot }) }
{
    ReadFault::Flawed(Flaw { kind, spot })
}

/// The answer for a fault of the tokens.
pub(crate) fn token_answer(fault: LexFault) -> ReadFault
    ensures { result ≡ token_answer fault }
{
    match fault {
        LexFault::NoMemory => ReadFault::NoMemory,
        LexFault::BadByte(spot) => flawed(FlawKind::BadByte, spot),
        LexFault::OpenComment(spot) => flawed(FlawKind::OpenComment, spot),
        LexFault::BadString(spot) => flawed(FlawKind::BadString, spot),
        LexFault::BadNumber(spot) => flawed(FlawKind::BadNumber, spot),
        LexFault::TooMany(spot) => flawed(FlawKind::TooMany, spot),
    }
}

/// The answer for a fault of the grammar.
pub(crate) fn grammar_answer(fault: ParseFault) -> ReadFault
    ensures { result ≡ grammar_answer fault }
{
    match fault {
        ParseFault::NoMemory => ReadFault::NoMemory,
        ParseFault::Unexpected(spot) => flawed(FlawKind::Unexpected, spot),
        ParseFault::Deep(spot) => flawed(FlawKind::Deep, spot),
    }
}

/// The answer for a fault of the names.
pub(crate) fn name_answer(fault: NameFault) -> ReadFault
    ensures { result ≡ name_answer fault }
{
    match fault {
        NameFault::NoMemory => ReadFault::NoMemory,
        NameFault::Unknown(spot) => flawed(FlawKind::Unknown, spot),
        NameFault::Twice(spot) => flawed(FlawKind::Twice, spot),
        NameFault::Arity(spot) => flawed(FlawKind::Arity, spot),
        NameFault::WrongUse(spot) => flawed(FlawKind::WrongUse, spot),
        NameFault::NoReturn(spot) => flawed(FlawKind::NoReturn, spot),
        NameFault::RootCalled(spot) => flawed(FlawKind::RootCalled, spot),
        NameFault::Reserved(spot) => flawed(FlawKind::Reserved, spot),
        NameFault::Limit(spot) => flawed(FlawKind::Limit, spot),
    }
}
