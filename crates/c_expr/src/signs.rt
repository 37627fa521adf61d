//! Which operator, sign or verb is next.

ghost use Rattle.std.specs.Prelude.{◌≡◌, drop};
ghost use Rattle.c_reading.specs.Reader.{begins};
ghost use Rattle.c_reading.specs.ReadExpr.{is_prefix, prefix_of, binary_of, begins_expr};
ghost use Rattle.c_reading.specs.ReadSimple.{change_of, step_of, is_step};
ghost use Rattle.c_reading.specs.ReadOp.{verb_of, is_verb};
ghost use Rattle.c_expr.specs.Finds.{Finds};
ghost use Rattle.c_expr.specs.Signs.{prefix_look, binary_look, change_look, step_look, verb_look, begins_expr_look, prefix_at_view, binary_at_view, change_at_view, step_at_view, verb_at_view};

use c_cursor::{Cursor, Look};
use c_grammar::{Sign, Word};
use c_raw::{Binary, Change, Prefix, Step, Verb};
use cfix_base::Spot;

fn prefix_in(look: Look) -> Option<Prefix>
    ensures { result ≡ prefix_look look }
{
    match look {
        Look::Sign(Sign::Minus) => Some(Prefix::Negate),
        Look::Sign(Sign::Not) => Some(Prefix::Invert),
        _ => None,
    }
}

fn binary_in(look: Look) -> Option<Binary>
    ensures { result ≡ binary_look look }
{
    match look {
        Look::Sign(Sign::OrOr) => Some(Binary::Or),
        Look::Sign(Sign::AndAnd) => Some(Binary::And),
        Look::Sign(Sign::Equal) => Some(Binary::Equal),
        Look::Sign(Sign::NotEqual) => Some(Binary::NotEqual),
        Look::Sign(Sign::Less) => Some(Binary::Less),
        Look::Sign(Sign::LessEqual) => Some(Binary::LessEqual),
        Look::Sign(Sign::Greater) => Some(Binary::Greater),
        Look::Sign(Sign::GreaterEqual) => Some(Binary::GreaterEqual),
        Look::Sign(Sign::Plus) => Some(Binary::Add),
        Look::Sign(Sign::Minus) => Some(Binary::Subtract),
        Look::Sign(Sign::Star) => Some(Binary::Multiply),
        Look::Sign(Sign::Slash) => Some(Binary::Divide),
        Look::Sign(Sign::Percent) => Some(Binary::Remainder),
        _ => None,
    }
}

fn change_in(look: Look) -> Option<Change>
    ensures { result ≡ change_look look }
{
    match look {
        Look::Sign(Sign::PlusAssign) => Some(Change::AddTo),
        Look::Sign(Sign::MinusAssign) => Some(Change::SubtractFrom),
        Look::Sign(Sign::StarAssign) => Some(Change::MultiplyBy),
        Look::Sign(Sign::SlashAssign) => Some(Change::DivideBy),
        Look::Sign(Sign::PercentAssign) => Some(Change::RemainderBy),
        _ => None,
    }
}

fn step_in(look: Look) -> Option<Step>
    ensures { result ≡ step_look look }
{
    match look {
        Look::Sign(Sign::PlusPlus) => Some(Step::Up),
        Look::Sign(Sign::MinusMinus) => Some(Step::Down),
        _ => None,
    }
}

fn verb_in(look: Look) -> Option<Verb>
    ensures { result ≡ verb_look look }
{
    match look {
        Look::Word(Word::Enter) => Some(Verb::Enter),
        Look::Word(Word::Leave) => Some(Verb::Leave),
        Look::Word(Word::Wait) => Some(Verb::Wait),
        Look::Word(Word::Done) => Some(Verb::Done),
        Look::Word(Word::First) => Some(Verb::First),
        Look::Word(Word::Add) => Some(Verb::Add),
        _ => None,
    }
}

fn begins_expr_in(look: Look) -> bool
    ensures { result ≡ begins_expr_look look }
{
    matches!(
        look,
        Look::Name | Look::Number(_) | Look::Sign(Sign::OpenParen | Sign::Minus | Sign::Not)
    )
}

/// A unary operator, where one is next, with its place and the place behind it.
pub fn prefix(cursor: &Cursor<'_>, at: usize) -> Option<((Prefix, Spot), usize)>
    ensures { Finds prefix_at_view prefix_of cursor.now.tokens at result }
{
    let (look, spot, next) = cursor.next(at)?;
    let op = prefix_in(look)?;
    Some(((op, spot), next))
}

/// A binary operator, where one is next, with its place and the place behind it.
pub fn binary(cursor: &Cursor<'_>, at: usize) -> Option<((Binary, Spot), usize)>
    ensures { Finds binary_at_view binary_of cursor.now.tokens at result }
{
    let (look, spot, next) = cursor.next(at)?;
    let op = binary_in(look)?;
    Some(((op, spot), next))
}

/// An assignment operator other than `=`, where one is next, with its place and the place behind it.
pub fn change(cursor: &Cursor<'_>, at: usize) -> Option<((Change, Spot), usize)>
    ensures { Finds change_at_view change_of cursor.now.tokens at result }
{
    let (look, spot, next) = cursor.next(at)?;
    let op = change_in(look)?;
    Some(((op, spot), next))
}

/// `++` or `--`, where one is next, with its place and the place behind it.
pub fn step(cursor: &Cursor<'_>, at: usize) -> Option<((Step, Spot), usize)>
    ensures { Finds step_at_view step_of cursor.now.tokens at result }
{
    let (look, spot, next) = cursor.next(at)?;
    let op = step_in(look)?;
    Some(((op, spot), next))
}

/// The word of an operation, where one is next, with its place and the place behind it.
pub fn verb(cursor: &Cursor<'_>, at: usize) -> Option<((Verb, Spot), usize)>
    ensures { Finds verb_at_view verb_of cursor.now.tokens at result }
{
    let (look, spot, next) = cursor.next(at)?;
    let op = verb_in(look)?;
    Some(((op, spot), next))
}

/// Whether a unary operator is next.
pub fn is_prefix(cursor: &Cursor<'_>, at: usize) -> bool
    ensures { result ≡ begins is_prefix (drop at cursor.now.tokens) }
{
    prefix(cursor, at).is_some()
}

/// Whether `++` or `--` is next.
pub fn is_step(cursor: &Cursor<'_>, at: usize) -> bool
    ensures { result ≡ begins is_step (drop at cursor.now.tokens) }
{
    step(cursor, at).is_some()
}

/// Whether the word of an operation is next.
pub fn is_verb(cursor: &Cursor<'_>, at: usize) -> bool
    ensures { result ≡ begins is_verb (drop at cursor.now.tokens) }
{
    verb(cursor, at).is_some()
}

/// Whether an expression can begin with the next token.
pub fn begins_expr(cursor: &Cursor<'_>, at: usize) -> bool
    ensures { result ≡ begins begins_expr (drop at cursor.now.tokens) }
{
    match cursor.look(at) {
        Some(look) => begins_expr_in(look),
        None => false,
    }
}
