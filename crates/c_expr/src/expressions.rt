ghost use Rattle.std.specs.Prelude.{◌≡◌, ℕ, ◌-◌, drop, IfOk};
ghost use Rattle.c_reading.specs.Reader.{maybe_read};
ghost use Rattle.c_reading.specs.ReadExpr.{operators, read_long, read_cast, unary_at, expr_at, index_at};
ghost use Rattle.c_reading.specs.ReadSimple.{is_bracket};
ghost use Rattle.c_raw.specs.Exprs.{long_view, expr_view};
ghost use Rattle.c_raw.specs.Simples.{index_view};
ghost use Rattle.c_cursor.specs.Gives.{Gives};
ghost use Rattle.c_expr.specs.Operators.{index_operators};
ghost use Rattle.c_expr.specs.Parts.{operand_view, cast_parts, prefixed_at, named_at, parenthesised_at, inside_at, chain_at};

use crate::grouping::append;
use crate::operand::{Indexed, Operand, with_index};
use crate::signs::{binary, is_prefix, prefix};
use c_cursor::{Cursor, ReadFault};
use c_grammar::{Sign, Word};
use c_raw::{Cast, Expr, Long, Place};
use cfix_base::{MAX_DEPTH, Spot};
use sqlite_items::Boxed;
use std::alloc::Global;

fn long(cursor: &Cursor<'_>, at: usize) -> Result<(Option<Long>, usize), ReadFault>
    ensures { Gives long_view cursor.now.tokens result (read_long (drop at cursor.now.tokens)) }
{
    if !cursor.is_sign(Sign::OpenParen, at) {
        return Ok((None, at));
    }
    let (before, at) = cursor.sign(Sign::OpenParen, at)?;
    let (word, at) = cursor.word(Word::Long, at)?;
    let (after, at) = cursor.sign(Sign::CloseParen, at)?;
    Ok((
        Some(Long {
            before,
            word,
            after,
        }),
        at,
    ))
}

/// A cast from its `int` on, behind the parenthesis at `before`.
pub fn cast(
    cursor: &Cursor<'_>,
    alloc: Global,
    before: Spot,
    at: usize,
) -> Result<(Cast, usize), ReadFault>
    ensures read { Gives cast_parts cursor.now.tokens result (read_cast (drop at cursor.now.tokens)) }
    ensures before { IfOk result (λ x. x.0.before ≡ before) }
{
    let (int, at) = cursor.word(Word::Int, at)?;
    let (after, at) = cursor.sign(Sign::CloseParen, at)?;
    let (long, at) = long(cursor, at)?;
    let (name, at) = cursor.ident(alloc, at)?;
    Ok((
        Cast {
            before,
            int,
            after,
            long,
            name,
        },
        at,
    ))
}

/// An operand: a unary operator with its operand, a number, what begins with a name, or what
/// begins with a parenthesis (6.5.1 to 6.5.4 of ISO/IEC 9899:2011).
#[cycle(expr)]
pub fn unary(
    cursor: &Cursor<'_>,
    alloc: Global,
    depth: u32,
    budget: u32,
    at: usize,
) -> Result<(Operand, usize), ReadFault>
    ensures read { Gives operand_view cursor.now.tokens result (unary_at depth budget (drop at cursor.now.tokens)) }
    ensures left { IfOk result (λ x. x.0.left ≡ budget - operators (expr_view x.0.expr)) }
{
    if is_prefix(cursor, at) {
        return prefixed(cursor, alloc, depth, budget, at);
    }
    if cursor.is_number(at) {
        let (number, at) = cursor.numeral(at)?;
        let expr = Expr::Number(number);
        return Ok((Operand { expr, left: budget }, at));
    }
    if cursor.is_name(at) {
        return named(cursor, alloc, depth, budget, at);
    }
    parenthesised(cursor, alloc, depth, budget, at)
}

// A unary operator and its operand.
#[cycle(expr)]
fn prefixed(
    cursor: &Cursor<'_>,
    alloc: Global,
    depth: u32,
    budget: u32,
    at: usize,
) -> Result<(Operand, usize), ReadFault>
    ensures read { Gives operand_view cursor.now.tokens result (prefixed_at depth budget (drop at cursor.now.tokens)) }
    ensures left { IfOk result (λ x. x.0.left ≡ budget - operators (expr_view x.0.expr)) }
{
    let Some(((op, spot), next)) = prefix(cursor, at) else {
        return Err(ReadFault::Unexpected(at));
    };
    if depth == 0 {
        return Err(ReadFault::Deep(at));
    }
    let (inner, next) = unary(cursor, alloc, depth - 1, budget, next)?;
    let operand = Boxed::new(alloc, inner.expr)?;
    let expr = Expr::Unary {
        op,
        at: spot,
        operand,
    };
    let left = inner.left;
    Ok((Operand { expr, left }, next))
}

// A name, and the index behind it where there is one.
#[cycle(expr)]
fn named(
    cursor: &Cursor<'_>,
    alloc: Global,
    depth: u32,
    budget: u32,
    at: usize,
) -> Result<(Operand, usize), ReadFault>
    ensures read { Gives operand_view cursor.now.tokens result (named_at depth budget (drop at cursor.now.tokens)) }
    ensures left { IfOk result (λ x. x.0.left ≡ budget - operators (expr_view x.0.expr)) }
{
    let (name, at) = cursor.ident(alloc, at)?;
    let (indexed, at) = indexed(cursor, alloc, depth, budget, at)?;
    Ok((with_index(alloc, name, indexed)?, at))
}

/// The index behind a name, if there is one.
#[cycle(expr)]
pub fn indexed(
    cursor: &Cursor<'_>,
    alloc: Global,
    depth: u32,
    budget: u32,
    at: usize,
) -> Result<(Indexed, usize), ReadFault>
    ensures read { Gives (λ x. index_view x.place) cursor.now.tokens result (maybe_read is_bracket (index_at depth budget) (drop at cursor.now.tokens)) }
    ensures left { IfOk result (λ x. x.0.left ≡ budget - index_operators x.0.place) }
{
    if !cursor.is_sign(Sign::OpenBracket, at) {
        let place = None;
        return Ok((
            Indexed {
                place,
                left: budget,
            },
            at,
        ));
    }
    if depth == 0 {
        return Err(ReadFault::Deep(at));
    }
    let (before, at) = cursor.sign(Sign::OpenBracket, at)?;
    let (inner, at) = expr_within(cursor, alloc, depth - 1, budget, at)?;
    let (after, at) = cursor.sign(Sign::CloseBracket, at)?;
    let left = inner.left;
    let place = Some(Place {
        before,
        index: inner.expr,
        after,
    });
    Ok((Indexed { place, left }, at))
}

// What begins with a parenthesis.
#[cycle(expr)]
fn parenthesised(
    cursor: &Cursor<'_>,
    alloc: Global,
    depth: u32,
    budget: u32,
    at: usize,
) -> Result<(Operand, usize), ReadFault>
    ensures read { Gives operand_view cursor.now.tokens result (parenthesised_at depth budget (drop at cursor.now.tokens)) }
    ensures left { IfOk result (λ x. x.0.left ≡ budget - operators (expr_view x.0.expr)) }
{
    if !cursor.is_sign(Sign::OpenParen, at) {
        return Err(ReadFault::Unexpected(at));
    }
    if depth == 0 {
        return Err(ReadFault::Deep(at));
    }
    let (before, at) = cursor.sign(Sign::OpenParen, at)?;
    inside(cursor, alloc, depth - 1, budget, before, at)
}

/// A cast or an expression in parentheses, behind the parenthesis at `before`.
#[cycle(expr)]
pub fn inside(
    cursor: &Cursor<'_>,
    alloc: Global,
    depth: u32,
    budget: u32,
    before: Spot,
    at: usize,
) -> Result<(Operand, usize), ReadFault>
    ensures read { Gives operand_view cursor.now.tokens result (inside_at before depth budget (drop at cursor.now.tokens)) }
    ensures left { IfOk result (λ x. x.0.left ≡ budget - operators (expr_view x.0.expr)) }
{
    if cursor.is_word(Word::Int, at) {
        let (cast, at) = cast(cursor, alloc, before, at)?;
        let expr = Expr::Cast(Boxed::new(alloc, cast)?);
        return Ok((Operand { expr, left: budget }, at));
    }
    let (inner, at) = expr_within(cursor, alloc, depth, budget, at)?;
    let (after, at) = cursor.sign(Sign::CloseParen, at)?;
    let left = inner.left;
    let inside = Boxed::new(alloc, inner.expr)?;
    let expr = Expr::Paren {
        before,
        inside,
        after,
    };
    Ok((Operand { expr, left }, at))
}

/// The binary operators and operands behind a first operand, grouped by how tightly the operators
/// bind (6.5.5 to 6.5.14 of ISO/IEC 9899:2011).
#[cycle(expr)]
pub fn chain(
    cursor: &Cursor<'_>,
    alloc: Global,
    depth: u32,
    first: Operand,
    at: usize,
) -> Result<(Operand, usize), ReadFault>
    ensures read { Gives operand_view cursor.now.tokens result (chain_at (expr_view first.expr) depth first.left (drop at cursor.now.tokens)) }
    ensures left { IfOk result (λ x. (n : ℕ) → first.left ≡ n - operators (expr_view first.expr) → x.0.left ≡ n - operators (expr_view x.0.expr)) }
{
    let mut expr = first.expr;
    let mut left = first.left;
    let mut at = at;
    'links: loop {
        let Some(((op, spot), next)) = binary(cursor, at) else {
            return Ok((Operand { expr, left }, at));
        };
        if left == 0 {
            return Err(ReadFault::Deep(at));
        }
        let (operand, next) = unary(cursor, alloc, depth, left - 1, next)?;
        expr = append(alloc, expr, op, spot, operand.expr)?;
        left = operand.left;
        at = next;
    }
}

/// An expression in a chain that may have `budget` binary operators more.
#[cycle(expr)]
pub fn expr_within(
    cursor: &Cursor<'_>,
    alloc: Global,
    depth: u32,
    budget: u32,
    at: usize,
) -> Result<(Operand, usize), ReadFault>
    ensures read { Gives operand_view cursor.now.tokens result (expr_at depth budget (drop at cursor.now.tokens)) }
    ensures left { IfOk result (λ x. x.0.left ≡ budget - operators (expr_view x.0.expr)) }
{
    let (first, at) = unary(cursor, alloc, depth, budget, at)?;
    chain(cursor, alloc, depth, first, at)
}

/// A whole expression.
pub fn expr(
    cursor: &Cursor<'_>,
    alloc: Global,
    depth: u32,
    at: usize,
) -> Result<(Expr, usize), ReadFault>
    ensures { Gives expr_view cursor.now.tokens result (expr_at depth 200 (drop at cursor.now.tokens)) }
{
    let (operand, at) = expr_within(cursor, alloc, depth, MAX_DEPTH, at)?;
    Ok((operand.expr, at))
}
