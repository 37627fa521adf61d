//! Conditions: an expression, or one with guards.
ghost use Rattle.std.specs.Prelude.{◌≡◌, ◌≢◌, ◌-◌, drop, IfOk};
ghost use Rattle.std.proofs.Common.{inr};
ghost use Rattle.c_grammar.specs.Expr.{Operation, Paren};
ghost use Rattle.c_reading.specs.ReadExpr.{operators};
ghost use Rattle.c_reading.specs.ReadCond.{guard_digit, second_at, inner_at, or_tail_at, guard_cond, cond_at};
ghost use Rattle.c_raw.specs.Exprs.{binary_view, expr_view};
ghost use Rattle.c_raw.specs.Conds.{true_guard_view, cond_view};
ghost use Rattle.c_cursor.specs.Gives.{Gives};
ghost use Rattle.c_stmt.specs.Conds.{guarded_view, or_view, or_guard, second_view, SecondLeaves, paren_second, plain_second, continued_view, ContinuedLeaves, continued_at, link_at, inner_view, InnerLeaves, true_guard, plain_inner, paren_inner, plain_cond, paren_cond, test_cond, both_guards, both_cond};

use crate::guard::{Guarded, guard_of, guarded_of};
use c_cursor::{Cursor, ReadFault};
use c_expr::{Operand, binary, chain, expr_within, is_verb, unary};
use c_grammar::{Sign, Word};
use c_raw::{Binary, BothGuard, Cond, Expr, FalseGuard, TrueGuard};
use cfix_base::{MAX_DEPTH, Spot};
use sqlite_items::Boxed;
use std::alloc::{AllocError, Global};

/// What stands behind the first operator of a condition: a guard or an operand.
#[derive(Drop)]
enum Second {
    Guarded(Guarded),
    Operand(Operand),
}

// The number with which a guard ends that may stand behind this operator.
fn guard_digit(top: bool, op: Binary) -> Option<u32>
    ensures { result ≡ guard_digit top (binary_view op) }
{
    match op {
        Binary::And => Some(1),
        Binary::Or => { if top { Some(0) } else { None } }
        _ => None,
    }
}

// An operand in whose place no guard stands.
fn plain_second_of(
    cursor: &Cursor<'_>,
    alloc: Global,
    depth: u32,
    budget: u32,
    at: usize,
) -> Result<(Second, usize), ReadFault>
    ensures reads { Gives second_view cursor.now.tokens result (plain_second depth budget (drop at cursor.now.tokens)) }
    ensures left { IfOk result (λ x. SecondLeaves budget x.0) }
{
    let (operand, at) = unary(cursor, alloc, depth, budget, at)?;
    Ok((Second::Operand(operand), at))
}

// An operand or a guard, from its parenthesis on.
fn paren_second_of(
    cursor: &Cursor<'_>,
    alloc: Global,
    digit: u32,
    depth: u32,
    budget: u32,
    at: usize,
) -> Result<(Second, usize), ReadFault>
    ensures reads { Gives second_view cursor.now.tokens result (paren_second digit depth budget (drop at cursor.now.tokens)) }
    ensures left { IfOk result (λ x. SecondLeaves budget x.0) }
{
    let (before, inside) = cursor.sign(Sign::OpenParen, at)?;
    if !is_verb(cursor, inside) {
        let (second, at) = plain_second_of(cursor, alloc, depth, budget, at)?;
        return Ok((second, at));
    }
    let (guard, at) = guard_of(cursor, alloc, digit, inside)?;
    let (after, at) = cursor.sign(Sign::CloseParen, at)?;
    let guarded = Guarded {
        before,
        guard,
        after,
    };
    Ok((Second::Guarded(guarded), at))
}

fn second_of(
    cursor: &Cursor<'_>,
    alloc: Global,
    digit: Option<u32>,
    depth: u32,
    budget: u32,
    at: usize,
) -> Result<(Second, usize), ReadFault>
    ensures reads { Gives second_view cursor.now.tokens result (second_at digit depth budget (drop at cursor.now.tokens)) }
    ensures left { IfOk result (λ x. SecondLeaves budget x.0) }
{
    let Some(digit) = digit else {
        return plain_second_of(cursor, alloc, depth, budget, at);
    };
    if depth == 0 {
        return plain_second_of(cursor, alloc, depth, budget, at);
    }
    if cursor.is_sign(Sign::OpenParen, at) {
        return paren_second_of(cursor, alloc, digit, depth, budget, at);
    }
    plain_second_of(cursor, alloc, depth, budget, at)
}

/// An expression in parentheses, and how many binary operators may still stand in its chain.
#[derive(Drop)]
struct Parens {
    before: Spot,
    test: Expr,
    after: Spot,
    left: u32,
}

/// A binary operator.
#[derive(Clone, Copy, Debug, PartialEq, Eq)]
struct Link {
    op: Binary,
    at: Spot,
}

/// What an operand in parentheses goes on to: an expression, or an operator with a guard.
#[derive(Drop)]
enum Continued {
    Plain(Operand),
    Guarded {
        parens: Parens,
        op: Binary,
        at: Spot,
        guarded: Guarded,
    },
}

fn parenthesised(alloc: Global, parens: Parens) -> Result<Operand, AllocError>
    ensures expr { IfOk result (λ o. expr_view o.expr ≡ Paren parens.before (expr_view parens.test) parens.after) }
    ensures left { IfOk result (λ o. o.left ≡ parens.left) }
{
    let Parens {
        before,
        test,
        after,
        left,
    } = parens;
    let inside = Boxed::new(alloc, test)?;
    let expr = Expr::Paren {
        before,
        inside,
        after,
    };
    Ok(Operand { expr, left })
}

// The operation of an operand in parentheses and the one behind it.
fn joined(
    alloc: Global,
    parens: Parens,
    op: Binary,
    at: Spot,
    second: Operand,
) -> Result<Operand, AllocError>
    ensures expr { IfOk result (λ o. expr_view o.expr ≡ Operation (Paren parens.before (expr_view parens.test) parens.after) (binary_view op) at (expr_view second.expr)) }
    ensures left { IfOk result (λ o. o.left ≡ second.left) }
{
    let first = parenthesised(alloc, parens)?;
    let left = Boxed::new(alloc, first.expr)?;
    let right = Boxed::new(alloc, second.expr)?;
    let expr = Expr::Operation {
        left,
        op,
        at,
        right,
    };
    Ok(Operand {
        expr,
        left: second.left,
    })
}

// Behind the operator behind an operand in parentheses.
fn linked_of(
    cursor: &Cursor<'_>,
    alloc: Global,
    top: bool,
    depth: u32,
    parens: Parens,
    link: Link,
    at: usize,
) -> Result<(Continued, usize), ReadFault>
    requires left { parens.left ≡ 200 - operators (expr_view parens.test) }
    requires some { parens.left ≢ 0 }
    ensures reads { Gives continued_view cursor.now.tokens result (link_at top depth parens.before (expr_view parens.test) parens.after (parens.left - 1) (binary_view link.op, link.at) (drop at cursor.now.tokens)) }
    ensures left { IfOk result (λ x. ContinuedLeaves x.0) }
{
    let Link { op, at: op_at } = link;
    let digit = guard_digit(top, op);
    let (second, at) = second_of(cursor, alloc, digit, depth, parens.left - 1, at)?;
    match second {
        Second::Guarded(guarded) => Ok((
            Continued::Guarded {
                parens,
                op,
                at: op_at,
                guarded,
            },
            at,
        )),
        Second::Operand(operand) => {
            let first = joined(alloc, parens, op, op_at, operand)?;
            let (test, at) = chain(cursor, alloc, depth, first, at)?;
            Ok((Continued::Plain(test), at))
        }
    }
}

// What stands behind an operand in parentheses.
fn continued_of(
    cursor: &Cursor<'_>,
    alloc: Global,
    top: bool,
    depth: u32,
    parens: Parens,
    at: usize,
) -> Result<(Continued, usize), ReadFault>
    requires { parens.left ≡ 200 - operators (expr_view parens.test) }
    ensures reads { Gives continued_view cursor.now.tokens result (continued_at top depth parens.before (expr_view parens.test) parens.after parens.left (drop at cursor.now.tokens)) }
    ensures left { IfOk result (λ x. ContinuedLeaves x.0) }
{
    let Some(((op, op_at), next)) = binary(cursor, at) else {
        let test = parenthesised(alloc, parens)?;
        return Ok((Continued::Plain(test), at));
    };
    if parens.left == 0 {
        return Err(ReadFault::Deep(at));
    }
    let link = Link { op, at: op_at };
    linked_of(cursor, alloc, top, depth, parens, link, next)
}

/// What stands in the first parentheses of a condition: an expression, or one that guards
/// operations where it is true. `left` operators may still stand in the chain.
#[derive(Drop)]
enum Inner {
    Test(Operand),
    Guarded { guard: TrueGuard, left: u32 },
}

#[tactic(auto, unfolding(crate::specs::Conds::plain_inner))]
fn plain_inner_of(
    cursor: &Cursor<'_>,
    alloc: Global,
    depth: u32,
    at: usize,
) -> Result<(Inner, usize), ReadFault>
    ensures reads { Gives inner_view cursor.now.tokens result (plain_inner depth (drop at cursor.now.tokens)) }
    ensures left { IfOk result (λ x. InnerLeaves x.0) }
{
    let (test, at) = expr_within(cursor, alloc, depth, MAX_DEPTH, at)?;
    Ok((Inner::Test(test), at))
}

fn guarded_inner(parens: Parens, at: Spot, guarded: Guarded) -> Inner
    requires left { parens.left ≡ 200 - operators (expr_view parens.test) }
    requires some { parens.left ≢ 0 }
    ensures view { inner_view result ≡ inr (true_guard (parens.before) (expr_view parens.test) parens.after at (guarded_view guarded)) }
    ensures left { InnerLeaves result }
{
    let guard = TrueGuard {
        before: parens.before,
        test: parens.test,
        after: parens.after,
        and: at,
        guard_before: guarded.before,
        guard: guarded.guard,
        guard_after: guarded.after,
    };
    Inner::Guarded {
        guard,
        left: parens.left - 1,
    }
}

// From a parenthesis on, where `inside` more constructs may be nested in it.
#[tactic(auto, unfolding(crate::specs::Conds::paren_inner))]
fn paren_inner_of(
    cursor: &Cursor<'_>,
    alloc: Global,
    depth: u32,
    inside: u32,
    at: usize,
) -> Result<(Inner, usize), ReadFault>
    ensures reads { Gives inner_view cursor.now.tokens result (paren_inner depth inside (drop at cursor.now.tokens)) }
    ensures left { IfOk result (λ x. InnerLeaves x.0) }
{
    let (before, place) = cursor.sign(Sign::OpenParen, at)?;
    if cursor.is_word(Word::Int, place) {
        let (inner, at) = plain_inner_of(cursor, alloc, depth, at)?;
        return Ok((inner, at));
    }
    let (Operand { expr, left }, at) = expr_within(cursor, alloc, inside, MAX_DEPTH, place)?;
    let (after, at) = cursor.sign(Sign::CloseParen, at)?;
    let parens = Parens {
        before,
        test: expr,
        after,
        left,
    };
    let (continued, at) = continued_of(cursor, alloc, false, depth, parens, at)?;
    match continued {
        Continued::Plain(test) => Ok((Inner::Test(test), at)),
        Continued::Guarded {
            parens,
            at: and,
            guarded,
            ..
        } => Ok((guarded_inner(parens, and, guarded), at)),
    }
}

fn inner_of(
    cursor: &Cursor<'_>,
    alloc: Global,
    depth: u32,
    at: usize,
) -> Result<(Inner, usize), ReadFault>
    ensures reads { Gives inner_view cursor.now.tokens result (inner_at 200 depth (drop at cursor.now.tokens)) }
    ensures left { IfOk result (λ x. InnerLeaves x.0) }
{
    if depth == 0 {
        return plain_inner_of(cursor, alloc, depth, at);
    }
    if cursor.is_sign(Sign::OpenParen, at) {
        return paren_inner_of(cursor, alloc, depth, depth - 1, at);
    }
    plain_inner_of(cursor, alloc, depth, at)
}

#[tactic(auto, unfolding(crate::specs::Conds::plain_cond))]
fn plain_cond_of(
    cursor: &Cursor<'_>,
    alloc: Global,
    depth: u32,
    at: usize,
) -> Result<(Cond, usize), ReadFault>
    ensures { Gives cond_view cursor.now.tokens result (plain_cond depth (drop at cursor.now.tokens)) }
{
    let (test, at) = expr_within(cursor, alloc, depth, MAX_DEPTH, at)?;
    Ok((Cond::Bare(test.expr), at))
}

// The condition of an operand in parentheses, an operator and a guard.
fn guarded_cond(
    alloc: Global,
    parens: Parens,
    op: Binary,
    at: Spot,
    guarded: Guarded,
) -> Result<Cond, AllocError>
    ensures { IfOk result (λ c. cond_view c ≡ guard_cond parens.before (expr_view parens.test) parens.after (binary_view op) at (guarded_view guarded)) }
{
    if op == Binary::And {
        let guard = TrueGuard {
            before: parens.before,
            test: parens.test,
            after: parens.after,
            and: at,
            guard_before: guarded.before,
            guard: guarded.guard,
            guard_after: guarded.after,
        };
        return Ok(Cond::OnTrue(Boxed::new(alloc, guard)?));
    }
    let guard = FalseGuard {
        before: parens.before,
        test: parens.test,
        after: parens.after,
        or: at,
        guard_before: guarded.before,
        guard: guarded.guard,
        guard_after: guarded.after,
    };
    Ok(Cond::OnFalse(Boxed::new(alloc, guard)?))
}

// Behind an expression in parentheses.
#[tactic(auto, unfolding(crate::specs::Conds::test_cond))]
fn test_cond_of(
    cursor: &Cursor<'_>,
    alloc: Global,
    depth: u32,
    parens: Parens,
    at: usize,
) -> Result<(Cond, usize), ReadFault>
    requires { parens.left ≡ 200 - operators (expr_view parens.test) }
    ensures { Gives cond_view cursor.now.tokens result (test_cond depth parens.before (expr_view parens.test) parens.after (drop at cursor.now.tokens)) }
{
    let (continued, at) = continued_of(cursor, alloc, true, depth, parens, at)?;
    match continued {
        Continued::Plain(test) => Ok((Cond::Bare(test.expr), at)),
        Continued::Guarded {
            parens,
            op,
            at: op_at,
            guarded,
        } => Ok((guarded_cond(alloc, parens, op, op_at, guarded)?, at)),
    }
}

// `|| (cfix_leave(1), 0)`
fn or_guard_of(
    cursor: &Cursor<'_>,
    alloc: Global,
    at: usize,
) -> Result<((Spot, Guarded), usize), ReadFault>
    ensures { Gives or_view cursor.now.tokens result (or_guard (drop at cursor.now.tokens)) }
{
    let (or, at) = cursor.sign(Sign::OrOr, at)?;
    let (guarded, at) = guarded_of(cursor, alloc, 0, at)?;
    Ok(((or, guarded), at))
}

// The same, where `left` operators may still stand in the chain.
fn or_of(
    cursor: &Cursor<'_>,
    alloc: Global,
    depth: u32,
    left: u32,
    at: usize,
) -> Result<((Spot, Guarded), usize), ReadFault>
    requires { depth ≢ 0 }
    ensures { Gives or_view cursor.now.tokens result (or_tail_at depth left (drop at cursor.now.tokens)) }
{
    if left != 0 {
        return or_guard_of(cursor, alloc, at);
    }
    if cursor.is_sign(Sign::OrOr, at) {
        return Err(ReadFault::Deep(at));
    }
    Err(ReadFault::Unexpected(at))
}

/// A true guard in parentheses.
#[derive(Drop)]
struct Wrapped {
    before: Spot,
    guard: TrueGuard,
    after: Spot,
}

// The condition of a true guard in parentheses and a false one.
fn both(alloc: Global, inner: Wrapped, or: Spot, guarded: Guarded) -> Result<Cond, AllocError>
    ensures { IfOk result (λ c. cond_view c ≡ both_guards inner.before (true_guard_view inner.guard) inner.after (or, guarded_view guarded)) }
{
    let guard = BothGuard {
        before: inner.before,
        inner: inner.guard,
        after: inner.after,
        or,
        guard_before: guarded.before,
        guard: guarded.guard,
        guard_after: guarded.after,
    };
    Ok(Cond::OnBoth(Boxed::new(alloc, guard)?))
}

// Behind a true guard in parentheses.
#[tactic(auto, unfolding(crate::specs::Conds::both_cond))]
fn both_cond_of(
    cursor: &Cursor<'_>,
    alloc: Global,
    depth: u32,
    inner: Wrapped,
    left: u32,
    at: usize,
) -> Result<(Cond, usize), ReadFault>
    requires { depth ≢ 0 }
    ensures { Gives cond_view cursor.now.tokens result (both_cond depth inner.before (true_guard_view inner.guard) inner.after left (drop at cursor.now.tokens)) }
{
    let ((or, guarded), at) = or_of(cursor, alloc, depth, left, at)?;
    Ok((both(alloc, inner, or, guarded)?, at))
}

// From a parenthesis on, where `inside` more constructs may be nested in it.
#[tactic(auto, unfolding(crate::specs::Conds::paren_cond))]
fn paren_cond_of(
    cursor: &Cursor<'_>,
    alloc: Global,
    depth: u32,
    inside: u32,
    at: usize,
) -> Result<(Cond, usize), ReadFault>
    requires { depth ≢ 0 }
    ensures { Gives cond_view cursor.now.tokens result (paren_cond depth inside (drop at cursor.now.tokens)) }
{
    let (before, place) = cursor.sign(Sign::OpenParen, at)?;
    if cursor.is_word(Word::Int, place) {
        let (cond, at) = plain_cond_of(cursor, alloc, depth, at)?;
        return Ok((cond, at));
    }
    let (inner, at) = inner_of(cursor, alloc, inside, place)?;
    let (after, at) = cursor.sign(Sign::CloseParen, at)?;
    match inner {
        Inner::Test(Operand { expr, left }) => {
            let parens = Parens {
                before,
                test: expr,
                after,
                left,
            };
            let (cond, at) = test_cond_of(cursor, alloc, depth, parens, at)?;
            Ok((cond, at))
        }
        Inner::Guarded { guard, left } => {
            let inner = Wrapped {
                before,
                guard,
                after,
            };
            let (cond, at) = both_cond_of(cursor, alloc, depth, inner, left, at)?;
            Ok((cond, at))
        }
    }
}

/// A condition.
pub(crate) fn cond_of(
    cursor: &Cursor<'_>,
    alloc: Global,
    depth: u32,
    at: usize,
) -> Result<(Cond, usize), ReadFault>
    ensures { Gives cond_view cursor.now.tokens result (cond_at 200 depth (drop at cursor.now.tokens)) }
{
    if depth == 0 {
        return plain_cond_of(cursor, alloc, depth, at);
    }
    if cursor.is_sign(Sign::OpenParen, at) {
        return paren_cond_of(cursor, alloc, depth, depth - 1, at);
    }
    plain_cond_of(cursor, alloc, depth, at)
}
