ghost use Rattle.std.specs.Prelude.{◌≡◌, drop, IfOk};
ghost use Rattle.c_reading.specs.Read.{commas};
ghost use Rattle.c_reading.specs.ReadExpr.{expr_at};
ghost use Rattle.c_reading.specs.ReadSimple.{args_at, call_tail_at, call_from};
ghost use Rattle.c_raw.specs.Tokens.{ident_view};
ghost use Rattle.c_raw.specs.Simples.{more_view, args_view, call_view};
ghost use Rattle.c_cursor.specs.Gives.{Gives};
ghost use Rattle.c_expr.specs.Parts.{tail_view};

use crate::expressions::expr;
use crate::signs::begins_expr;
use c_cursor::{Cursor, ReadFault};
use c_grammar::Sign;
use c_raw::{Args, Call, Expr, Ident};
use cfix_base::{List, Spot};
use sqlite_items::Boxed;
use std::alloc::Global;

/// `(args)`, behind the name of a function.
#[derive(Drop)]
pub struct CallTail {
    pub before: Spot,
    pub args: Option<Boxed<Args>>,
    pub after: Spot,
}

/// Expressions, each with the comma before it.
pub(crate) fn more_exprs(
    cursor: &Cursor<'_>,
    alloc: Global,
    depth: u32,
    at: usize,
) -> Result<(List<(Spot, Expr)>, usize), ReadFault>
    ensures { Gives more_view cursor.now.tokens result (commas (expr_at depth 200) (drop at cursor.now.tokens)) }
{
    let mut more = List::new(alloc);
    let mut at = at;
    for _turn in 0..cursor.left(at) {
        if !cursor.is_sign(Sign::Comma, at) {
            return Ok((more, at));
        }
        let (comma, next) = cursor.sign(Sign::Comma, at)?;
        let (item, next) = expr(cursor, alloc, depth, next)?;
        more.push((comma, item))?;
        at = next;
    }
    Ok((more, at))
}

/// The arguments of a call, if it has some.
pub fn args(
    cursor: &Cursor<'_>,
    alloc: Global,
    depth: u32,
    at: usize,
) -> Result<(Option<Boxed<Args>>, usize), ReadFault>
    ensures { Gives args_view cursor.now.tokens result (args_at 200 depth (drop at cursor.now.tokens)) }
{
    if !begins_expr(cursor, at) {
        return Ok((None, at));
    }
    let (first, at) = expr(cursor, alloc, depth, at)?;
    let (more, at) = more_exprs(cursor, alloc, depth, at)?;
    let args = Boxed::new(alloc, Args { first, more })?;
    Ok((Some(args), at))
}

/// The parentheses of a call with its arguments.
pub fn call_tail(
    cursor: &Cursor<'_>,
    alloc: Global,
    depth: u32,
    at: usize,
) -> Result<(CallTail, usize), ReadFault>
    ensures { Gives tail_view cursor.now.tokens result (call_tail_at 200 depth (drop at cursor.now.tokens)) }
{
    let (before, at) = cursor.sign(Sign::OpenParen, at)?;
    let (args, at) = args(cursor, alloc, depth, at)?;
    let (after, at) = cursor.sign(Sign::CloseParen, at)?;
    Ok((
        CallTail {
            before,
            args,
            after,
        },
        at,
    ))
}

/// The call of the function with this name.
pub fn call_of(name: Ident, tail: CallTail) -> Call
    ensures { call_view result ≡ call_from (ident_view name, tail_view tail) }
{
    let CallTail {
        before,
        args,
        after,
    } = tail;
    Call {
        name,
        before,
        args,
        after,
    }
}
