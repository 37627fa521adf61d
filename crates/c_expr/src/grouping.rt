ghost use Rattle.std.specs.Prelude.{◌≡◌, IfOk};
ghost use Rattle.c_grammar.specs.Expr.{level};
ghost use Rattle.c_grammar.specs.Expr as g;
ghost use Rattle.c_reading.specs.ReadExpr.{append};
ghost use Rattle.c_raw.specs.Exprs.{binary_view, expr_view};

use c_raw::{Binary, Expr};
use cfix_base::{NoMemory, Spot};
use sqlite_items::Boxed;
use std::alloc::Global;

fn level(op: Binary) -> u32
    ensures { result ≡ level (binary_view op) }
{
    match op {
        Binary::Or => 1,
        Binary::And => 2,
        Binary::Equal | Binary::NotEqual => 3,
        Binary::Less | Binary::LessEqual | Binary::Greater | Binary::GreaterEqual => 4,
        Binary::Add | Binary::Subtract => 5,
        Binary::Multiply | Binary::Divide | Binary::Remainder => 6,
    }
}

fn operation(alloc: Global, left: Expr, op: Binary, at: Spot, right: Expr) -> Result<Expr, NoMemory>
    ensures { IfOk result (λ e. expr_view e ≡ g.Operation (expr_view left) (binary_view op) at (expr_view right)) }
{
    Ok(Expr::Operation {
        left: Boxed::new(alloc, left)?,
        op,
        at,
        right: Boxed::new(alloc, right)?,
    })
}

/// The expression with one binary operator more and its right operand. Recursion goes down the
/// right operands, whose operators bind more and more tightly, so it is at most six deep.
pub(crate) fn append(
    alloc: Global,
    expr: Expr,
    op: Binary,
    at: Spot,
    right: Expr,
) -> Result<Expr, NoMemory>
    ensures { IfOk result (λ e. expr_view e ≡ append (expr_view expr) (binary_view op) at (expr_view right)) }
{
    match expr {
        Expr::Operation {
            left,
            op: first,
            at: first_at,
            right: middle,
        } => {
            if level(first) < level(op) {
                let right = append(alloc, middle.into_inner(), op, at, right)?;
                operation(alloc, left.into_inner(), first, first_at, right)
            } else {
                let left = operation(
                    alloc,
                    left.into_inner(),
                    first,
                    first_at,
                    middle.into_inner(),
                )?;
                operation(alloc, left, op, at, right)
            }
        }
        expr => operation(alloc, expr, op, at, right),
    }
}
