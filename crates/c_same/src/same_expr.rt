ghost use Rattle.std.specs.Prelude.{◌≡◌, ◌↔◌, IsTrue, length};

use c_prog::{CallForm, Expr, Target, Value};

/// Whether two expressions are equal.
#[cycle(same)]
pub fn same_expr(a: &Expr, b: &Expr) -> bool
    ensures { IsTrue result ↔ (a.now ≡ b.now) }
{
    match (a, b) {
        (Expr::Number(m), Expr::Number(n)) => *m == *n,
        (Expr::Read(s), Expr::Read(t)) => same_target(s, t),
        (Expr::Cast(m), Expr::Cast(n)) => *m == *n,
        (Expr::Neg(d), Expr::Neg(e)) => same_expr(d.get(), e.get()),
        (Expr::Not(d), Expr::Not(e)) => same_expr(d.get(), e.get()),
        (
            Expr::Binary { op, left, right },
            Expr::Binary {
                op: other_op,
                left: other_left,
                right: other_right,
            },
        ) => {
            *op == *other_op
                && same_expr(left.get(), other_left.get())
                && same_expr(right.get(), other_right.get())
        }
        _ => false,
    }
}

/// Whether two variables or elements are equal.
#[cycle(same)]
pub fn same_target(a: &Target, b: &Target) -> bool
    ensures { IsTrue result ↔ (a.now ≡ b.now) }
{
    a.var == b.var
        && match (&a.index, &b.index) {
            (None, None) => true,
            (Some(d), Some(e)) => same_expr(d.get(), e.get()),
            _ => false,
        }
}

/// Whether arguments are equal.
pub fn same_args(a: &[Expr], b: &[Expr]) -> bool
    ensures { IsTrue result ↔ (a.now ≡ b.now) }
{
    if a.len() != b.len() {
        return false;
    }
    for i in 0..a.len() {
        if !same_expr(&a[i], &b[i]) {
            return false;
        }
    }
    true
}

/// Whether two calls are equal.
pub fn same_call(a: &CallForm, b: &CallForm) -> bool
    ensures { IsTrue result ↔ (a.now ≡ b.now) }
{
    a.of == b.of && same_args(a.args.as_slice(), b.args.as_slice())
}

/// Whether two values are equal.
pub fn same_value(a: &Value, b: &Value) -> bool
    ensures { IsTrue result ↔ (a.now ≡ b.now) }
{
    match (a, b) {
        (Value::Expr(d), Value::Expr(e)) => same_expr(d, e),
        (Value::Call(c), Value::Call(d)) => same_call(c, d),
        _ => false,
    }
}
