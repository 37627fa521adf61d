ghost use Rattle.std.specs.Prelude.{◌≡◌, ◌↔◌, IsTrue, length};

use crate::same_act::{same_act, same_jump};
use crate::same_expr::same_expr;
use c_prog::{Cond, Step, Stmt};
use cfix_base::{List, Op};

/// Whether two lists of operations are equal.
pub fn same_ops(a: &List<Op>, b: &List<Op>) -> bool
    ensures { IsTrue result ↔ (a.now ≡ b.now) }
{
    same_op_slices(a.as_slice(), b.as_slice())
}

fn same_op_slices(a: &[Op], b: &[Op]) -> bool
    ensures { IsTrue result ↔ (a.now ≡ b.now) }
{
    if a.len() != b.len() {
        return false;
    }
    for i in 0..a.len() {
        if a[i] != b[i] {
            return false;
        }
    }
    true
}

fn same_cond(a: &Cond, b: &Cond) -> bool
    ensures { IsTrue result ↔ (a.now ≡ b.now) }
{
    same_expr(&a.test, &b.test)
        && same_ops(&a.on_true, &b.on_true)
        && same_ops(&a.on_false, &b.on_false)
}

fn same_step(a: &Option<Step>, b: &Option<Step>) -> bool
    ensures { IsTrue result ↔ (a.now ≡ b.now) }
{
    match (a, b) {
        (None, None) => true,
        (Some(s), Some(t)) => same_act(&s.act, &t.act) && same_ops(&s.after, &t.after),
        _ => false,
    }
}

#[cycle(same)]
fn same_stmt(a: &Stmt, b: &Stmt) -> bool
    ensures { IsTrue result ↔ (a.now ≡ b.now) }
{
    match (a, b) {
        (
            Stmt::Simple { act, after },
            Stmt::Simple {
                act: other,
                after: ops,
            },
        ) => same_act(act, other) && same_ops(after, ops),
        (
            Stmt::Jump { jump, after },
            Stmt::Jump {
                jump: other,
                after: ops,
            },
        ) => same_jump(jump, other) && same_ops(after, ops),
        (
            Stmt::If { cond, yes, no },
            Stmt::If {
                cond: c,
                yes: y,
                no: n,
            },
        ) => {
            same_cond(cond, c)
                && same_stmts(yes.as_slice(), y.as_slice())
                && same_stmts(no.as_slice(), n.as_slice())
        }
        (
            Stmt::Loop { cond, step, body },
            Stmt::Loop {
                cond: c,
                step: s,
                body: b,
            },
        ) => {
            same_cond(cond, c) && same_step(step, s) && same_stmts(body.as_slice(), b.as_slice())
        }
        (Stmt::Block(body), Stmt::Block(other)) => same_stmts(body.as_slice(), other.as_slice()),
        _ => false,
    }
}

/// Whether statements are equal.
#[cycle(same)]
pub fn same_stmts(a: &[Stmt], b: &[Stmt]) -> bool
    ensures { IsTrue result ↔ (a.now ≡ b.now) }
{
    if a.len() != b.len() {
        return false;
    }
    for i in 0..a.len() {
        if !same_stmt(&a[i], &b[i]) {
            return false;
        }
    }
    true
}
