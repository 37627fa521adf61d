ghost use Rattle.std.specs.Prelude.{◌≡◌, length};
ghost use Rattle.c_prog.specs.Patched.{has_some};
ghost use Rattle.c_prog.specs.Valid.Expressions.{is_number};
ghost use Rattle.first_form.specs.Form.{one_of, scalar, number_given, given_by, assigned, assigned_by, plain_act, plain_of, target_of, act_of};

use c_prog::{Act, Expr, How, Stmt, Target, Value, Var};
use cfix_base::{List, VarId};

/// A statement of the first form.
#[derive(Clone, Copy, Debug, PartialEq, Eq)]
pub enum Plain {
    /// `to = value;`
    SetNumber { to: VarId, value: i32 },
    /// `to = from;`
    SetVariable { to: VarId, from: VarId },
    /// The global, and `++;`.
    Up(VarId),
}

/// What is assigned.
#[derive(Clone, Copy, Debug, PartialEq, Eq)]
pub enum Given {
    Number(i32),
    Variable(VarId),
}

/// One of so many globals.
fn one_of(count: usize, var: Var) -> Option<VarId>
    ensures { result ≡ one_of count var }
{
    match var {
        Var::Global(id) => {
            if (id.number as usize) < count {
                Some(id)
            } else {
                None
            }
        }
        Var::Local(_) => None,
    }
}

/// One of so many globals, without an index.
fn scalar(count: usize, target: &Target) -> Option<VarId>
    ensures { result ≡ scalar count target.now }
{
    match &target.index {
        None => one_of(count, target.var),
        Some(_) => None,
    }
}

fn is_number(number: i32) -> bool
    ensures { result ≡ is_number number }
{
    number >= 0
}

fn number_given(number: i32) -> Option<Given>
    ensures { result ≡ number_given number }
{
    if is_number(number) {
        Some(Given::Number(number))
    } else {
        None
    }
}

/// What an expression is that is a number or a global.
#[tactic(auto, using(crate::proofs::Forms::read_scalar))]
fn given_by(count: usize, expr: &Expr) -> Option<Given>
    ensures { result ≡ given_by count expr.now }
{
    match expr {
        Expr::Number(number) => number_given(*number),
        Expr::Read(target) => match scalar(count, target) {
            Some(id) => Some(Given::Variable(id)),
            None => None,
        },
        _ => None,
    }
}

fn assigned(to: VarId, given: Given) -> Plain
    ensures { result ≡ assigned to given }
{
    match given {
        Given::Number(value) => Plain::SetNumber { to, value },
        Given::Variable(from) => Plain::SetVariable { to, from },
    }
}

fn assigned_by(count: usize, expr: &Expr, to: VarId) -> Option<Plain>
    ensures { result ≡ assigned_by count expr.now to }
{
    match given_by(count, expr) {
        Some(given) => Some(assigned(to, given)),
        None => None,
    }
}

/// What a simple statement does, if it is one of the three.
fn plain_act(count: usize, act: &Act) -> Option<Plain>
    ensures { result ≡ plain_act count act.now }
{
    match act {
        Act::Assign {
            target,
            how: How::Set,
            value: Value::Expr(expr),
        } => match scalar(count, target) {
            Some(to) => assigned_by(count, expr, to),
            None => None,
        },
        Act::Up(target) => match scalar(count, target) {
            Some(id) => Some(Plain::Up(id)),
            None => None,
        },
        _ => None,
    }
}

/// Whether a list has an item.
pub fn has_some<T>(list: &List<T>) -> bool
    ensures { result ≡ has_some list.now }
{
    list.len() > 0
}

/// A statement of the first form in a program with so many globals.
pub fn plain_of(count: usize, stmt: &Stmt) -> Option<Plain>
    ensures { result ≡ plain_of count stmt.now }
{
    match stmt {
        Stmt::Simple { act, after } => {
            if has_some(after) {
                None
            } else {
                plain_act(count, act)
            }
        }
        _ => None,
    }
}

/// The global variable with this number.
fn target_of(id: VarId) -> Target
    ensures { result ≡ target_of id }
{
    Target {
        var: Var::Global(id),
        index: None,
    }
}

/// What a statement of the first form does.
pub fn act_of(plain: Plain) -> Act
    ensures { result ≡ act_of plain }
{
    match plain {
        Plain::SetNumber { to, value } => Act::Assign {
            target: target_of(to),
            how: How::Set,
            value: Value::Expr(Expr::Number(value)),
        },
        Plain::SetVariable { to, from } => Act::Assign {
            target: target_of(to),
            how: How::Set,
            value: Value::Expr(Expr::Read(target_of(from))),
        },
        Plain::Up(id) => Act::Up(target_of(id)),
    }
}
