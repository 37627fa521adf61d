ghost use Rattle.std.specs.Prelude.{◌≡◌, ◌++◌, IfOk, OnOk};
ghost use Rattle.c_raw.specs.Exprs.{expr_view};
ghost use Rattle.c_raw.specs.Simples.{target_view, change_view, step_view, plain_view};
ghost use Rattle.c_names.specs.Faults.{noted_all};
ghost use Rattle.c_names.specs.Expressions.{expr_faults, int_target_faults};
ghost use Rattle.c_names.specs.Simples.{plain_faults};
ghost use Rattle.c_names.specs.SpelledExpressions.{expr_of, target_of, how_of, stepped, plain_of};
ghost use Rattle.c_names.specs.LinesExpressions.{expr_lines, index_lines, target_lines, plain_lines};
ghost use Rattle.c_scope.specs.Tables.{names_from};

use crate::exprs::resolve_expr;
use crate::targets::{resolve_int_target, touch_target};
use crate::walk::Walk;
use c_prog::{Act, How, Target, Value};
use c_raw::{Change, Plain, Step};
use c_scope::{Scope, Table};
use cfix_base::NoMemory;
use std::alloc::Global;

fn how_of(change: Change) -> How
    ensures { result ≡ how_of (change_view change) }
{
    match change {
        Change::AddTo => How::Add,
        Change::SubtractFrom => How::Sub,
        Change::MultiplyBy => How::Mul,
        Change::DivideBy => How::Div,
        Change::RemainderBy => How::Rem,
    }
}

fn stepped(step: Step, target: Target) -> Act
    ensures { result ≡ stepped (step_view step) target }
{
    match step {
        Step::Up => Act::Up(target),
        Step::Down => Act::Down(target),
    }
}

// A target and an expression.
#[tactic(auto, using(c_scope::proofs::Faults::faults))]
fn resolve_set(
    alloc: Global,
    names: &Table,
    scope: &Scope,
    walk: &mut Walk,
    target: &c_raw::Target,
    value: &c_raw::Expr,
) -> Result<Act, NoMemory>
    ensures built { IfOk result (λ a. a ≡ Act.Assign (target_of (names_from names.now) scope.now (target_view target.now)) How.Set (Value.Expr (expr_of (names_from names.now) scope.now (expr_view value.now)))) }
    ensures noted { OnOk result (walk.new.least ≡ noted_all walk.old.least (int_target_faults (names_from names.now) scope.now (target_view target.now) ++ expr_faults (names_from names.now) scope.now (expr_view value.now))) }
    ensures lined { OnOk result (walk.new.lines ≡ walk.old.lines ++ (index_lines (names_from names.now) scope.now (target_view target.now) ++ (expr_lines (names_from names.now) scope.now (expr_view value.now) ++ target_lines (names_from names.now) scope.now (target_view target.now)))) }
{
    let to = resolve_int_target(alloc, names, scope, walk, target)?;
    let from = resolve_expr(alloc, names, scope, walk, value)?;
    touch_target(names, scope, &mut walk.lines, target)?;
    Ok(Act::Assign {
        target: to,
        how: How::Set,
        value: Value::Expr(from),
    })
}

// A compound assignment reads its target before its right side.
#[tactic(auto, using(c_scope::proofs::Faults::faults))]
fn resolve_changed(
    alloc: Global,
    names: &Table,
    scope: &Scope,
    walk: &mut Walk,
    target: &c_raw::Target,
    change: Change,
    value: &c_raw::Expr,
) -> Result<Act, NoMemory>
    ensures built { IfOk result (λ a. a ≡ Act.Assign (target_of (names_from names.now) scope.now (target_view target.now)) (how_of (change_view change)) (Value.Expr (expr_of (names_from names.now) scope.now (expr_view value.now)))) }
    ensures noted { OnOk result (walk.new.least ≡ noted_all walk.old.least (int_target_faults (names_from names.now) scope.now (target_view target.now) ++ expr_faults (names_from names.now) scope.now (expr_view value.now))) }
    ensures lined { OnOk result (walk.new.lines ≡ walk.old.lines ++ (index_lines (names_from names.now) scope.now (target_view target.now) ++ (target_lines (names_from names.now) scope.now (target_view target.now) ++ (expr_lines (names_from names.now) scope.now (expr_view value.now) ++ target_lines (names_from names.now) scope.now (target_view target.now))))) }
{
    let to = resolve_int_target(alloc, names, scope, walk, target)?;
    touch_target(names, scope, &mut walk.lines, target)?;
    let from = resolve_expr(alloc, names, scope, walk, value)?;
    touch_target(names, scope, &mut walk.lines, target)?;
    Ok(Act::Assign {
        target: to,
        how: how_of(change),
        value: Value::Expr(from),
    })
}

// `++` or `--`, before or behind its target.
#[tactic(auto, using(c_scope::proofs::Faults::faults))]
fn resolve_stepped(
    alloc: Global,
    names: &Table,
    scope: &Scope,
    walk: &mut Walk,
    target: &c_raw::Target,
    step: Step,
) -> Result<Act, NoMemory>
    ensures built { IfOk result (λ a. a ≡ stepped (step_view step) (target_of (names_from names.now) scope.now (target_view target.now))) }
    ensures noted { OnOk result (walk.new.least ≡ noted_all walk.old.least (int_target_faults (names_from names.now) scope.now (target_view target.now))) }
    ensures lined { OnOk result (walk.new.lines ≡ walk.old.lines ++ (index_lines (names_from names.now) scope.now (target_view target.now) ++ (target_lines (names_from names.now) scope.now (target_view target.now) ++ target_lines (names_from names.now) scope.now (target_view target.now)))) }
{
    let of = resolve_int_target(alloc, names, scope, walk, target)?;
    touch_target(names, scope, &mut walk.lines, target)?;
    touch_target(names, scope, &mut walk.lines, target)?;
    Ok(stepped(step, of))
}

/// An assignment of an expression, `++` or `--`.
pub fn resolve_plain(
    alloc: Global,
    names: &Table,
    scope: &Scope,
    walk: &mut Walk,
    raw: &Plain,
) -> Result<Act, NoMemory>
    ensures built { IfOk result (λ a. a ≡ plain_of (names_from names.now) scope.now (plain_view raw.now)) }
    ensures noted { OnOk result (walk.new.least ≡ noted_all walk.old.least (plain_faults (names_from names.now) scope.now (plain_view raw.now))) }
    ensures lined { OnOk result (walk.new.lines ≡ walk.old.lines ++ plain_lines (names_from names.now) scope.now (plain_view raw.now)) }
{
    match raw {
        Plain::SetTo { target, value, .. } => {
            resolve_set(alloc, names, scope, walk, target, value)
        }
        Plain::Changed {
            target,
            how,
            value,
            ..
        } => resolve_changed(alloc, names, scope, walk, target, *how, value),
        Plain::SteppedAfter { target, step, .. } | Plain::SteppedBefore { target, step, .. } => {
            resolve_stepped(alloc, names, scope, walk, target, *step)
        }
    }
}
