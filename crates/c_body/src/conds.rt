ghost use Rattle.std.specs.Prelude.{◌≡◌, ◌∷◌, ◌++◌, IfOk, OnOk};
ghost use Rattle.c_raw.specs.Ops.{op_view, ops_view};
ghost use Rattle.c_raw.specs.Conds.{guard_view, true_guard_view, false_guard_view, both_guard_view, cond_view};
ghost use Rattle.c_raw.specs.Stmts.{cond_part_view};
ghost use Rattle.c_grammar.specs.Cond as g;
ghost use Rattle.c_names.specs.Faults.{noted_all};
ghost use Rattle.c_names.specs.Simples.{op_faults, ops_faults};
ghost use Rattle.c_names.specs.Statements.{guard_faults, cond_faults, test_faults};
ghost use Rattle.c_names.specs.SpelledStatements.{op_of, ops_of, guard_of, cond_of, test_of};
ghost use Rattle.c_names.specs.LinesStatements.{cond_lines, test_lines};
ghost use Rattle.c_scope.specs.Tables.{names_from};

use crate::exprs::resolve_expr;
use crate::ops::{note_op, note_ops, op_of};
use crate::walk::Walk;
use c_names::Fault;
use c_prog::{Cond, Expr};
use c_raw::{BothGuard, FalseGuard, Guard, TrueGuard};
use c_scope::{Scope, Table};
use cfix_base::{List, NoMemory, Op, Spot};
use std::alloc::Global;

fn push_ops(ops: &mut List<Op>, raw: &[(c_raw::Op, Spot)]) -> Result<(), NoMemory>
    ensures { OnOk result (ops.new ≡ ops.old ++ ops_of (ops_view raw.now)) }
{
    for next in raw {
        ops.push(op_of(&next.0))?;
    }
    Ok(())
}

/// One operation and those behind it, with their faults.
#[tactic(auto, using(c_scope::proofs::Faults::faults))]
pub fn resolve_op_list(
    alloc: Global,
    least: &mut Option<Fault>,
    first: &c_raw::Op,
    more: &[(c_raw::Op, Spot)],
) -> Result<List<Op>, NoMemory>
    ensures built { IfOk result (λ l. l ≡ op_of (op_view first.now) ∷ ops_of (ops_view more.now)) }
    ensures noted { OnOk result (least.new ≡ noted_all least.old (op_faults (op_view first.now) ++ ops_faults (ops_view more.now))) }
{
    note_op(least, first);
    note_ops(least, more);
    let mut ops = List::new(alloc);
    ops.push(op_of(first))?;
    push_ops(&mut ops, more)?;
    Ok(ops)
}

fn resolve_guard(
    alloc: Global,
    least: &mut Option<Fault>,
    raw: &Guard,
) -> Result<List<Op>, NoMemory>
    ensures built { IfOk result (λ l. l ≡ guard_of (guard_view raw.now)) }
    ensures noted { OnOk result (least.new ≡ noted_all least.old (guard_faults (guard_view raw.now))) }
{
    resolve_op_list(alloc, least, &raw.first, raw.more.as_slice())
}

#[tactic(auto, using(c_scope::proofs::Faults::faults))]
fn resolve_on_true(
    alloc: Global,
    names: &Table,
    scope: &Scope,
    walk: &mut Walk,
    raw: &TrueGuard,
) -> Result<Cond, NoMemory>
    ensures built { IfOk result (λ c. c ≡ cond_of (names_from names.now) scope.now (g.OnTrue (true_guard_view raw.now))) }
    ensures noted { OnOk result (walk.new.least ≡ noted_all walk.old.least (cond_faults (names_from names.now) scope.now (g.OnTrue (true_guard_view raw.now)))) }
    ensures lined { OnOk result (walk.new.lines ≡ walk.old.lines ++ cond_lines (names_from names.now) scope.now (g.OnTrue (true_guard_view raw.now))) }
{
    let test = resolve_expr(alloc, names, scope, walk, &raw.test)?;
    let on_true = resolve_guard(alloc, &mut walk.least, &raw.guard)?;
    let on_false = List::new(alloc);
    Ok(Cond {
        test,
        on_true,
        on_false,
    })
}

#[tactic(auto, using(c_scope::proofs::Faults::faults))]
fn resolve_on_false(
    alloc: Global,
    names: &Table,
    scope: &Scope,
    walk: &mut Walk,
    raw: &FalseGuard,
) -> Result<Cond, NoMemory>
    ensures built { IfOk result (λ c. c ≡ cond_of (names_from names.now) scope.now (false_guard_view raw.now)) }
    ensures noted { OnOk result (walk.new.least ≡ noted_all walk.old.least (cond_faults (names_from names.now) scope.now (false_guard_view raw.now))) }
    ensures lined { OnOk result (walk.new.lines ≡ walk.old.lines ++ cond_lines (names_from names.now) scope.now (false_guard_view raw.now)) }
{
    let test = resolve_expr(alloc, names, scope, walk, &raw.test)?;
    let on_true = List::new(alloc);
    let on_false = resolve_guard(alloc, &mut walk.least, &raw.guard)?;
    Ok(Cond {
        test,
        on_true,
        on_false,
    })
}

#[tactic(auto, using(c_scope::proofs::Faults::faults))]
fn resolve_on_both(
    alloc: Global,
    names: &Table,
    scope: &Scope,
    walk: &mut Walk,
    raw: &BothGuard,
) -> Result<Cond, NoMemory>
    ensures built { IfOk result (λ c. c ≡ cond_of (names_from names.now) scope.now (both_guard_view raw.now)) }
    ensures noted { OnOk result (walk.new.least ≡ noted_all walk.old.least (cond_faults (names_from names.now) scope.now (both_guard_view raw.now))) }
    ensures lined { OnOk result (walk.new.lines ≡ walk.old.lines ++ cond_lines (names_from names.now) scope.now (both_guard_view raw.now)) }
{
    let test = resolve_expr(alloc, names, scope, walk, &raw.inner.test)?;
    let on_true = resolve_guard(alloc, &mut walk.least, &raw.inner.guard)?;
    let on_false = resolve_guard(alloc, &mut walk.least, &raw.guard)?;
    Ok(Cond {
        test,
        on_true,
        on_false,
    })
}

/// A condition with its operations.
pub fn resolve_cond(
    alloc: Global,
    names: &Table,
    scope: &Scope,
    walk: &mut Walk,
    raw: &c_raw::Cond,
) -> Result<Cond, NoMemory>
    ensures built { IfOk result (λ c. c ≡ cond_of (names_from names.now) scope.now (cond_view raw.now)) }
    ensures noted { OnOk result (walk.new.least ≡ noted_all walk.old.least (cond_faults (names_from names.now) scope.now (cond_view raw.now))) }
    ensures lined { OnOk result (walk.new.lines ≡ walk.old.lines ++ cond_lines (names_from names.now) scope.now (cond_view raw.now)) }
{
    match raw {
        c_raw::Cond::Bare(test) => {
            let test = resolve_expr(alloc, names, scope, walk, test)?;
            let on_true = List::new(alloc);
            let on_false = List::new(alloc);
            Ok(Cond {
                test,
                on_true,
                on_false,
            })
        }
        c_raw::Cond::OnTrue(guard) => resolve_on_true(alloc, names, scope, walk, guard.get()),
        c_raw::Cond::OnFalse(guard) => resolve_on_false(alloc, names, scope, walk, guard.get()),
        c_raw::Cond::OnBoth(guard) => resolve_on_both(alloc, names, scope, walk, guard.get()),
    }
}

/// The condition of a `for`; one that is absent is 1.
pub fn resolve_test(
    alloc: Global,
    names: &Table,
    scope: &Scope,
    walk: &mut Walk,
    raw: &Option<c_raw::Cond>,
) -> Result<Cond, NoMemory>
    ensures built { IfOk result (λ c. c ≡ test_of (names_from names.now) scope.now (cond_part_view raw.now)) }
    ensures noted { OnOk result (walk.new.least ≡ noted_all walk.old.least (test_faults (names_from names.now) scope.now (cond_part_view raw.now))) }
    ensures lined { OnOk result (walk.new.lines ≡ walk.old.lines ++ test_lines (names_from names.now) scope.now (cond_part_view raw.now)) }
{
    match raw {
        None => Ok(Cond {
            test: Expr::Number(1),
            on_true: List::new(alloc),
            on_false: List::new(alloc),
        }),
        Some(cond) => resolve_cond(alloc, names, scope, walk, cond),
    }
}
