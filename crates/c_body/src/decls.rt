ghost use Rattle.std.specs.Prelude.{◌≡◌, [], ◌∷◌, ◌++◌, ◌+◌, ◌<◌, ◌^◌, map, length, Some, IfOk, OnOk};
ghost use Rattle.c_raw.specs.Decls.{hold_view, more_holds_view, local_int_view, more_local_ints_view, decl_view, loop_int_view, more_loop_ints_view};
ghost use Rattle.c_raw.specs.Stmts.{first_view, first_part_view, loop_step_view, step_part_view};
ghost use Rattle.c_names.specs.Faults.{noted_all};
ghost use Rattle.c_names.specs.Scopes.{local_int_declared, hold_declared, loop_int_declared, with_local, with_locals, listed, decl_declared, first_declared};
ghost use Rattle.c_names.specs.Statements.{local_ints_faults, holds_faults, decl_faults, loop_ints_faults, first_faults, step_faults};
ghost use Rattle.c_names.specs.SpelledStatements.{local_ints_of, hold_of, decl_of, loop_ints_of, with_ops, first_of, step_of};
ghost use Rattle.c_names.specs.LinesStatements.{local_ints_lines, decl_lines, loop_ints_lines, first_lines, step_lines};
ghost use Rattle.c_scope.specs.Tables.{names_from};

use crate::declarators::{resolve_hold, resolve_local_int, resolve_loop_int};
use crate::ops::{more_ops_of, note_more_ops};
use crate::plain::resolve_plain;
use crate::walk::Walk;
use c_names::Fault;
use c_prog::{Act, Step, Stmt};
use c_raw::{Decl, First, Hold, LocalInt, LoopInt, LoopStep};
use c_scope::{Scope, Table};
use cfix_base::{List, NoMemory, Op, Spot};
use sqlite_items::Items;
use std::alloc::Global;
use std::mem;

// Declarators of type `int`; the operations stand behind the last.
#[tactic(auto, using(c_scope::proofs::Faults::faults))]
fn resolve_ints(
    alloc: Global,
    names: &Table,
    scope: &mut Scope,
    walk: &mut Walk,
    first: &LocalInt,
    more: &[(Spot, LocalInt)],
    after: List<Op>,
) -> Result<Items<Stmt>, NoMemory>
    requires fits { scope.old.count + (length more.now + 1) < 2 ^ 32 }
    ensures built { IfOk result (λ l. l ≡ with_ops (local_ints_of (names_from names.now) scope.old (listed (local_int_view first.now) (more_local_ints_view more.now))) after) }
    ensures noted { OnOk result (walk.new.least ≡ noted_all walk.old.least (local_ints_faults (names_from names.now) scope.old (listed (local_int_view first.now) (more_local_ints_view more.now)))) }
    ensures lined { OnOk result (walk.new.lines ≡ walk.old.lines ++ local_ints_lines (names_from names.now) scope.old (listed (local_int_view first.now) (more_local_ints_view more.now))) }
    ensures seen { OnOk result (scope.new ≡ with_locals (map local_int_declared (listed (local_int_view first.now) (more_local_ints_view more.now))) scope.old) }
{
    let mut stmts = Items::new(alloc);
    let mut last = resolve_local_int(alloc, names, scope, walk, first)?;
    for next in more {
        let act = resolve_local_int(alloc, names, scope, walk, &next.1)?;
        let act = mem::replace(&mut last, act);
        let after = List::new(alloc);
        stmts.push(Stmt::Simple { act, after })?;
    }
    stmts.push(Stmt::Simple { act: last, after })?;
    Ok(stmts)
}

// Declarators of type `pthread_t`; the operations stand behind the last.
#[tactic(auto, using(c_scope::proofs::Faults::faults))]
fn resolve_holds(
    alloc: Global,
    names: &Table,
    scope: &mut Scope,
    least: &mut Option<Fault>,
    first: &Hold,
    more: &[(Spot, Hold)],
    after: List<Op>,
) -> Result<Items<Stmt>, NoMemory>
    requires fits { scope.old.count + (length more.now + 1) < 2 ^ 32 }
    ensures built { IfOk result (λ l. l ≡ with_ops (map (hold_of (names_from names.now)) (listed (hold_view first.now) (more_holds_view more.now))) after) }
    ensures noted { OnOk result (least.new ≡ noted_all least.old (holds_faults (names_from names.now) scope.old (listed (hold_view first.now) (more_holds_view more.now)))) }
    ensures seen { OnOk result (scope.new ≡ with_locals (map hold_declared (listed (hold_view first.now) (more_holds_view more.now))) scope.old) }
{
    let mut stmts = Items::new(alloc);
    let mut last = resolve_hold(alloc, names, scope, least, first)?;
    for next in more {
        let act = resolve_hold(alloc, names, scope, least, &next.1)?;
        let act = mem::replace(&mut last, act);
        let after = List::new(alloc);
        stmts.push(Stmt::Simple { act, after })?;
    }
    stmts.push(Stmt::Simple { act: last, after })?;
    Ok(stmts)
}

/// A declaration of locals, with the operations behind it.
#[tactic(auto, using(crate::proofs::Lists::seconds))]
pub fn resolve_decl(
    alloc: Global,
    names: &Table,
    scope: &mut Scope,
    walk: &mut Walk,
    raw: &Decl,
    after: List<Op>,
) -> Result<Items<Stmt>, NoMemory>
    requires fits { scope.old.count + length (decl_declared (decl_view raw.now)) < 2 ^ 32 }
    ensures built { IfOk result (λ l. l ≡ with_ops (decl_of (names_from names.now) scope.old (decl_view raw.now)) after) }
    ensures noted { OnOk result (walk.new.least ≡ noted_all walk.old.least (decl_faults (names_from names.now) scope.old (decl_view raw.now))) }
    ensures lined { OnOk result (walk.new.lines ≡ walk.old.lines ++ decl_lines (names_from names.now) scope.old (decl_view raw.now)) }
    ensures seen { OnOk result (scope.new ≡ with_locals (decl_declared (decl_view raw.now)) scope.old) }
{
    match raw {
        Decl::Ints { first, more, .. } => {
            resolve_ints(alloc, names, scope, walk, first, more.as_slice(), after)
        }
        Decl::Holds { first, more, .. } => {
            let least = &mut walk.least;
            resolve_holds(alloc, names, scope, least, first, more.as_slice(), after)
        }
    }
}

// The declarators in the first part of a `for`.
#[tactic(auto, using(c_scope::proofs::Faults::faults))]
fn resolve_loop_ints(
    alloc: Global,
    names: &Table,
    scope: &mut Scope,
    walk: &mut Walk,
    first: &LoopInt,
    more: &[(Spot, LoopInt)],
) -> Result<Items<Stmt>, NoMemory>
    requires fits { scope.old.count + (length more.now + 1) < 2 ^ 32 }
    ensures built { IfOk result (λ l. l ≡ with_ops (loop_ints_of (names_from names.now) scope.old (listed (loop_int_view first.now) (more_loop_ints_view more.now))) []) }
    ensures noted { OnOk result (walk.new.least ≡ noted_all walk.old.least (loop_ints_faults (names_from names.now) scope.old (listed (loop_int_view first.now) (more_loop_ints_view more.now)))) }
    ensures lined { OnOk result (walk.new.lines ≡ walk.old.lines ++ loop_ints_lines (names_from names.now) scope.old (listed (loop_int_view first.now) (more_loop_ints_view more.now))) }
    ensures seen { OnOk result (scope.new ≡ with_locals (map loop_int_declared (listed (loop_int_view first.now) (more_loop_ints_view more.now))) scope.old) }
{
    let mut stmts = Items::new(alloc);
    let mut last = resolve_loop_int(alloc, names, scope, walk, first)?;
    for next in more {
        let act = resolve_loop_int(alloc, names, scope, walk, &next.1)?;
        let act = mem::replace(&mut last, act);
        let after = List::new(alloc);
        stmts.push(Stmt::Simple { act, after })?;
    }
    let after = List::new(alloc);
    stmts.push(Stmt::Simple { act: last, after })?;
    Ok(stmts)
}

/// The first part of a `for`, in the block of the `for`.
#[tactic(auto, using(crate::proofs::Lists::seconds))]
pub fn resolve_first(
    alloc: Global,
    names: &Table,
    scope: &mut Scope,
    walk: &mut Walk,
    raw: &First,
) -> Result<Items<Stmt>, NoMemory>
    requires fits { scope.old.count + length (first_declared (Some (first_view raw.now))) < 2 ^ 32 }
    ensures built { IfOk result (λ l. l ≡ first_of (names_from names.now) scope.old (first_view raw.now)) }
    ensures noted { OnOk result (walk.new.least ≡ noted_all walk.old.least (first_faults (names_from names.now) scope.old (Some (first_view raw.now)))) }
    ensures lined { OnOk result (walk.new.lines ≡ walk.old.lines ++ first_lines (names_from names.now) scope.old (Some (first_view raw.now))) }
    ensures seen { OnOk result (scope.new ≡ with_locals (first_declared (Some (first_view raw.now))) scope.old) }
{
    match raw {
        First::Ints { first, more, .. } => {
            resolve_loop_ints(alloc, names, scope, walk, first, more.as_slice())
        }
        First::Plain(plain) => {
            let act = resolve_plain(alloc, names, scope, walk, plain)?;
            let after = List::new(alloc);
            one(alloc, Stmt::Simple { act, after })
        }
    }
}

/// One statement.
pub fn one(alloc: Global, stmt: Stmt) -> Result<Items<Stmt>, NoMemory>
    ensures { IfOk result (λ l. l ≡ stmt ∷ []) }
{
    let mut stmts = Items::new(alloc);
    stmts.push(stmt)?;
    Ok(stmts)
}

/// The step of a `for` with its operations, if there is one.
#[tactic(auto, using(c_scope::proofs::Faults::faults))]
pub fn resolve_step(
    alloc: Global,
    names: &Table,
    scope: &Scope,
    walk: &mut Walk,
    raw: &Option<LoopStep>,
) -> Result<Option<Step>, NoMemory>
    ensures built { IfOk result (λ s. s ≡ step_of (names_from names.now) scope.now (step_part_view raw.now)) }
    ensures noted { OnOk result (walk.new.least ≡ noted_all walk.old.least (step_faults (names_from names.now) scope.now (step_part_view raw.now))) }
    ensures lined { OnOk result (walk.new.lines ≡ walk.old.lines ++ step_lines (names_from names.now) scope.now (step_part_view raw.now)) }
{
    match raw {
        None => Ok(None),
        Some(step) => {
            let act = resolve_plain(alloc, names, scope, walk, &step.plain)?;
            note_more_ops(&mut walk.least, step.ops.as_slice());
            let after = more_ops_of(alloc, step.ops.as_slice())?;
            Ok(Some(Step { act, after }))
        }
    }
}
