ghost use Rattle.std.specs.Prelude.{◌≡◌, [], ◌∷◌, ◌++◌, ◌+◌, ◌<◌, ◌^◌, length, option_map, IfOk, OnOk};
ghost use Rattle.c_raw.specs.Decls.{decl_view};
ghost use Rattle.c_raw.specs.Ops.{ops_view};
ghost use Rattle.c_raw.specs.Simples.{simple_view};
ghost use Rattle.c_raw.specs.Stmts.{else_from, for_view, stmt_view, else_view, item_view, items_view, first_part_view};
ghost use Rattle.c_prog.specs.Valid.Scope.{entered, passed};
ghost use Rattle.c_names.specs.Faults.{noted_all};
ghost use Rattle.c_names.specs.Simples.{ops_faults, simple_faults};
ghost use Rattle.c_names.specs.Scopes.{decl_declared, first_declared, with_locals, stmt_locals, else_locals, items_locals, item_locals, item_after};
ghost use Rattle.c_names.specs.Statements.{decl_faults, first_faults, stmt_faults, else_faults, items_faults, item_faults};
ghost use Rattle.c_names.specs.SpelledExpressions.{simple_of};
ghost use Rattle.c_names.specs.SpelledStatements.{ops_of, decl_of, with_ops, first_of, stmt_of, else_of, items_of, item_of, as_item};
ghost use Rattle.c_names.specs.LinesExpressions.{simple_lines};
ghost use Rattle.c_names.specs.LinesStatements.{decl_lines, first_lines, stmt_lines, else_lines, items_lines, item_lines};
ghost use Rattle.c_scope.specs.Tables.{names_from};
ghost use Rattle.c_body.specs.Views.{around_view};
ghost use Rattle.c_body.specs.After.{with_first, items_after};

use crate::around::Around;
use crate::conds::{resolve_cond, resolve_test};
use crate::decls::{one, resolve_decl, resolve_first, resolve_step};
use crate::jumps::resolve_jump;
use crate::ops::{note_ops, ops_of};
use crate::simple::resolve_simple;
use crate::walk::Walk;
use c_prog::Stmt;
use c_raw::{Decl, Else, First, Item, LoopHead, Simple, Test};
use c_scope::{Scope, Table};
use cfix_base::{NoMemory, Spot};
use sqlite_items::Items;
use std::alloc::Global;

// A simple statement, with the operations behind it.
#[tactic(auto, using(c_scope::proofs::Faults::faults))]
fn resolve_simply(
    alloc: Global,
    names: &Table,
    scope: &Scope,
    walk: &mut Walk,
    raw: &Simple,
    ops: &[(c_raw::Op, Spot)],
) -> Result<Items<Stmt>, NoMemory>
    ensures built { IfOk result (λ l. l ≡ Stmt.Simple (simple_of (names_from names.now) scope.now (simple_view raw.now)) (ops_of (ops_view ops.now)) ∷ []) }
    ensures noted { OnOk result (walk.new.least ≡ noted_all walk.old.least (simple_faults (names_from names.now) scope.now (simple_view raw.now) ++ ops_faults (ops_view ops.now))) }
    ensures lined { OnOk result (walk.new.lines ≡ walk.old.lines ++ simple_lines (names_from names.now) scope.now (simple_view raw.now)) }
{
    let act = resolve_simple(alloc, names, scope, walk, raw)?;
    note_ops(&mut walk.least, ops);
    let after = ops_of(alloc, ops)?;
    one(alloc, Stmt::Simple { act, after })
}

// A declaration, with the operations behind it.
#[tactic(auto, using(c_scope::proofs::Faults::faults))]
fn resolve_declares(
    alloc: Global,
    names: &Table,
    scope: &mut Scope,
    walk: &mut Walk,
    raw: &Decl,
    ops: &[(c_raw::Op, Spot)],
) -> Result<Items<Stmt>, NoMemory>
    requires fits { scope.old.count + length (decl_declared (decl_view raw.now)) < 2 ^ 32 }
    ensures built { IfOk result (λ l. l ≡ with_ops (decl_of (names_from names.now) scope.old (decl_view raw.now)) (ops_of (ops_view ops.now))) }
    ensures noted { OnOk result (walk.new.least ≡ noted_all walk.old.least (decl_faults (names_from names.now) scope.old (decl_view raw.now) ++ ops_faults (ops_view ops.now))) }
    ensures lined { OnOk result (walk.new.lines ≡ walk.old.lines ++ decl_lines (names_from names.now) scope.old (decl_view raw.now)) }
    ensures seen { OnOk result (scope.new ≡ with_locals (decl_declared (decl_view raw.now)) scope.old) }
{
    let after = ops_of(alloc, ops)?;
    let stmts = resolve_decl(alloc, names, scope, walk, raw, after)?;
    note_ops(&mut walk.least, ops);
    Ok(stmts)
}

// A `for` with a first part is a block of that part and the loop.
fn for_of(alloc: Global, first: Option<Items<Stmt>>, whole: Stmt) -> Result<Stmt, NoMemory>
    ensures { IfOk result (λ s. s ≡ with_first first whole) }
{
    match first {
        None => Ok(whole),
        Some(mut stmts) => {
            stmts.push(whole)?;
            Ok(Stmt::Block(stmts))
        }
    }
}

// The first part of a `for`, if there is one.
fn resolve_first_part(
    alloc: Global,
    names: &Table,
    scope: &mut Scope,
    walk: &mut Walk,
    raw: &Option<First>,
) -> Result<Option<Items<Stmt>>, NoMemory>
    requires fits { scope.old.count + length (first_declared (first_part_view raw.now)) < 2 ^ 32 }
    ensures built { IfOk result (λ l. l ≡ option_map (first_of (names_from names.now) scope.old) (first_part_view raw.now)) }
    ensures noted { OnOk result (walk.new.least ≡ noted_all walk.old.least (first_faults (names_from names.now) scope.old (first_part_view raw.now))) }
    ensures lined { OnOk result (walk.new.lines ≡ walk.old.lines ++ first_lines (names_from names.now) scope.old (first_part_view raw.now)) }
    ensures seen { OnOk result (scope.new ≡ with_locals (first_declared (first_part_view raw.now)) scope.old) }
{
    match raw {
        None => Ok(None),
        Some(first) => {
            let stmts = resolve_first(alloc, names, scope, walk, first)?;
            Ok(Some(stmts))
        }
    }
}

// A block that is an item of a block is a statement.
fn as_item(alloc: Global, raw: &c_raw::Stmt, list: Items<Stmt>) -> Result<Items<Stmt>, NoMemory>
    ensures { IfOk result (λ l. l ≡ as_item (stmt_view raw.now) list) }
{
    match raw {
        c_raw::Stmt::Block { .. } => one(alloc, Stmt::Block(list)),
        c_raw::Stmt::Nothing(_)
        | c_raw::Stmt::Simply { .. }
        | c_raw::Stmt::Jumps(_)
        | c_raw::Stmt::If { .. }
        | c_raw::Stmt::While { .. }
        | c_raw::Stmt::For { .. } => Ok(list),
    }
}

/// A statement that stands under another, or in the block that is open. The answer is the list
/// that it spells: a block its items, an empty statement nothing.
#[cycle(stmt)]
#[tactic(auto, using(c_scope::proofs::Faults::faults, c_raw::proofs::Equations::stmts, crate::proofs::Scopes::scopes))]
pub fn resolve_stmt(
    alloc: Global,
    names: &Table,
    around: Around,
    scope: &mut Scope,
    walk: &mut Walk,
    raw: &c_raw::Stmt,
) -> Result<Items<Stmt>, NoMemory>
    requires fits { scope.old.count + stmt_locals (stmt_view raw.now) < 2 ^ 32 }
    ensures built { IfOk result (λ l. l ≡ stmt_of (names_from names.now) (around_view around) scope.old (stmt_view raw.now)) }
    ensures noted { OnOk result (walk.new.least ≡ noted_all walk.old.least (stmt_faults (names_from names.now) (around_view around) scope.old (stmt_view raw.now))) }
    ensures lined { OnOk result (walk.new.lines ≡ walk.old.lines ++ stmt_lines (names_from names.now) scope.old (stmt_view raw.now)) }
    ensures seen { OnOk result (scope.new ≡ passed (stmt_locals (stmt_view raw.now)) scope.old) }
{
    match raw {
        c_raw::Stmt::Block { items, .. } => {
            resolve_block(alloc, names, around, scope, walk, items.as_slice())
        }
        c_raw::Stmt::Nothing(_) => Ok(Items::new(alloc)),
        c_raw::Stmt::Simply { simple, ops, .. } => {
            resolve_simply(alloc, names, scope, walk, simple.get(), ops.as_slice())
        }
        c_raw::Stmt::Jumps(jump) => {
            let stmt = resolve_jump(alloc, names, around, scope, walk, jump.get())?;
            one(alloc, stmt)
        }
        c_raw::Stmt::If {
            test,
            then,
            otherwise,
        } => {
            let cond = resolve_cond(alloc, names, scope, walk, &test.get().cond)?;
            let yes = resolve_body(alloc, names, around, scope, walk, then.get())?;
            let no = resolve_else(alloc, names, around, scope, walk, otherwise)?;
            one(alloc, Stmt::If { cond, yes, no })
        }
        c_raw::Stmt::While { test, body } => {
            let cond = resolve_cond(alloc, names, scope, walk, &test.get().cond)?;
            let body = resolve_body(alloc, names, around.looped(), scope, walk, body.get())?;
            let step = None;
            one(alloc, Stmt::Loop { cond, step, body })
        }
        c_raw::Stmt::For { head, body } => {
            let stmt = resolve_for(alloc, names, around, scope, walk, head.get(), body.get())?;
            one(alloc, stmt)
        }
    }
}

// What stands behind `else`, if it is there.
#[cycle(stmt)]
#[tactic(auto, using(c_raw::proofs::Equations::stmts, crate::proofs::Scopes::scopes))]
fn resolve_else(
    alloc: Global,
    names: &Table,
    around: Around,
    scope: &mut Scope,
    walk: &mut Walk,
    raw: &Option<Else>,
) -> Result<Items<Stmt>, NoMemory>
    requires fits { scope.old.count + else_locals (else_from (option_map else_view raw.now)) < 2 ^ 32 }
    ensures built { IfOk result (λ l. l ≡ else_of (names_from names.now) (around_view around) scope.old (else_from (option_map else_view raw.now))) }
    ensures noted { OnOk result (walk.new.least ≡ noted_all walk.old.least (else_faults (names_from names.now) (around_view around) scope.old (else_from (option_map else_view raw.now)))) }
    ensures lined { OnOk result (walk.new.lines ≡ walk.old.lines ++ else_lines (names_from names.now) scope.old (else_from (option_map else_view raw.now))) }
    ensures seen { OnOk result (scope.new ≡ passed (else_locals (else_from (option_map else_view raw.now))) scope.old) }
{
    match raw {
        None => Ok(Items::new(alloc)),
        Some(other) => resolve_body(alloc, names, around, scope, walk, other.body.get()),
    }
}

// A `for`, which is a block of its own.
#[cycle(stmt)]
#[tactic(auto, using(c_scope::proofs::Faults::faults, crate::proofs::Scopes::scopes))]
fn resolve_for(
    alloc: Global,
    names: &Table,
    around: Around,
    scope: &mut Scope,
    walk: &mut Walk,
    head: &LoopHead,
    body: &c_raw::Stmt,
) -> Result<Stmt, NoMemory>
    requires fits { scope.old.count + stmt_locals (for_view head.now (stmt_view body.now)) < 2 ^ 32 }
    ensures built { IfOk result (λ s. s ∷ [] ≡ stmt_of (names_from names.now) (around_view around) scope.old (for_view head.now (stmt_view body.now))) }
    ensures noted { OnOk result (walk.new.least ≡ noted_all walk.old.least (stmt_faults (names_from names.now) (around_view around) scope.old (for_view head.now (stmt_view body.now)))) }
    ensures lined { OnOk result (walk.new.lines ≡ walk.old.lines ++ stmt_lines (names_from names.now) scope.old (for_view head.now (stmt_view body.now))) }
    ensures seen { OnOk result (scope.new ≡ passed (stmt_locals (for_view head.now (stmt_view body.now))) scope.old) }
{
    let outer = scope.enter();
    let first = resolve_first_part(alloc, names, scope, walk, &head.first)?;
    let cond = resolve_test(alloc, names, scope, walk, &head.cond)?;
    let step = resolve_step(alloc, names, scope, walk, &head.step)?;
    let body = resolve_body(alloc, names, around.looped(), scope, walk, body)?;
    let stmt = for_of(alloc, first, Stmt::Loop { cond, step, body })?;
    scope.leave(outer);
    Ok(stmt)
}

// What stands under `if`, `else`, `while` and `for` is a block of its own.
#[cycle(stmt)]
#[tactic(auto, using(crate::proofs::Scopes::scopes))]
fn resolve_body(
    alloc: Global,
    names: &Table,
    around: Around,
    scope: &mut Scope,
    walk: &mut Walk,
    raw: &c_raw::Stmt,
) -> Result<Items<Stmt>, NoMemory>
    requires fits { scope.old.count + stmt_locals (stmt_view raw.now) < 2 ^ 32 }
    ensures built { IfOk result (λ l. l ≡ stmt_of (names_from names.now) (around_view around) (entered scope.old) (stmt_view raw.now)) }
    ensures noted { OnOk result (walk.new.least ≡ noted_all walk.old.least (stmt_faults (names_from names.now) (around_view around) (entered scope.old) (stmt_view raw.now))) }
    ensures lined { OnOk result (walk.new.lines ≡ walk.old.lines ++ stmt_lines (names_from names.now) (entered scope.old) (stmt_view raw.now)) }
    ensures seen { OnOk result (scope.new ≡ passed (stmt_locals (stmt_view raw.now)) scope.old) }
{
    let outer = scope.enter();
    let stmts = resolve_stmt(alloc, names, around, scope, walk, raw)?;
    scope.leave(outer);
    Ok(stmts)
}

// The items of a block.
#[cycle(stmt)]
#[tactic(auto, using(crate::proofs::Scopes::scopes))]
fn resolve_block(
    alloc: Global,
    names: &Table,
    around: Around,
    scope: &mut Scope,
    walk: &mut Walk,
    list: &[Item],
) -> Result<Items<Stmt>, NoMemory>
    requires fits { scope.old.count + items_locals (items_view list.now) < 2 ^ 32 }
    ensures built { IfOk result (λ l. l ≡ items_of (names_from names.now) (around_view around) (entered scope.old) (items_view list.now)) }
    ensures noted { OnOk result (walk.new.least ≡ noted_all walk.old.least (items_faults (names_from names.now) (around_view around) (entered scope.old) (items_view list.now))) }
    ensures lined { OnOk result (walk.new.lines ≡ walk.old.lines ++ items_lines (names_from names.now) (entered scope.old) (items_view list.now)) }
    ensures seen { OnOk result (scope.new ≡ passed (items_locals (items_view list.now)) scope.old) }
{
    let outer = scope.enter();
    let stmts = resolve_items(alloc, names, around, scope, walk, list)?;
    scope.leave(outer);
    Ok(stmts)
}

/// An item of a block: a declaration spells a statement for each declarator.
#[cycle(stmt)]
#[tactic(auto, using(c_raw::proofs::Equations::stmts, crate::proofs::Scopes::scopes))]
fn resolve_item(
    alloc: Global,
    names: &Table,
    around: Around,
    scope: &mut Scope,
    walk: &mut Walk,
    raw: &Item,
) -> Result<Items<Stmt>, NoMemory>
    requires fits { scope.old.count + item_locals (item_view raw.now) < 2 ^ 32 }
    ensures built { IfOk result (λ l. l ≡ item_of (names_from names.now) (around_view around) scope.old (item_view raw.now)) }
    ensures noted { OnOk result (walk.new.least ≡ noted_all walk.old.least (item_faults (names_from names.now) (around_view around) scope.old (item_view raw.now))) }
    ensures lined { OnOk result (walk.new.lines ≡ walk.old.lines ++ item_lines (names_from names.now) scope.old (item_view raw.now)) }
    ensures seen { OnOk result (scope.new ≡ item_after scope.old (item_view raw.now)) }
{
    match raw {
        Item::Declares { decl, ops, .. } => {
            resolve_declares(alloc, names, scope, walk, decl.get(), ops.as_slice())
        }
        Item::Does(stmt) => {
            let list = resolve_stmt(alloc, names, around, scope, walk, stmt)?;
            as_item(alloc, stmt, list)
        }
    }
}

/// The items of a body or a block, in order: the statements that they spell, their faults, and the
/// lines of their accesses.
#[cycle(stmt)]
#[tactic(auto, using(c_scope::proofs::Faults::faults, crate::proofs::Scopes::scopes))]
pub fn resolve_items(
    alloc: Global,
    names: &Table,
    around: Around,
    scope: &mut Scope,
    walk: &mut Walk,
    list: &[Item],
) -> Result<Items<Stmt>, NoMemory>
    requires fits { scope.old.count + items_locals (items_view list.now) < 2 ^ 32 }
    ensures built { IfOk result (λ l. l ≡ items_of (names_from names.now) (around_view around) scope.old (items_view list.now)) }
    ensures noted { OnOk result (walk.new.least ≡ noted_all walk.old.least (items_faults (names_from names.now) (around_view around) scope.old (items_view list.now))) }
    ensures lined { OnOk result (walk.new.lines ≡ walk.old.lines ++ items_lines (names_from names.now) scope.old (items_view list.now)) }
    ensures seen { OnOk result (scope.new ≡ items_after scope.old (items_view list.now)) }
{
    let mut stmts = Items::new(alloc);
    for raw in list {
        let more = resolve_item(alloc, names, around, scope, walk, raw)?;
        stmts.append(more)?;
    }
    Ok(stmts)
}
