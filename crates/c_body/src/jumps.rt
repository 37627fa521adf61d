ghost use Rattle.std.specs.Prelude.{◌≡◌, [], ◌++◌, if◌then◌else◌, IfOk, OnOk};
ghost use Rattle.c_raw.specs.Exprs.{expr_view};
ghost use Rattle.c_raw.specs.Simples.{value_view};
ghost use Rattle.c_raw.specs.Stmts.{bare_view, bare_block_view, value_block_view, jump_view};
ghost use Rattle.c_grammar.specs.Stmt.{ReturnValue};
ghost use Rattle.c_prog.specs.Valid.Expressions.{is_int_kind, is_void_kind, is_thread_kind};
ghost use Rattle.c_names.specs.Faults.{noted_all};
ghost use Rattle.c_names.specs.Returns.{is_zero, is_zero_use, is_zero_expr, is_zero_value, bare_fits, bare_spot, bare_faults, is_null, returned_faults, jump_faults};
ghost use Rattle.c_names.specs.SpelledStatements.{bare_of, return_of, jump_of};
ghost use Rattle.c_names.specs.LinesStatements.{jump_lines};
ghost use Rattle.c_scope.specs.Tables.{names_from};
ghost use Rattle.c_scope.specs.Views.{use_view};
ghost use Rattle.c_body.specs.Views.{around_view};

use crate::around::Around;
use crate::calls::resolve_value;
use crate::conds::resolve_op_list;
use crate::walk::Walk;
use c_names::{Fault, FaultKind};
use c_prog::{FnKind, Jump, Stmt, Value};
use c_raw::{Bare, BareBlock, Expr, ValueBlock};
use c_scope::{Scope, Table, Use, note_if, use_of};
use cfix_base::{List, NoMemory, Spot};
use std::alloc::Global;

fn is_int_kind(kind: FnKind) -> bool
    ensures { result ≡ is_int_kind kind }
{
    match kind {
        FnKind::Int => true,
        _ => false,
    }
}

fn is_void_kind(kind: FnKind) -> bool
    ensures { result ≡ is_void_kind kind }
{
    match kind {
        FnKind::Void => true,
        _ => false,
    }
}

fn is_thread_kind(kind: FnKind) -> bool
    ensures { result ≡ is_thread_kind kind }
{
    match kind {
        FnKind::Thread => true,
        _ => false,
    }
}

fn is_zero_use(found: Use) -> bool
    ensures { result ≡ is_zero_use (use_view found) }
{
    match found {
        Use::Defined(value) => value == 0,
        _ => false,
    }
}

// Whether the expression spells the number 0.
fn is_zero_expr(names: &Table, scope: &Scope, raw: &Expr) -> bool
    ensures { result ≡ is_zero_expr (names_from names.now) scope.now (expr_view raw.now) }
{
    match raw {
        Expr::Number(number) => number.value == 0,
        Expr::Name(name) => is_zero_use(use_of(names, scope, name.text.as_slice())),
        Expr::Paren { inside, .. } => is_zero_expr(names, scope, inside.get()),
        Expr::Index { .. } | Expr::Cast(_) | Expr::Unary { .. } | Expr::Operation { .. } => false,
    }
}

fn is_zero_value(names: &Table, scope: &Scope, raw: &c_raw::Value) -> bool
    ensures { result ≡ is_zero_value (names_from names.now) scope.now (value_view raw.now) }
{
    match raw {
        c_raw::Value::Computed(expr) => is_zero_expr(names, scope, expr),
        c_raw::Value::Called(_) => false,
    }
}

fn bare_of(raw: Bare) -> Jump
    ensures { result ≡ bare_of (bare_view raw) }
{
    match raw {
        Bare::Break(_) => Jump::Break,
        Bare::Continue(_) => Jump::Continue,
        Bare::Return(_) => Jump::Return,
        Bare::ReturnNull { .. } => Jump::ReturnNull,
    }
}

fn bare_fits(around: Around, raw: Bare) -> bool
    ensures { result ≡ bare_fits (around_view around) (bare_view raw) }
{
    match raw {
        Bare::Break(_) | Bare::Continue(_) => around.in_loop,
        Bare::Return(_) => is_void_kind(around.kind),
        Bare::ReturnNull { .. } => is_thread_kind(around.kind),
    }
}

/// The word of a jump.
pub fn bare_spot(raw: Bare) -> Spot
    ensures { result ≡ bare_spot (bare_view raw) }
{
    match raw {
        Bare::Break(at) | Bare::Continue(at) | Bare::Return(at) | Bare::ReturnNull { at, .. } => at,
    }
}

fn note_bare(least: &mut Option<Fault>, around: Around, raw: Bare)
    ensures { least.new ≡ noted_all least.old (bare_faults (around_view around) (bare_view raw)) }
{
    let is_wrong = !bare_fits(around, raw);
    note_if(least, is_wrong, bare_spot(raw), FaultKind::WrongUse);
}

// The number 0 in the function of a thread is `NULL`.
fn is_null(names: &Table, around: Around, scope: &Scope, raw: &c_raw::Value) -> bool
    ensures { result ≡ is_null (names_from names.now) (around_view around) scope.now (value_view raw.now) }
{
    is_thread_kind(around.kind) && is_zero_value(names, scope, raw)
}

fn note_returned(
    least: &mut Option<Fault>,
    names: &Table,
    around: Around,
    scope: &Scope,
    at: Spot,
    raw: &c_raw::Value,
)
    ensures { least.new ≡ noted_all least.old (returned_faults (names_from names.now) (around_view around) scope.now at (value_view raw.now)) }
{
    let fits = is_int_kind(around.kind) || is_null(names, around, scope, raw);
    note_if(least, !fits, at, FaultKind::WrongUse);
}

// What `return` spells with this value.
fn return_of(is_null: bool, value: Value) -> Jump
    ensures { result ≡ (if is_null then Jump.ReturnNull else Jump.ReturnValue value) }
{
    if is_null {
        Jump::ReturnNull
    } else {
        Jump::ReturnValue(value)
    }
}

#[tactic(auto, using(c_scope::proofs::Faults::faults))]
fn resolve_return(
    alloc: Global,
    names: &Table,
    around: Around,
    scope: &Scope,
    walk: &mut Walk,
    at: Spot,
    end: Spot,
    raw: &c_raw::Value,
) -> Result<Stmt, NoMemory>
    ensures built { IfOk result (λ s. s ≡ jump_of (names_from names.now) (around_view around) scope.now (ReturnValue at (value_view raw.now) end)) }
    ensures noted { OnOk result (walk.new.least ≡ noted_all walk.old.least (jump_faults (names_from names.now) (around_view around) scope.now (ReturnValue at (value_view raw.now) end))) }
    ensures lined { OnOk result (walk.new.lines ≡ walk.old.lines ++ jump_lines (names_from names.now) scope.now (ReturnValue at (value_view raw.now) end)) }
{
    note_returned(&mut walk.least, names, around, scope, at, raw);
    let value = resolve_value(alloc, names, scope, walk, raw)?;
    let jump = return_of(is_null(names, around, scope, raw), value);
    let after = List::new(alloc);
    Ok(Stmt::Jump { jump, after })
}

#[tactic(auto, using(c_scope::proofs::Faults::faults))]
fn resolve_bare_block(
    alloc: Global,
    names: &Table,
    around: Around,
    scope: &Scope,
    walk: &mut Walk,
    raw: &BareBlock,
) -> Result<Stmt, NoMemory>
    ensures built { IfOk result (λ s. s ≡ jump_of (names_from names.now) (around_view around) scope.now (bare_block_view raw.now)) }
    ensures noted { OnOk result (walk.new.least ≡ noted_all walk.old.least (jump_faults (names_from names.now) (around_view around) scope.now (bare_block_view raw.now))) }
    ensures lined { OnOk result (walk.new.lines ≡ walk.old.lines ++ jump_lines (names_from names.now) scope.now (bare_block_view raw.now)) }
{
    let after = resolve_op_list(alloc, &mut walk.least, &raw.first, raw.ops.as_slice())?;
    note_bare(&mut walk.least, around, raw.bare);
    let jump = bare_of(raw.bare);
    Ok(Stmt::Jump { jump, after })
}

#[tactic(auto, using(c_scope::proofs::Faults::faults))]
fn resolve_value_block(
    alloc: Global,
    names: &Table,
    around: Around,
    scope: &Scope,
    walk: &mut Walk,
    raw: &ValueBlock,
) -> Result<Stmt, NoMemory>
    ensures built { IfOk result (λ s. s ≡ jump_of (names_from names.now) (around_view around) scope.now (value_block_view raw.now)) }
    ensures noted { OnOk result (walk.new.least ≡ noted_all walk.old.least (jump_faults (names_from names.now) (around_view around) scope.now (value_block_view raw.now))) }
    ensures lined { OnOk result (walk.new.lines ≡ walk.old.lines ++ jump_lines (names_from names.now) scope.now (value_block_view raw.now)) }
{
    let value = resolve_value(alloc, names, scope, walk, &raw.value)?;
    let after = resolve_op_list(alloc, &mut walk.least, &raw.first, raw.ops.as_slice())?;
    note_returned(&mut walk.least, names, around, scope, raw.at, &raw.value);
    let jump = return_of(is_null(names, around, scope, &raw.value), value);
    Ok(Stmt::Jump { jump, after })
}

/// A jump, with its operations.
pub fn resolve_jump(
    alloc: Global,
    names: &Table,
    around: Around,
    scope: &Scope,
    walk: &mut Walk,
    raw: &c_raw::Jump,
) -> Result<Stmt, NoMemory>
    ensures built { IfOk result (λ s. s ≡ jump_of (names_from names.now) (around_view around) scope.now (jump_view raw.now)) }
    ensures noted { OnOk result (walk.new.least ≡ noted_all walk.old.least (jump_faults (names_from names.now) (around_view around) scope.now (jump_view raw.now))) }
    ensures lined { OnOk result (walk.new.lines ≡ walk.old.lines ++ jump_lines (names_from names.now) scope.now (jump_view raw.now)) }
{
    match raw {
        c_raw::Jump::Bare { bare, .. } => {
            note_bare(&mut walk.least, around, *bare);
            let jump = bare_of(*bare);
            let after = List::new(alloc);
            Ok(Stmt::Jump { jump, after })
        }
        c_raw::Jump::ReturnValue { at, value, end } => {
            resolve_return(alloc, names, around, scope, walk, *at, *end, value)
        }
        c_raw::Jump::BareBlock(block) => {
            resolve_bare_block(alloc, names, around, scope, walk, block.get())
        }
        c_raw::Jump::ValueBlock(block) => {
            resolve_value_block(alloc, names, around, scope, walk, block.get())
        }
    }
}
