ghost use Rattle.std.specs.Prelude.{◌≡◌, ◌++◌, length, IfOk, OnOk};
ghost use Rattle.c_raw.specs.Tokens.{ident_view};
ghost use Rattle.c_raw.specs.Simples.{args_view, call_view, value_view};
ghost use Rattle.c_names.specs.Faults.{noted_all};
ghost use Rattle.c_names.specs.Expressions.{args_list, is_root_name, callee_faults, count_faults, call_faults, valued_faults, exprs_faults, value_faults};
ghost use Rattle.c_names.specs.SpelledExpressions.{exprs_of, call_of, value_of};
ghost use Rattle.c_names.specs.LinesExpressions.{exprs_lines, args_lines, value_lines};
ghost use Rattle.c_scope.specs.Tables.{names_from};
ghost use Rattle.c_scope.specs.Views.{use_view};

use crate::exprs::{push_exprs, resolve_expr};
use crate::walk::Walk;
use c_names::{Fault, FaultKind};
use c_prog::{CallForm, Expr, FnKind, Value};
use c_raw::{Args, Call, Ident};
use c_scope::{Scope, Table, Use, function_number, is_void, note_if, note_reserved, use_of};
use cfix_base::{FnId, List, MAX_ARGUMENTS, NoMemory};
use sqlite_items::Boxed;
use std::alloc::Global;

fn is_root_name(name: &Ident, kind: FnKind) -> bool
    ensures { result ≡ is_root_name (ident_view name.now) kind }
{
    let is_thread = match kind {
        FnKind::Thread => true,
        _ => false,
    };
    name.text.as_slice() == b"main".as_slice() || is_thread
}

// A name that is called with so many arguments.
#[tactic(auto, using(c_scope::proofs::Faults::faults))]
fn note_callee(least: &mut Option<Fault>, found: Use, name: &Ident, count: usize)
    ensures { least.new ≡ noted_all least.old (callee_faults (use_view found) (ident_view name.now) count) }
{
    match found {
        Use::Function { kind, params, .. } => {
            let is_root = is_root_name(name, kind);
            note_if(least, is_root, name.spot, FaultKind::RootCalled);
            let is_other = !is_root && !(params == count);
            note_if(least, is_other, name.spot, FaultKind::Arity);
        }
        Use::Unknown => note_if(least, true, name.spot, FaultKind::Unknown),
        _ => note_if(least, true, name.spot, FaultKind::WrongUse),
    }
}

fn note_count(least: &mut Option<Fault>, count: usize, name: &Ident)
    ensures { least.new ≡ noted_all least.old (count_faults count (ident_view name.now)) }
{
    let is_over = count > MAX_ARGUMENTS as usize;
    note_if(least, is_over, name.spot, FaultKind::Limit);
}

// The number of arguments.
fn count_of(args: &Option<Boxed<Args>>) -> usize
    ensures { result ≡ length (args_list (args_view args.now)) }
{
    match args {
        None => 0,
        Some(args) => args.get().more.as_slice().len() + 1,
    }
}

#[tactic(auto, using(c_scope::proofs::Faults::faults))]
fn resolve_args(
    alloc: Global,
    names: &Table,
    scope: &Scope,
    walk: &mut Walk,
    raw: &Option<Boxed<Args>>,
) -> Result<List<Expr>, NoMemory>
    ensures built { IfOk result (λ l. l ≡ exprs_of (names_from names.now) scope.now (args_list (args_view raw.now))) }
    ensures noted { OnOk result (walk.new.least ≡ noted_all walk.old.least (exprs_faults (names_from names.now) scope.now (args_list (args_view raw.now)))) }
    ensures lined { OnOk result (walk.new.lines ≡ walk.old.lines ++ exprs_lines (names_from names.now) scope.now (args_list (args_view raw.now))) }
{
    let mut exprs = List::new(alloc);
    match raw {
        None => Ok(exprs),
        Some(args) => {
            let args = args.get();
            let first = resolve_expr(alloc, names, scope, walk, &args.first)?;
            exprs.push(first)?;
            push_exprs(alloc, names, scope, walk, &mut exprs, args.more.as_slice())?;
            Ok(exprs)
        }
    }
}

/// A call.
#[tactic(auto, using(c_scope::proofs::Faults::faults))]
pub fn resolve_call(
    alloc: Global,
    names: &Table,
    scope: &Scope,
    walk: &mut Walk,
    raw: &Call,
) -> Result<CallForm, NoMemory>
    ensures built { IfOk result (λ c. c ≡ call_of (names_from names.now) scope.now (call_view raw.now)) }
    ensures noted { OnOk result (walk.new.least ≡ noted_all walk.old.least (call_faults (names_from names.now) scope.now (call_view raw.now))) }
    ensures lined { OnOk result (walk.new.lines ≡ walk.old.lines ++ args_lines (names_from names.now) scope.now (call_view raw.now)) }
{
    let found = use_of(names, scope, raw.name.text.as_slice());
    let count = count_of(&raw.args);
    note_reserved(&mut walk.least, &raw.name);
    note_callee(&mut walk.least, found, &raw.name, count);
    note_count(&mut walk.least, count, &raw.name);
    let args = resolve_args(alloc, names, scope, walk, &raw.args)?;
    let of = FnId {
        number: function_number(found),
    };
    Ok(CallForm { of, args })
}

// A call has a value.
fn note_valued(least: &mut Option<Fault>, names: &Table, scope: &Scope, raw: &Call)
    ensures { least.new ≡ noted_all least.old (valued_faults (names_from names.now) scope.now (call_view raw.now)) }
{
    let found = use_of(names, scope, raw.name.text.as_slice());
    note_if(least, is_void(found), raw.name.spot, FaultKind::WrongUse);
}

/// A call whose value is used.
#[tactic(auto, using(c_scope::proofs::Faults::faults))]
pub fn resolve_valued(
    alloc: Global,
    names: &Table,
    scope: &Scope,
    walk: &mut Walk,
    raw: &Call,
) -> Result<CallForm, NoMemory>
    ensures built { IfOk result (λ c. c ≡ call_of (names_from names.now) scope.now (call_view raw.now)) }
    ensures noted { OnOk result (walk.new.least ≡ noted_all walk.old.least (call_faults (names_from names.now) scope.now (call_view raw.now) ++ valued_faults (names_from names.now) scope.now (call_view raw.now))) }
    ensures lined { OnOk result (walk.new.lines ≡ walk.old.lines ++ args_lines (names_from names.now) scope.now (call_view raw.now)) }
{
    let call = resolve_call(alloc, names, scope, walk, raw)?;
    note_valued(&mut walk.least, names, scope, raw);
    Ok(call)
}

/// What is assigned, returned or begun with.
#[tactic(auto, using(c_scope::proofs::Faults::faults))]
pub fn resolve_value(
    alloc: Global,
    names: &Table,
    scope: &Scope,
    walk: &mut Walk,
    raw: &c_raw::Value,
) -> Result<Value, NoMemory>
    ensures built { IfOk result (λ v. v ≡ value_of (names_from names.now) scope.now (value_view raw.now)) }
    ensures noted { OnOk result (walk.new.least ≡ noted_all walk.old.least (value_faults (names_from names.now) scope.now (value_view raw.now))) }
    ensures lined { OnOk result (walk.new.lines ≡ walk.old.lines ++ value_lines (names_from names.now) scope.now (value_view raw.now)) }
{
    match raw {
        c_raw::Value::Computed(expr) => {
            let expr = resolve_expr(alloc, names, scope, walk, expr)?;
            Ok(Value::Expr(expr))
        }
        c_raw::Value::Called(call) => {
            let call = resolve_valued(alloc, names, scope, walk, call)?;
            Ok(Value::Call(call))
        }
    }
}
