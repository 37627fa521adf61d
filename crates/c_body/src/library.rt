ghost use Rattle.std.specs.Prelude.{◌≡◌, ◌++◌, map, not, length, IfOk, OnOk};
ghost use Rattle.c_raw.specs.Tokens.{ident_view, text_view};
ghost use Rattle.c_raw.specs.Simples.{target_view, more_view, thread_arg_view, create_view, library_view};
ghost use Rattle.c_names.specs.Faults.{noted_all, fault_if};
ghost use Rattle.c_names.specs.Uses.{use_of, global_number, function_number};
ghost use Rattle.c_names.specs.Expressions.{exprs_faults, int_target_faults};
ghost use Rattle.c_names.specs.Simples.{thread_arg_faults, created_faults, mutex_faults, cond_variable_faults, printf_faults, library_faults};
ghost use Rattle.c_names.specs.SpelledExpressions.{exprs_of, target_of, thread_arg_of, library_of};
ghost use Rattle.c_names.specs.LinesExpressions.{exprs_lines, index_lines, target_lines, thread_arg_lines, library_lines};
ghost use Rattle.c_names.specs.Strings.{has_other, is_scan_text};
ghost use Rattle.c_scope.specs.Tables.{names_from};

use crate::exprs::{push_exprs, resolve_expr};
use crate::strings::{has_other, is_scan_text, numbers_in};
use crate::targets::{resolve_int_target, resolve_thread_target, touch_target};
use crate::walk::Walk;
use c_names::{Fault, FaultKind};
use c_prog::{Act, Expr};
use c_raw::{Create, Ident, Library, Text, ThreadArg};
use c_scope::{
    Scope, Table, function_number, global_number, is_cond, is_mutex, is_thread_function, note_if,
    note_reserved, note_use, use_of,
};
use cfix_base::{FnId, List, MAX_ARGUMENTS, NoMemory, Spot, VarId};
use std::alloc::Global;

fn resolve_thread_arg(
    alloc: Global,
    names: &Table,
    scope: &Scope,
    walk: &mut Walk,
    raw: &ThreadArg,
) -> Result<Expr, NoMemory>
    ensures built { IfOk result (λ e. e ≡ thread_arg_of (names_from names.now) scope.now (thread_arg_view raw.now)) }
    ensures noted { OnOk result (walk.new.least ≡ noted_all walk.old.least (thread_arg_faults (names_from names.now) scope.now (thread_arg_view raw.now))) }
    ensures lined { OnOk result (walk.new.lines ≡ walk.old.lines ++ thread_arg_lines (names_from names.now) scope.now (thread_arg_view raw.now)) }
{
    match raw {
        ThreadArg::Null(_) => Ok(Expr::Number(0)),
        ThreadArg::Cast { arg, .. } => resolve_expr(alloc, names, scope, walk, arg),
    }
}

// The function that a thread is created with.
#[tactic(auto, using(c_scope::proofs::Faults::faults))]
fn resolve_created(least: &mut Option<Fault>, names: &Table, scope: &Scope, name: &Ident) -> FnId
    ensures built { result.number ≡ function_number (use_of (names_from names.now) scope.now name.now.text) }
    ensures noted { least.new ≡ noted_all least.old (created_faults (names_from names.now) scope.now (ident_view name.now)) }
{
    let found = use_of(names, scope, name.text.as_slice());
    note_reserved(least, name);
    note_use(least, is_thread_function(found), found, name.spot);
    FnId {
        number: function_number(found),
    }
}

#[tactic(auto, using(c_scope::proofs::Faults::faults))]
fn resolve_create(
    alloc: Global,
    names: &Table,
    scope: &Scope,
    walk: &mut Walk,
    raw: &Create,
) -> Result<Act, NoMemory>
    ensures built { IfOk result (λ a. a ≡ library_of (names_from names.now) scope.now (create_view raw.now)) }
    ensures noted { OnOk result (walk.new.least ≡ noted_all walk.old.least (library_faults (names_from names.now) scope.now (create_view raw.now))) }
    ensures lined { OnOk result (walk.new.lines ≡ walk.old.lines ++ library_lines (names_from names.now) scope.now (create_view raw.now)) }
{
    let target = resolve_thread_target(alloc, names, scope, walk, &raw.target)?;
    let of = resolve_created(&mut walk.least, names, scope, &raw.function);
    let arg = resolve_thread_arg(alloc, names, scope, walk, &raw.arg)?;
    Ok(Act::Create { target, of, arg })
}

#[tactic(auto, using(c_scope::proofs::Faults::faults))]
fn resolve_mutex(least: &mut Option<Fault>, names: &Table, scope: &Scope, name: &Ident) -> VarId
    ensures built { result.number ≡ global_number (use_of (names_from names.now) scope.now name.now.text) }
    ensures noted { least.new ≡ noted_all least.old (mutex_faults (names_from names.now) scope.now (ident_view name.now)) }
{
    let found = use_of(names, scope, name.text.as_slice());
    note_reserved(least, name);
    note_use(least, is_mutex(found), found, name.spot);
    VarId {
        number: global_number(found),
    }
}

#[tactic(auto, using(c_scope::proofs::Faults::faults))]
fn resolve_cond(least: &mut Option<Fault>, names: &Table, scope: &Scope, name: &Ident) -> VarId
    ensures built { result.number ≡ global_number (use_of (names_from names.now) scope.now name.now.text) }
    ensures noted { least.new ≡ noted_all least.old (cond_variable_faults (names_from names.now) scope.now (ident_view name.now)) }
{
    let found = use_of(names, scope, name.text.as_slice());
    note_reserved(least, name);
    note_use(least, is_cond(found), found, name.spot);
    VarId {
        number: global_number(found),
    }
}

// The names of a wait for a condition variable.
#[tactic(auto, using(c_scope::proofs::Faults::faults))]
fn resolve_wait(
    least: &mut Option<Fault>,
    names: &Table,
    scope: &Scope,
    cond: &Ident,
    mutex: &Ident,
) -> Act
    ensures built { result ≡ Act.Wait (record { number = global_number (use_of (names_from names.now) scope.now cond.now.text) }) (record { number = global_number (use_of (names_from names.now) scope.now mutex.now.text) }) }
    ensures noted { least.new ≡ noted_all least.old (cond_variable_faults (names_from names.now) scope.now (ident_view cond.now) ++ mutex_faults (names_from names.now) scope.now (ident_view mutex.now)) }
{
    let cond = resolve_cond(least, names, scope, cond);
    let mutex = resolve_mutex(least, names, scope, mutex);
    Act::Wait { cond, mutex }
}

// What the string and the number of arguments of printf break.
#[tactic(auto, using(c_scope::proofs::Faults::faults))]
fn note_printf(least: &mut Option<Fault>, count: usize, text: &Text, at: Spot)
    ensures { least.new ≡ noted_all least.old (printf_faults count text.now.bytes at ++ fault_if (has_other text.now.bytes) text.now.spot FaultKind.WrongUse) }
{
    let bytes = text.bytes.as_slice();
    note_if(least, !(numbers_in(bytes) == count), at, FaultKind::Arity);
    let is_over = count > MAX_ARGUMENTS as usize;
    note_if(least, is_over, at, FaultKind::Limit);
    note_if(least, has_other(bytes), text.spot, FaultKind::WrongUse);
}

#[tactic(auto, using(c_scope::proofs::Faults::faults))]
fn resolve_print(
    alloc: Global,
    names: &Table,
    scope: &Scope,
    walk: &mut Walk,
    at: Spot,
    text: &Text,
    more: &[(Spot, c_raw::Expr)],
) -> Result<Act, NoMemory>
    ensures built { IfOk result (λ a. a ≡ Act.Print text.now.bytes (exprs_of (names_from names.now) scope.now (map (λ y. y.1) (more_view more.now)))) }
    ensures noted { OnOk result (walk.new.least ≡ noted_all walk.old.least (printf_faults (length more.now) text.now.bytes at
        ++ (fault_if (has_other text.now.bytes) text.now.spot FaultKind.WrongUse ++ exprs_faults (names_from names.now) scope.now (map (λ y. y.1) (more_view more.now))))) }
    ensures lined { OnOk result (walk.new.lines ≡ walk.old.lines ++ exprs_lines (names_from names.now) scope.now (map (λ y. y.1) (more_view more.now))) }
{
    note_printf(&mut walk.least, more.len(), text, at);
    let mut args = List::new(alloc);
    push_exprs(alloc, names, scope, walk, &mut args, more)?;
    let text = List::from_vec(text.bytes.as_slice().to_vec(alloc)?);
    Ok(Act::Print { text, args })
}

#[tactic(auto, using(c_scope::proofs::Faults::faults))]
fn resolve_scan(
    alloc: Global,
    names: &Table,
    scope: &Scope,
    walk: &mut Walk,
    text: &Text,
    target: &c_raw::Target,
) -> Result<Act, NoMemory>
    ensures built { IfOk result (λ a. a ≡ Act.Scan (target_of (names_from names.now) scope.now (target_view target.now))) }
    ensures noted { OnOk result (walk.new.least ≡ noted_all walk.old.least (fault_if (not (is_scan_text text.now.bytes)) text.now.spot FaultKind.WrongUse ++ int_target_faults (names_from names.now) scope.now (target_view target.now))) }
    ensures lined { OnOk result (walk.new.lines ≡ walk.old.lines ++ (index_lines (names_from names.now) scope.now (target_view target.now) ++ target_lines (names_from names.now) scope.now (target_view target.now))) }
{
    let is_other = !is_scan_text(text.bytes.as_slice());
    note_if(&mut walk.least, is_other, text.spot, FaultKind::WrongUse);
    let to = resolve_int_target(alloc, names, scope, walk, target)?;
    touch_target(names, scope, &mut walk.lines, target)?;
    Ok(Act::Scan(to))
}

/// A call of the headers.
#[tactic(auto, using(crate::proofs::Lists::seconds))]
pub fn resolve_library(
    alloc: Global,
    names: &Table,
    scope: &Scope,
    walk: &mut Walk,
    raw: &Library,
) -> Result<Act, NoMemory>
    ensures built { IfOk result (λ a. a ≡ library_of (names_from names.now) scope.now (library_view raw.now)) }
    ensures noted { OnOk result (walk.new.least ≡ noted_all walk.old.least (library_faults (names_from names.now) scope.now (library_view raw.now))) }
    ensures lined { OnOk result (walk.new.lines ≡ walk.old.lines ++ library_lines (names_from names.now) scope.now (library_view raw.now)) }
{
    match raw {
        Library::Create(create) => resolve_create(alloc, names, scope, walk, create.get()),
        Library::Join { target, .. } => {
            let target = resolve_thread_target(alloc, names, scope, walk, target)?;
            Ok(Act::Join(target))
        }
        Library::Lock { mutex, .. } => {
            let mutex = resolve_mutex(&mut walk.least, names, scope, mutex);
            Ok(Act::Lock(mutex))
        }
        Library::Unlock { mutex, .. } => {
            let mutex = resolve_mutex(&mut walk.least, names, scope, mutex);
            Ok(Act::Unlock(mutex))
        }
        Library::Print { at, text, more, .. } => {
            resolve_print(alloc, names, scope, walk, *at, text, more.as_slice())
        }
        Library::Scan { text, target, .. } => {
            resolve_scan(alloc, names, scope, walk, text, target)
        }
        Library::Wait { cond, mutex, .. } => {
            Ok(resolve_wait(&mut walk.least, names, scope, cond, mutex))
        }
        Library::Signal { cond, .. } => {
            let cond = resolve_cond(&mut walk.least, names, scope, cond);
            Ok(Act::Signal(cond))
        }
        Library::Broadcast { cond, .. } => {
            let cond = resolve_cond(&mut walk.least, names, scope, cond);
            Ok(Act::Broadcast(cond))
        }
    }
}
