ghost use Rattle.std.specs.Prelude.{◌≡◌, ◌++◌, IfOk, OnOk};
ghost use Rattle.c_raw.specs.Simples.{target_view, call_view, simple_view};
ghost use Rattle.c_names.specs.Faults.{noted_all};
ghost use Rattle.c_names.specs.Expressions.{int_target_faults, call_faults, valued_faults};
ghost use Rattle.c_names.specs.Simples.{simple_faults};
ghost use Rattle.c_names.specs.SpelledExpressions.{target_of, call_of, simple_of};
ghost use Rattle.c_names.specs.LinesExpressions.{index_lines, target_lines, args_lines, simple_lines};
ghost use Rattle.c_scope.specs.Tables.{names_from};

use crate::calls::{resolve_call, resolve_valued};
use crate::library::resolve_library;
use crate::plain::resolve_plain;
use crate::targets::{resolve_int_target, touch_target};
use crate::walk::Walk;
use c_prog::{Act, How, Value};
use c_raw::{Call, Simple};
use c_scope::{Scope, Table};
use cfix_base::NoMemory;
use std::alloc::Global;

// The value of a call is assigned.
#[tactic(auto, using(c_scope::proofs::Faults::faults))]
fn resolve_set_call(
    alloc: Global,
    names: &Table,
    scope: &Scope,
    walk: &mut Walk,
    target: &c_raw::Target,
    call: &Call,
) -> Result<Act, NoMemory>
    ensures built { IfOk result (λ a. a ≡ Act.Assign (target_of (names_from names.now) scope.now (target_view target.now)) How.Set (Value.Call (call_of (names_from names.now) scope.now (call_view call.now)))) }
    ensures noted { OnOk result (walk.new.least ≡ noted_all walk.old.least (int_target_faults (names_from names.now) scope.now (target_view target.now)
        ++ (call_faults (names_from names.now) scope.now (call_view call.now) ++ valued_faults (names_from names.now) scope.now (call_view call.now)))) }
    ensures lined { OnOk result (walk.new.lines ≡ walk.old.lines ++ (index_lines (names_from names.now) scope.now (target_view target.now)
        ++ (args_lines (names_from names.now) scope.now (call_view call.now) ++ target_lines (names_from names.now) scope.now (target_view target.now)))) }
{
    let to = resolve_int_target(alloc, names, scope, walk, target)?;
    let from = resolve_valued(alloc, names, scope, walk, call)?;
    touch_target(names, scope, &mut walk.lines, target)?;
    Ok(Act::Assign {
        target: to,
        how: How::Set,
        value: Value::Call(from),
    })
}

/// A simple statement that is no declaration.
pub fn resolve_simple(
    alloc: Global,
    names: &Table,
    scope: &Scope,
    walk: &mut Walk,
    raw: &Simple,
) -> Result<Act, NoMemory>
    ensures built { IfOk result (λ a. a ≡ simple_of (names_from names.now) scope.now (simple_view raw.now)) }
    ensures noted { OnOk result (walk.new.least ≡ noted_all walk.old.least (simple_faults (names_from names.now) scope.now (simple_view raw.now))) }
    ensures lined { OnOk result (walk.new.lines ≡ walk.old.lines ++ simple_lines (names_from names.now) scope.now (simple_view raw.now)) }
{
    match raw {
        Simple::Plain(plain) => resolve_plain(alloc, names, scope, walk, plain),
        Simple::SetCall { target, call, .. } => {
            resolve_set_call(alloc, names, scope, walk, target, call)
        }
        Simple::Call(call) => {
            let call = resolve_call(alloc, names, scope, walk, call)?;
            Ok(Act::Call(call))
        }
        Simple::Library(library) => resolve_library(alloc, names, scope, walk, library),
    }
}
