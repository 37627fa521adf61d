ghost use Rattle.std.specs.Prelude.{◌≡◌, ◌++◌, ◌+◌, ◌<◌, ◌^◌, IfOk, OnOk};
ghost use Rattle.c_raw.specs.Tokens.{ident_view};
ghost use Rattle.c_raw.specs.Decls.{size_view, hold_view, local_int_view, loop_int_view};
ghost use Rattle.c_prog.specs.Valid.Scope.{declared};
ghost use Rattle.c_names.specs.Faults.{noted_all};
ghost use Rattle.c_names.specs.Names.{declare_faults, size_faults, size_length, length_faults};
ghost use Rattle.c_names.specs.Scopes.{local_int_declared, hold_declared, loop_int_declared, with_local};
ghost use Rattle.c_names.specs.Statements.{local_int_faults, hold_faults, loop_int_faults};
ghost use Rattle.c_names.specs.SpelledStatements.{local_int_of, hold_of, loop_int_of};
ghost use Rattle.c_names.specs.LinesStatements.{local_int_lines, loop_int_lines};
ghost use Rattle.c_scope.specs.Tables.{names_from};
ghost use Rattle.c_scope.specs.Views.{kind_view};

use crate::calls::resolve_value;
use crate::exprs::resolve_expr;
use crate::walk::Walk;
use c_names::Fault;
use c_prog::{Act, LocalKind, Value};
use c_raw::{Hold, Ident, LocalInt, LoopInt, Size};
use c_scope::{Scope, Table, VarKind, note_declare, note_length, note_size, size_length};
use cfix_base::{List, NoMemory};
use std::alloc::Global;

fn copied(alloc: Global, text: &List<u8>) -> Result<List<u8>, NoMemory>
    ensures { IfOk result (λ copy. copy ≡ text.now) }
{
    Ok(List::from_vec(text.as_slice().to_vec(alloc)?))
}

// A name is declared, and seen from here on. The answer is a copy of it.
#[tactic(auto, using(c_scope::proofs::Faults::faults))]
fn declare(
    alloc: Global,
    names: &Table,
    scope: &mut Scope,
    least: &mut Option<Fault>,
    name: &Ident,
    kind: VarKind,
) -> Result<List<u8>, NoMemory>
    requires fits { scope.old.count + 1 < 2 ^ 32 }
    ensures copied { IfOk result (λ copy. copy ≡ name.now.text) }
    ensures noted { OnOk result (least.new ≡ noted_all least.old (declare_faults (names_from names.now) scope.old (ident_view name.now))) }
    ensures seen { OnOk result (scope.new ≡ declared name.now.text (kind_view kind) scope.old) }
{
    note_declare(least, names, scope, name);
    scope.declare(alloc, name.text.as_slice(), kind)?;
    copied(alloc, &name.text)
}

// An array is declared: its length does not see its name. The answer is a copy of the name.
#[tactic(auto, using(c_scope::proofs::Faults::faults))]
fn declare_array(
    alloc: Global,
    names: &Table,
    scope: &mut Scope,
    least: &mut Option<Fault>,
    name: &Ident,
    kind: VarKind,
    size: &Size,
) -> Result<List<u8>, NoMemory>
    requires fits { scope.old.count + 1 < 2 ^ 32 }
    ensures copied { IfOk result (λ copy. copy ≡ name.now.text) }
    ensures noted { OnOk result (least.new ≡ noted_all least.old (declare_faults (names_from names.now) scope.old (ident_view name.now)
        ++ (length_faults (size_length (names_from names.now) (size_view size.now)) name.now.spot ++ size_faults (names_from names.now) scope.old (size_view size.now)))) }
    ensures seen { OnOk result (scope.new ≡ declared name.now.text (kind_view kind) scope.old) }
{
    note_declare(least, names, scope, name);
    note_length(least, size_length(names, size), name.spot);
    note_size(least, names, scope, size);
    scope.declare(alloc, name.text.as_slice(), kind)?;
    copied(alloc, &name.text)
}

/// A declarator of type `int`.
#[tactic(auto, using(c_scope::proofs::Faults::faults))]
pub fn resolve_local_int(
    alloc: Global,
    names: &Table,
    scope: &mut Scope,
    walk: &mut Walk,
    raw: &LocalInt,
) -> Result<Act, NoMemory>
    requires fits { scope.old.count + 1 < 2 ^ 32 }
    ensures built { IfOk result (λ a. a ≡ local_int_of (names_from names.now) scope.old (local_int_view raw.now)) }
    ensures noted { OnOk result (walk.new.least ≡ noted_all walk.old.least (local_int_faults (names_from names.now) scope.old (local_int_view raw.now))) }
    ensures lined { OnOk result (walk.new.lines ≡ walk.old.lines ++ local_int_lines (names_from names.now) scope.old (local_int_view raw.now)) }
    ensures seen { OnOk result (scope.new ≡ with_local (local_int_declared (local_int_view raw.now)) scope.old) }
{
    match raw {
        LocalInt::OneLocal(name) => {
            let name = declare(alloc, names, scope, &mut walk.least, name, VarKind::Int)?;
            let kind = LocalKind::Int;
            let value = None;
            Ok(Act::Declare { name, kind, value })
        }
        LocalInt::SetLocal { name, value, .. } => {
            let name = declare(alloc, names, scope, &mut walk.least, name, VarKind::Int)?;
            let kind = LocalKind::Int;
            let value = Some(resolve_value(alloc, names, scope, walk, value)?);
            Ok(Act::Declare { name, kind, value })
        }
        LocalInt::LocalArray { name, size, .. } => {
            let of = VarKind::IntArray;
            let name = declare_array(alloc, names, scope, &mut walk.least, name, of, size)?;
            let kind = LocalKind::IntArray(size_length(names, size));
            let value = None;
            Ok(Act::Declare { name, kind, value })
        }
    }
}

/// A declarator of type `pthread_t`.
#[tactic(auto, using(c_scope::proofs::Faults::faults))]
pub fn resolve_hold(
    alloc: Global,
    names: &Table,
    scope: &mut Scope,
    least: &mut Option<Fault>,
    raw: &Hold,
) -> Result<Act, NoMemory>
    requires fits { scope.old.count + 1 < 2 ^ 32 }
    ensures built { IfOk result (λ a. a ≡ hold_of (names_from names.now) (hold_view raw.now)) }
    ensures noted { OnOk result (least.new ≡ noted_all least.old (hold_faults (names_from names.now) scope.old (hold_view raw.now))) }
    ensures seen { OnOk result (scope.new ≡ with_local (hold_declared (hold_view raw.now)) scope.old) }
{
    match raw {
        Hold::OneThread(name) => {
            let name = declare(alloc, names, scope, least, name, VarKind::Thread)?;
            let kind = LocalKind::Thread;
            let value = None;
            Ok(Act::Declare { name, kind, value })
        }
        Hold::Threads { name, size, .. } => {
            let of = VarKind::ThreadArray;
            let name = declare_array(alloc, names, scope, least, name, of, size)?;
            let kind = LocalKind::ThreadArray(size_length(names, size));
            let value = None;
            Ok(Act::Declare { name, kind, value })
        }
    }
}

/// A declarator in the first part of a `for`.
#[tactic(auto, using(c_scope::proofs::Faults::faults))]
pub fn resolve_loop_int(
    alloc: Global,
    names: &Table,
    scope: &mut Scope,
    walk: &mut Walk,
    raw: &LoopInt,
) -> Result<Act, NoMemory>
    requires fits { scope.old.count + 1 < 2 ^ 32 }
    ensures built { IfOk result (λ a. a ≡ loop_int_of (names_from names.now) scope.old (loop_int_view raw.now)) }
    ensures noted { OnOk result (walk.new.least ≡ noted_all walk.old.least (loop_int_faults (names_from names.now) scope.old (loop_int_view raw.now))) }
    ensures lined { OnOk result (walk.new.lines ≡ walk.old.lines ++ loop_int_lines (names_from names.now) scope.old (loop_int_view raw.now)) }
    ensures seen { OnOk result (scope.new ≡ with_local (loop_int_declared (loop_int_view raw.now)) scope.old) }
{
    match raw {
        LoopInt::OneLoop(name) => {
            let name = declare(alloc, names, scope, &mut walk.least, name, VarKind::Int)?;
            let kind = LocalKind::Int;
            let value = None;
            Ok(Act::Declare { name, kind, value })
        }
        LoopInt::SetLoop { name, value, .. } => {
            let name = declare(alloc, names, scope, &mut walk.least, name, VarKind::Int)?;
            let kind = LocalKind::Int;
            let value = Value::Expr(resolve_expr(alloc, names, scope, walk, value)?);
            let value = Some(value);
            Ok(Act::Declare { name, kind, value })
        }
    }
}
