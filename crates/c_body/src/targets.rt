ghost use Rattle.std.specs.Prelude.{◌≡◌, ◌++◌, IfOk, OnOk};
ghost use Rattle.c_raw.specs.Simples.{index_view, target_view};
ghost use Rattle.c_names.specs.Faults.{noted_all};
ghost use Rattle.c_names.specs.Expressions.{index_faults, int_target_faults, thread_target_faults};
ghost use Rattle.c_names.specs.SpelledExpressions.{index_of, target_of};
ghost use Rattle.c_names.specs.LinesExpressions.{place_lines, index_lines, target_lines};
ghost use Rattle.c_scope.specs.Tables.{names_from};

use crate::exprs::{resolve_expr, touch};
use crate::walk::Walk;
use c_prog::{Expr, Target};
use c_raw::Place;
use c_scope::{
    Scope, Table, is_int, is_int_array, is_thread, is_thread_array, note_reserved, note_use,
    use_of, var_of,
};
use cfix_base::{List, NoMemory};
use sqlite_items::Boxed;
use std::alloc::Global;

#[tactic(auto, using(c_scope::proofs::Faults::faults))]
fn resolve_index(
    alloc: Global,
    names: &Table,
    scope: &Scope,
    walk: &mut Walk,
    raw: &Option<Boxed<Place>>,
) -> Result<Option<Boxed<Expr>>, NoMemory>
    ensures built { IfOk result (λ i. i ≡ index_of (names_from names.now) scope.now (index_view raw.now)) }
    ensures noted { OnOk result (walk.new.least ≡ noted_all walk.old.least (index_faults (names_from names.now) scope.now (index_view raw.now))) }
    ensures lined { OnOk result (walk.new.lines ≡ walk.old.lines ++ place_lines (names_from names.now) scope.now (index_view raw.now)) }
{
    match raw {
        None => Ok(None),
        Some(place) => {
            let index = resolve_expr(alloc, names, scope, walk, &place.get().index)?;
            Ok(Some(Boxed::new(alloc, index)?))
        }
    }
}

/// An `int` variable or element that is changed. The line of the variable itself is not added, but
/// those of its index.
#[tactic(auto, using(c_scope::proofs::Faults::faults))]
pub fn resolve_int_target(
    alloc: Global,
    names: &Table,
    scope: &Scope,
    walk: &mut Walk,
    raw: &c_raw::Target,
) -> Result<Target, NoMemory>
    ensures built { IfOk result (λ t. t ≡ target_of (names_from names.now) scope.now (target_view raw.now)) }
    ensures noted { OnOk result (walk.new.least ≡ noted_all walk.old.least (int_target_faults (names_from names.now) scope.now (target_view raw.now))) }
    ensures lined { OnOk result (walk.new.lines ≡ walk.old.lines ++ index_lines (names_from names.now) scope.now (target_view raw.now)) }
{
    let found = use_of(names, scope, raw.name.text.as_slice());
    let fits = match raw.index {
        None => is_int(found),
        Some(_) => is_int_array(found),
    };
    note_reserved(&mut walk.least, &raw.name);
    note_use(&mut walk.least, fits, found, raw.name.spot);
    let index = resolve_index(alloc, names, scope, walk, &raw.index)?;
    let var = var_of(found);
    Ok(Target { var, index })
}

/// A thread variable or element.
#[tactic(auto, using(c_scope::proofs::Faults::faults))]
pub fn resolve_thread_target(
    alloc: Global,
    names: &Table,
    scope: &Scope,
    walk: &mut Walk,
    raw: &c_raw::Target,
) -> Result<Target, NoMemory>
    ensures built { IfOk result (λ t. t ≡ target_of (names_from names.now) scope.now (target_view raw.now)) }
    ensures noted { OnOk result (walk.new.least ≡ noted_all walk.old.least (thread_target_faults (names_from names.now) scope.now (target_view raw.now))) }
    ensures lined { OnOk result (walk.new.lines ≡ walk.old.lines ++ index_lines (names_from names.now) scope.now (target_view raw.now)) }
{
    let found = use_of(names, scope, raw.name.text.as_slice());
    let fits = match raw.index {
        None => is_thread(found),
        Some(_) => is_thread_array(found),
    };
    note_reserved(&mut walk.least, &raw.name);
    note_use(&mut walk.least, fits, found, raw.name.spot);
    let index = resolve_index(alloc, names, scope, walk, &raw.index)?;
    let var = var_of(found);
    Ok(Target { var, index })
}

/// Adds the line of an access to the variable of a target.
pub fn touch_target(
    names: &Table,
    scope: &Scope,
    lines: &mut List<u32>,
    raw: &c_raw::Target,
) -> Result<(), NoMemory>
    ensures { OnOk result (lines.new ≡ lines.old ++ target_lines (names_from names.now) scope.now (target_view raw.now)) }
{
    let found = use_of(names, scope, raw.name.text.as_slice());
    touch(lines, var_of(found), raw.name.spot)
}
