ghost use Rattle.std.specs.Prelude.{◌≡◌, ◌+◌, ◌<◌, ◌^◌, [], ◌∷◌, map, length, OnOk};
ghost use Rattle.c_raw.specs.Tokens.{ident_view};
ghost use Rattle.c_names.specs.Declarations.{numbered};
ghost use Rattle.c_names.specs.Faults.{noted_all};
ghost use Rattle.c_names.specs.Scopes.{listed};
ghost use Rattle.c_declare.specs.Declaring.{with_name, with_declarations, again_faults, all_again_faults};

use crate::declarator::Declarator;
use c_names::{Fault, FaultKind};
use c_raw::Ident;
use c_scope::{Meaning, Table, note_if};
use cfix_base::{NoMemory, Spot};
use std::alloc::Global;

/// Declares a name of the file.
pub fn declare(
    alloc: Global,
    table: &mut Table,
    least: &mut Option<Fault>,
    name: &Ident,
    meaning: Meaning,
) -> Result<(), NoMemory>
    ensures seen { OnOk result (table.new ≡ with_name table.old (ident_view name.now).text meaning) }
    ensures noted { OnOk result (least.new ≡ noted_all least.old (again_faults table.old (ident_view name.now))) }
{
    let text = name.text.as_slice();
    let is_again = match table.row(text) {
        None => false,
        Some(_) => true,
    };
    note_if(least, is_again, name.spot, FaultKind::Twice);
    table.declare(text.to_vec(alloc)?, meaning)
}

/// Declares a global variable with this number.
fn declare_variable<D: Declarator>(
    alloc: Global,
    table: &mut Table,
    least: &mut Option<Fault>,
    number: u32,
    declarator: &D,
) -> Result<(), NoMemory>
    ensures seen { OnOk result (table.new ≡ with_declarations table.old (numbered number (map D.variable (declarator.now ∷ [])))) }
    ensures noted { OnOk result (least.new ≡ noted_all least.old (all_again_faults table.old (numbered number (map D.variable (declarator.now ∷ []))))) }
{
    let kind = declarator.kind();
    let meaning = Meaning::Variable { number, kind };
    declare(alloc, table, least, declarator.name(), meaning)
}

#[tactic(auto, using(crate::proofs::Tables::tables, c_scope::proofs::Faults::faults))]
fn declare_more<D: Declarator>(
    alloc: Global,
    table: &mut Table,
    least: &mut Option<Fault>,
    number: u32,
    more: &[(Spot, D)],
) -> Result<(), NoMemory>
    requires fits { number + length more.now < 2 ^ 32 }
    ensures seen { OnOk result (table.new ≡ with_declarations table.old (numbered number (map D.variable (map (λ y. y.1) more.now)))) }
    ensures noted { OnOk result (least.new ≡ noted_all least.old (all_again_faults table.old (numbered number (map D.variable (map (λ y. y.1) more.now))))) }
{
    let mut next = number;
    for declarator in more {
        declare_variable(alloc, table, least, next, &declarator.1)?;
        next += 1;
    }
    Ok(())
}

/// Declares global variables, the first with this number.
#[tactic(auto, using(crate::proofs::Tables::tables, c_scope::proofs::Faults::faults))]
pub fn declare_list<D: Declarator>(
    alloc: Global,
    table: &mut Table,
    least: &mut Option<Fault>,
    number: u32,
    first: &D,
    more: &[(Spot, D)],
) -> Result<(), NoMemory>
    requires fits { number + 1 + length more.now < 2 ^ 32 }
    ensures seen { OnOk result (table.new ≡ with_declarations table.old (numbered number (map D.variable (listed first.now more.now)))) }
    ensures noted { OnOk result (least.new ≡ noted_all least.old (all_again_faults table.old (numbered number (map D.variable (listed first.now more.now))))) }
{
    declare_variable(alloc, table, least, number, first)?;
    declare_more(alloc, table, least, number + 1, more)
}
