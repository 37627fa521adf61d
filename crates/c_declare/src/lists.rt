ghost use Rattle.std.specs.Prelude.{◌≡◌, ◌++◌, true, map, OnOk};
ghost use Rattle.std.specs.List.{list_all};
ghost use Rattle.c_grammar.specs.Marks.{each};
ghost use Rattle.c_names.specs.Faults.{noted_all};
ghost use Rattle.c_names.specs.Scopes.{listed};
ghost use Rattle.c_scope.specs.Tables.{names_from};

use crate::declarator::Declarator;
use c_names::Fault;
use c_scope::Table;
use cfix_base::{List, NoMemory, Spot};
use std::alloc::Global;

/// Notes the faults of declarators.
#[tactic(auto, using(c_scope::proofs::Faults::faults))]
pub fn note_list<D: Declarator>(
    alloc: Global,
    least: &mut Option<Fault>,
    names: &Table,
    first: &D,
    more: &[(Spot, D)],
)
    ensures { least.new ≡ noted_all least.old (each (D.faults (names_from names.now)) (listed first.now more.now)) }
{
    first.note(alloc, least, names);
    for next in more {
        next.1.note(alloc, least, names);
    }
}

/// Adds the variables that declarators spell.
pub fn spell_list<D: Declarator>(
    alloc: Global,
    globals: &mut List<c_prog::Global>,
    names: &Table,
    first: &D,
    more: &[(Spot, D)],
) -> Result<(), NoMemory>
    requires fits { list_all (D.fits (names_from names.now)) (listed first.now more.now) ≡ true }
    ensures { OnOk result (globals.new ≡ globals.old ++ map (D.spelled (names_from names.now)) (listed first.now more.now)) }
{
    globals.push(first.spell(alloc, names)?)?;
    for next in more {
        globals.push(next.1.spell(alloc, names)?)?;
    }
    Ok(())
}

/// Adds the cells of declarators, each with the place of its name.
pub fn push_list<D: Declarator>(
    cells: &mut List<(Spot, u32)>,
    names: &Table,
    first: &D,
    more: &[(Spot, D)],
) -> Result<(), NoMemory>
    ensures { OnOk result (cells.new ≡ cells.old ++ map (D.cells (names_from names.now)) (listed first.now more.now)) }
{
    cells.push(first.cells_at(names))?;
    for next in more {
        cells.push(next.1.cells_at(names))?;
    }
    Ok(())
}
