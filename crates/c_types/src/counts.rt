ghost use Rattle.std.specs.Prelude.{◌≡◌, ◌++◌, map, IfOk, OnOk};
ghost use Rattle.c_raw.specs.Decls.{globals_view};
ghost use Rattle.c_raw.specs.Files.{top_view};
ghost use Rattle.c_grammar.specs.Marks.{each};
ghost use Rattle.c_names.specs.Faults.{noted_all};
ghost use Rattle.c_names.specs.Files.{globals_cells, top_functions, top_cells, top_nodes, count_faults};
ghost use Rattle.c_names.specs.Limits.{excess_faults, cells_faults};
ghost use Rattle.c_names.specs.Sources.{top_calls};
ghost use Rattle.c_scope.specs.Tables.{names_from};

use c_declare::push_list;
use c_heads::head_name;
use c_limits::{note_cells, note_excess, push_calls, push_nodes};
use c_names::Fault;
use c_raw::{Globals, Top};
use c_scope::Table;
use cfix_base::{List, MAX_FUNCTIONS, MAX_GLOBAL_CELLS, MAX_GLOBALS, MAX_NODES, NoMemory, Spot};
use std::alloc::Global;

fn push_function(spots: &mut List<Spot>, top: &Top) -> Result<(), NoMemory>
    ensures { OnOk result (spots.new ≡ spots.old ++ top_functions (top_view top.now)) }
{
    match top {
        Top::Function(function) => spots.push(head_name(&function.get().head).spot),
        _ => Ok(()),
    }
}

// The names of the functions of a file.
fn functions_of(alloc: Global, tops: &[Top]) -> Result<List<Spot>, NoMemory>
    ensures { IfOk result (λ spots. spots ≡ each top_functions (map top_view tops.now)) }
{
    let mut spots = List::new(alloc);
    for top in tops {
        push_function(&mut spots, top)?;
    }
    Ok(spots)
}

#[tactic(auto, using(c_declare::proofs::Declarators::declarators))]
fn push_globals(
    cells: &mut List<(Spot, u32)>,
    names: &Table,
    globals: &Globals,
) -> Result<(), NoMemory>
    ensures { OnOk result (cells.new ≡ cells.old ++ globals_cells (names_from names.now) (globals_view globals.now)) }
{
    match globals {
        Globals::Ints { first, more, .. } => push_list(cells, names, first, more.as_slice()),
        Globals::Holds { first, more, .. } => push_list(cells, names, first, more.as_slice()),
        Globals::Mutexes { first, more, .. } => push_list(cells, names, first, more.as_slice()),
        Globals::Conds { first, more, .. } => push_list(cells, names, first, more.as_slice()),
    }
}

fn push_cells(cells: &mut List<(Spot, u32)>, names: &Table, top: &Top) -> Result<(), NoMemory>
    ensures { OnOk result (cells.new ≡ cells.old ++ top_cells (names_from names.now) (top_view top.now)) }
{
    match top {
        Top::Variables { globals, .. } => push_globals(cells, names, globals.get()),
        _ => Ok(()),
    }
}

// The names of the global variables of a file, each with its cells.
fn cells_of(alloc: Global, names: &Table, tops: &[Top]) -> Result<List<(Spot, u32)>, NoMemory>
    ensures { IfOk result (λ cells. cells ≡ each (top_cells (names_from names.now)) (map top_view tops.now)) }
{
    let mut cells = List::new(alloc);
    for top in tops {
        push_cells(&mut cells, names, top)?;
    }
    Ok(cells)
}

// The names alone.
fn spots_of(alloc: Global, cells: &[(Spot, u32)]) -> Result<List<Spot>, NoMemory>
    ensures { IfOk result (λ spots. spots ≡ map (λ x. x.0) cells.now) }
{
    let mut spots = List::new(alloc);
    for next in cells {
        spots.push(next.0)?;
    }
    Ok(spots)
}

fn push_top_nodes(spots: &mut List<Spot>, top: &Top) -> Result<(), NoMemory>
    ensures { OnOk result (spots.new ≡ spots.old ++ top_nodes (top_view top.now)) }
{
    match top {
        Top::Function(function) => push_nodes(spots, function.get().items.as_slice()),
        _ => Ok(()),
    }
}

// The nodes of a file.
fn nodes_of(alloc: Global, tops: &[Top]) -> Result<List<Spot>, NoMemory>
    ensures { IfOk result (λ spots. spots ≡ each top_nodes (map top_view tops.now)) }
{
    let mut spots = List::new(alloc);
    for top in tops {
        push_top_nodes(&mut spots, top)?;
    }
    Ok(spots)
}

fn note_functions(alloc: Global, least: &mut Option<Fault>, tops: &[Top]) -> Result<(), NoMemory>
    ensures { OnOk result (least.new ≡ noted_all least.old (excess_faults MAX_FUNCTIONS (each top_functions (map top_view tops.now)))) }
{
    let functions = functions_of(alloc, tops)?;
    note_excess(least, MAX_FUNCTIONS, functions.as_slice());
    Ok(())
}

fn note_globals(
    alloc: Global,
    least: &mut Option<Fault>,
    names: &Table,
    tops: &[Top],
) -> Result<(), NoMemory>
    ensures { OnOk result (least.new ≡ noted_all least.old (excess_faults MAX_GLOBALS (map (λ x. x.0) (each (top_cells (names_from names.now)) (map top_view tops.now))))) }
{
    let cells = cells_of(alloc, names, tops)?;
    let globals = spots_of(alloc, cells.as_slice())?;
    note_excess(least, MAX_GLOBALS, globals.as_slice());
    Ok(())
}

fn note_global_cells(
    alloc: Global,
    least: &mut Option<Fault>,
    names: &Table,
    tops: &[Top],
) -> Result<(), NoMemory>
    ensures { OnOk result (least.new ≡ noted_all least.old (cells_faults MAX_GLOBAL_CELLS (each (top_cells (names_from names.now)) (map top_view tops.now)))) }
{
    let cells = cells_of(alloc, names, tops)?;
    note_cells(least, MAX_GLOBAL_CELLS, cells.as_slice());
    Ok(())
}

fn note_nodes(alloc: Global, least: &mut Option<Fault>, tops: &[Top]) -> Result<(), NoMemory>
    ensures { OnOk result (least.new ≡ noted_all least.old (excess_faults MAX_NODES (each top_nodes (map top_view tops.now)))) }
{
    let nodes = nodes_of(alloc, tops)?;
    note_excess(least, MAX_NODES, nodes.as_slice());
    Ok(())
}

/// Notes functions, global variables, cells of them and nodes that are too many.
#[tactic(auto, using(c_scope::proofs::Faults::faults))]
pub fn note_counts(
    alloc: Global,
    least: &mut Option<Fault>,
    names: &Table,
    tops: &[Top],
) -> Result<(), NoMemory>
    ensures { OnOk result (least.new ≡ noted_all least.old (count_faults (names_from names.now) (map top_view tops.now))) }
{
    note_functions(alloc, least, tops)?;
    note_globals(alloc, least, names, tops)?;
    note_global_cells(alloc, least, names, tops)?;
    note_nodes(alloc, least, tops)?;
    Ok(())
}

fn push_top_calls(lines: &mut List<u32>, top: &Top) -> Result<(), NoMemory>
    ensures { OnOk result (lines.new ≡ lines.old ++ top_calls (top_view top.now)) }
{
    match top {
        Top::Function(function) => push_calls(lines, function.get().items.as_slice()),
        _ => Ok(()),
    }
}

/// The line of each called name, in the order of the text.
pub fn calls_of(alloc: Global, tops: &[Top]) -> Result<List<u32>, NoMemory>
    ensures { IfOk result (λ lines. lines ≡ each top_calls (map top_view tops.now)) }
{
    let mut lines = List::new(alloc);
    for top in tops {
        push_top_calls(&mut lines, top)?;
    }
    Ok(lines)
}
