ghost use Rattle.std.specs.Prelude.{◌≡◌, ◌+◌, ◌<◌, ◌^◌, ◌++◌, true, map, OnOk, IfOk};
ghost use Rattle.std.specs.List.{list_all};
ghost use Rattle.c_raw.specs.Tokens.{ident_view};
ghost use Rattle.c_raw.specs.Decls.{globals_view};
ghost use Rattle.c_raw.specs.Files.{replacement_view, top_view};
ghost use Rattle.c_grammar.specs.Marks.{each};
ghost use Rattle.c_names.specs.Declarations.{replacement_number};
ghost use Rattle.c_names.specs.Faults.{noted_all};
ghost use Rattle.c_names.specs.Files.{no_main_faults, globals_faults, top_faults};
ghost use Rattle.c_names.specs.Sources.{globals_of, top_globals, top_functions_of, top_lines};
ghost use Rattle.c_names.specs.Starts.{start_number, start_faults};
ghost use Rattle.c_scope.specs.Tables.{names_from};
ghost use Rattle.c_declare.specs.Counting.{top_count, file_count, globals_fit, top_fits};

use crate::function::resolve_function;
use crate::starts::note_start;
use c_body::Walk;
use c_declare::{note_list, note_no_main, replacement_number, spell_list};
use c_heads::note_prototype;
use c_names::Fault;
use c_prog::Function;
use c_raw::{Globals, Ident, Replacement, Top};
use c_scope::Table;
use cfix_base::{List, NoMemory};
use std::alloc::Global;

/// The global variables and the functions of a program.
#[derive(Drop)]
pub struct Parts {
    pub globals: List<c_prog::Global>,
    pub functions: List<Function>,
}

#[tactic(auto, using(c_declare::proofs::Declarators::declarators))]
fn note_globals(alloc: Global, least: &mut Option<Fault>, names: &Table, globals: &Globals)
    ensures { least.new ≡ noted_all least.old (globals_faults (names_from names.now) (globals_view globals.now)) }
{
    match globals {
        Globals::Ints { first, more, .. } => {
            note_list(alloc, least, names, first, more.as_slice());
        }
        Globals::Holds { first, more, .. } => {
            note_list(alloc, least, names, first, more.as_slice());
        }
        Globals::Mutexes { first, more, .. } => {
            note_list(alloc, least, names, first, more.as_slice());
        }
        Globals::Conds { first, more, .. } => {
            note_list(alloc, least, names, first, more.as_slice());
        }
    }
}

#[tactic(auto, using(c_declare::proofs::Declarators::declarators))]
fn spell_globals(
    alloc: Global,
    list: &mut List<c_prog::Global>,
    names: &Table,
    globals: &Globals,
) -> Result<(), NoMemory>
    requires fits { globals_fit (names_from names.now) (globals_view globals.now) ≡ true }
    ensures { OnOk result (list.new ≡ list.old ++ globals_of (names_from names.now) (globals_view globals.now)) }
{
    match globals {
        Globals::Ints { first, more, .. } => {
            spell_list(alloc, list, names, first, more.as_slice())
        }
        Globals::Holds { first, more, .. } => {
            spell_list(alloc, list, names, first, more.as_slice())
        }
        Globals::Mutexes { first, more, .. } => {
            spell_list(alloc, list, names, first, more.as_slice())
        }
        Globals::Conds { first, more, .. } => {
            spell_list(alloc, list, names, first, more.as_slice())
        }
    }
}

#[tactic(auto, using(c_scope::proofs::Faults::faults))]
fn note_define(least: &mut Option<Fault>, name: &Ident, value: &Replacement)
    ensures { least.new ≡ noted_all least.old (start_faults (start_number (ident_view name.now).text) (ident_view name.now) (replacement_number (replacement_view value.now)) ++ no_main_faults (ident_view name.now)) }
{
    note_start(least, name, replacement_number(value));
    note_no_main(least, name);
}

// One part of a file, with the least fault of its names and the lines of its accesses.
fn resolve_top(
    alloc: Global,
    names: &Table,
    walk: &mut Walk,
    parts: &mut Parts,
    top: &Top,
) -> Result<(), NoMemory>
    requires count { top_count (top_view top.now) < 2 ^ 32 }
    requires fits { top_fits (names_from names.now) (top_view top.now) ≡ true }
    ensures noted { OnOk result (walk.new.least ≡ noted_all walk.old.least (top_faults (names_from names.now) (top_view top.now))) }
    ensures lined { OnOk result (walk.new.lines ≡ walk.old.lines ++ top_lines (names_from names.now) (top_view top.now)) }
    ensures globals { OnOk result (parts.new.globals ≡ parts.old.globals ++ top_globals (names_from names.now) (top_view top.now)) }
    ensures functions { OnOk result (parts.new.functions ≡ parts.old.functions ++ top_functions_of (names_from names.now) (top_view top.now)) }
{
    match top {
        Top::Include { .. } => {}
        Top::Define { defined, value, .. } => note_define(&mut walk.least, defined, value),
        Top::Variables { globals, .. } => {
            note_globals(alloc, &mut walk.least, names, globals.get());
            spell_globals(alloc, &mut parts.globals, names, globals.get())?;
        }
        Top::Prototype { head, .. } => note_prototype(&mut walk.least, names, head.get()),
        Top::Function(function) => {
            let function = resolve_function(alloc, names, walk, function.get())?;
            parts.functions.push(function)?;
        }
    }
    Ok(())
}

/// The parts of a file, one after another.
#[tactic(auto, using(c_scope::proofs::Faults::faults))]
pub fn resolve_tops(
    alloc: Global,
    names: &Table,
    walk: &mut Walk,
    tops: &[Top],
) -> Result<Parts, NoMemory>
    requires count { file_count (map top_view tops.now) < 2 ^ 32 }
    requires fits { list_all (top_fits (names_from names.now)) (map top_view tops.now) ≡ true }
    ensures noted { OnOk result (walk.new.least ≡ noted_all walk.old.least (each (top_faults (names_from names.now)) (map top_view tops.now))) }
    ensures lined { OnOk result (walk.new.lines ≡ walk.old.lines ++ each (top_lines (names_from names.now)) (map top_view tops.now)) }
    ensures globals { IfOk result (λ p. p.globals ≡ each (top_globals (names_from names.now)) (map top_view tops.now)) }
    ensures functions { IfOk result (λ p. p.functions ≡ each (top_functions_of (names_from names.now)) (map top_view tops.now)) }
{
    let mut parts = Parts {
        globals: List::new(alloc),
        functions: List::new(alloc),
    };
    for top in tops {
        resolve_top(alloc, names, walk, &mut parts, top)?;
    }
    Ok(parts)
}
