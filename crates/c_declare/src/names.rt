ghost use Rattle.std.specs.Prelude.{◌≡◌, ◌+◌, ◌<◌, ◌^◌, [], map, length, OnOk, IfOk};
ghost use Rattle.c_raw.specs.Decls.{globals_view};
ghost use Rattle.c_raw.specs.Files.{replacement_view, head_view, top_view};
ghost use Rattle.c_names.specs.Declarations.{variables, numbered, replacement_number, function_declaration, declarations_from};
ghost use Rattle.c_names.specs.Faults.{noted_all};
ghost use Rattle.c_declare.specs.Counting.{top_count, file_count};
ghost use Rattle.c_declare.specs.Declaring.{meaning_kept, with_name, with_declarations, again_faults, all_again_faults, top_declarations, globals_behind, functions_behind};

use crate::declare::{declare, declare_list};
use c_heads::{head_count, head_kind, head_name};
use c_names::Fault;
use c_raw::{Globals, Head, Replacement, Top};
use c_scope::{Meaning, Table};
use cfix_base::NoMemory;
use std::alloc::Global;

/// The number that a name is defined as.
pub fn replacement_number(value: &Replacement) -> i32
    ensures { result ≡ replacement_number (replacement_view value.now) }
{
    match value {
        Replacement::Plainly(number) => number.value,
        Replacement::InParens { number, .. } => number.value,
    }
}

#[tactic(auto, using(c_heads::proofs::Listed::listed))]
fn variables_count(globals: &Globals) -> u32
    requires { length (variables (globals_view globals.now)) < 2 ^ 32 }
    ensures { result ≡ length (variables (globals_view globals.now)) }
{
    match globals {
        Globals::Ints { more, .. } => more.len() as u32 + 1,
        Globals::Holds { more, .. } => more.len() as u32 + 1,
        Globals::Mutexes { more, .. } => more.len() as u32 + 1,
        Globals::Conds { more, .. } => more.len() as u32 + 1,
    }
}

#[tactic(auto, using(crate::proofs::Declarators::declarators))]
fn declare_globals(
    alloc: Global,
    table: &mut Table,
    least: &mut Option<Fault>,
    number: u32,
    globals: &Globals,
) -> Result<(), NoMemory>
    requires fits { number + length (variables (globals_view globals.now)) < 2 ^ 32 }
    ensures seen { OnOk result (table.new ≡ with_declarations table.old (numbered number (variables (globals_view globals.now)))) }
    ensures noted { OnOk result (least.new ≡ noted_all least.old (all_again_faults table.old (numbered number (variables (globals_view globals.now))))) }
{
    match globals {
        Globals::Ints { first, more, .. } => {
            declare_list(alloc, table, least, number, first, more.as_slice())
        }
        Globals::Holds { first, more, .. } => {
            declare_list(alloc, table, least, number, first, more.as_slice())
        }
        Globals::Mutexes { first, more, .. } => {
            declare_list(alloc, table, least, number, first, more.as_slice())
        }
        Globals::Conds { first, more, .. } => {
            declare_list(alloc, table, least, number, first, more.as_slice())
        }
    }
}

fn declare_function(
    alloc: Global,
    table: &mut Table,
    least: &mut Option<Fault>,
    number: u32,
    head: &Head,
) -> Result<(), NoMemory>
    ensures seen { OnOk result (table.new ≡ with_name table.old (function_declaration number (head_view head.now)).0.text (meaning_kept (function_declaration number (head_view head.now)).1)) }
    ensures noted { OnOk result (least.new ≡ noted_all least.old (again_faults table.old (function_declaration number (head_view head.now)).0)) }
{
    let meaning = Meaning::Function {
        number,
        kind: head_kind(head),
        params: head_count(head),
    };
    declare(alloc, table, least, head_name(head), meaning)
}

// What one part of a file declares, and how many variables and functions stand before the next.
fn declare_top(
    alloc: Global,
    table: &mut Table,
    least: &mut Option<Fault>,
    globals: &mut u32,
    functions: &mut u32,
    top: &Top,
) -> Result<(), NoMemory>
    requires fits { globals.old + functions.old + top_count (top_view top.now) < 2 ^ 32 }
    ensures seen { OnOk result (table.new ≡ with_declarations table.old (top_declarations globals.old functions.old (top_view top.now))) }
    ensures noted { OnOk result (least.new ≡ noted_all least.old (all_again_faults table.old (top_declarations globals.old functions.old (top_view top.now)))) }
    ensures globals { OnOk result (globals.new ≡ globals_behind globals.old (top_view top.now)) }
    ensures functions { OnOk result (functions.new ≡ functions_behind functions.old (top_view top.now)) }
{
    match top {
        Top::Include { .. } | Top::Prototype { .. } => Ok(()),
        Top::Define { defined, value, .. } => {
            let meaning = Meaning::Number(replacement_number(value));
            declare(alloc, table, least, defined, meaning)
        }
        Top::Variables { globals: list, .. } => {
            declare_globals(alloc, table, least, *globals, list.get())?;
            *globals += variables_count(list.get());
            Ok(())
        }
        Top::Function(function) => {
            declare_function(alloc, table, least, *functions, &function.get().head)?;
            *functions += 1;
            Ok(())
        }
    }
}

/// The table of the names that a file declares, with the least fault of names that are declared
/// again.
#[tactic(auto, using(crate::proofs::Tables::tables, c_scope::proofs::Faults::faults))]
pub fn declare_names(
    alloc: Global,
    least: &mut Option<Fault>,
    tops: &[Top],
) -> Result<Table, NoMemory>
    requires fits { file_count (map top_view tops.now) < 2 ^ 32 }
    ensures seen { IfOk result (λ table. table ≡ with_declarations [] (declarations_from 0 0 (map top_view tops.now))) }
    ensures noted { OnOk result (least.new ≡ noted_all least.old (all_again_faults [] (declarations_from 0 0 (map top_view tops.now)))) }
{
    let mut table = Table::new(alloc);
    let mut globals = 0;
    let mut functions = 0;
    for top in tops {
        declare_top(alloc, &mut table, least, &mut globals, &mut functions, top)?;
    }
    Ok(table)
}
