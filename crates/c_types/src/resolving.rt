ghost use Rattle.std.specs.Prelude.{◌≡◌, ◌<◌, ◌^◌, [], None, true, codes, map, IfOk, IfErr, OnOk};
ghost use Rattle.std.specs.List.{list_all};
ghost use Rattle.c_raw.specs.Files.{top_view, file_view};
ghost use Rattle.c_grammar.specs.Marks.{each};
ghost use Rattle.c_names.specs.Declarations.{names_of, declarations};
ghost use Rattle.c_names.specs.Faults.{noted_all};
ghost use Rattle.c_names.specs.Files.{is_function_use, main_faults, all_twice_faults, faults_of};
ghost use Rattle.c_grammar.specs.Parsed.{IsParsed};
ghost use Rattle.c_names.specs.Sources.{top_globals, top_functions_of, top_lines, source_of};
ghost use Rattle.c_names.specs.Uses.{file_use};
ghost use Rattle.c_prog.specs.Lines.{IsLined};
ghost use Rattle.c_prog.specs.Valid.{IsValid};
ghost use Rattle.c_scope.specs.Tables.{names_from};
ghost use Rattle.c_declare.specs.Counting.{file_count, top_fits};
ghost use Rattle.c_types.specs.Outcome.{Refuses, Tells};

use crate::counts::{calls_of, note_counts};
use crate::fault::NameFault;
use crate::line_table::lines_of;
use crate::starts::starts_of;
use crate::tops::{Parts, resolve_tops};
use c_body::Walk;
use c_declare::declare_names;
use c_names::{Fault, FaultKind};
use c_prog::{Program, Tree};
use c_raw::{Raw, Top};
use c_scope::{Meaning, Row, Table, note_if};
use c_source::Source;
use cfix_base::{List, NoMemory, Spot};
use std::alloc::Global;

fn has_main(names: &Table) -> bool
    ensures { result ≡ is_function_use (file_use (names_from names.now (codes "main")).first) }
{
    match names.row(b"main".as_slice()) {
        Some(
            Row {
                first: Meaning::Function { .. },
                ..
            },
        ) => true,
        _ => false,
    }
}

// main is there; its absence stands at the text's end.
fn note_main(least: &mut Option<Fault>, names: &Table, end: Spot)
    ensures { least.new ≡ noted_all least.old (main_faults (names_from names.now) end) }
{
    note_if(least, !has_main(names), end, FaultKind::Unknown);
}

/// What the names of a file give: the least fault, the parts of the program, and the line of each
/// access.
#[derive(Drop)]
struct Outcome {
    least: Option<Fault>,
    parts: Parts,
    lines: List<u32>,
}

fn table_of(alloc: Global, least: &mut Option<Fault>, tops: &[Top]) -> Result<Table, NoMemory>
    requires fits { file_count (map top_view tops.now) < 2 ^ 32 }
    ensures seen { IfOk result (λ table. names_from table ≡ names_of (map top_view tops.now)) }
    ensures noted { OnOk result (least.new ≡ noted_all least.old (all_twice_faults [] (declarations (map top_view tops.now)))) }
{
    let table = declare_names(alloc, least, tops)?;
    Ok(table)
}

// The least fault of a file whose text ends here, and what its names resolve to.
fn resolve_names(alloc: Global, tops: &[Top], end: Spot) -> Result<Outcome, NoMemory>
    requires count { file_count (map top_view tops.now) < 2 ^ 32 }
    requires fits { list_all (top_fits (names_of (map top_view tops.now))) (map top_view tops.now) ≡ true }
    ensures noted { IfOk result (λ o. o.least ≡ noted_all None (faults_of end (map top_view tops.now))) }
    ensures globals { IfOk result (λ o. o.parts.globals ≡ each (top_globals (names_of (map top_view tops.now))) (map top_view tops.now)) }
    ensures functions { IfOk result (λ o. o.parts.functions ≡ each (top_functions_of (names_of (map top_view tops.now))) (map top_view tops.now)) }
    ensures lined { IfOk result (λ o. o.lines ≡ each (top_lines (names_of (map top_view tops.now))) (map top_view tops.now)) }
{
    let mut least = None;
    let names = table_of(alloc, &mut least, tops)?;
    let lines = List::new(alloc);
    let mut walk = Walk { least, lines };
    let parts = resolve_tops(alloc, &names, &mut walk, tops)?;
    note_main(&mut walk.least, &names, end);
    note_counts(alloc, &mut walk.least, &names, tops)?;
    let Walk { least, lines } = walk;
    Ok(Outcome {
        least,
        parts,
        lines,
    })
}

// The source of these parts, where the program is valid: each access and call has its line.
#[tactic(auto, using(names_laws::proofs::Lined::lined_spelled))]
fn source_of(alloc: Global, tops: &[Top], parts: Parts, lines: &[u32]) -> Result<Source, NoMemory>
    requires globals { parts.globals ≡ each (top_globals (names_of (map top_view tops.now))) (map top_view tops.now) }
    requires functions { parts.functions ≡ each (top_functions_of (names_of (map top_view tops.now))) (map top_view tops.now) }
    requires lined { lines.now ≡ each (top_lines (names_of (map top_view tops.now))) (map top_view tops.now) }
    requires valid { IsValid (source_of (map top_view tops.now)).tree }
    ensures { IfOk result (λ source. source ≡ source_of (map top_view tops.now)) }
{
    let calls = calls_of(alloc, tops)?;
    let starts = starts_of(alloc, tops)?;
    let Parts { globals, functions } = parts;
    let program = Program::of(Tree {
        globals,
        functions,
        starts,
    });
    let lines = lines_of(alloc, &program, lines, calls.as_slice())?;
    Ok(Source::of(program, lines))
}

// The source of these parts of a file whose text ends here, or the least fault of its names.
fn resolve_file(alloc: Global, tops: &[Top], end: Spot) -> Result<Source, NameFault>
    requires parsed { IsParsed end (map top_view tops.now) }
    ensures spelled { IfOk result (λ source. source ≡ source_of (map top_view tops.now)) }
    ensures clean { OnOk result (faults_of end (map top_view tops.now) ≡ []) }
    ensures told { IfErr result (λ e. Tells e (noted_all None (faults_of end (map top_view tops.now)))) }
{
    let outcome = resolve_names(alloc, tops, end)?;
    match outcome.least {
        Some(fault) => Err(NameFault::of(fault)),
        None => Ok(source_of(alloc, tops, outcome.parts, outcome.lines.as_slice())?),
    }
}

/// The program that a file spells, with the lines of its accesses and called names, or the least
/// fault of its names: of those at the least token the one whose kind stands first.
pub fn resolve(alloc: Global, raw: &Raw) -> Result<Source, NameFault>
    requires parsed { IsParsed raw.now.end (file_view raw.now) }
    ensures spelled { IfOk result (λ source. source ≡ source_of (file_view raw.now)) }
    ensures valid { IfOk result (λ source. IsValid source.tree) }
    ensures clean { OnOk result (faults_of raw.now.end (file_view raw.now) ≡ []) }
    ensures fault { IfErr result (λ e. Refuses e (faults_of raw.now.end (file_view raw.now))) }
    ensures told { IfErr result (λ e. Tells e (noted_all None (faults_of raw.now.end (file_view raw.now)))) }
{
    resolve_file(alloc, raw.tops.as_slice(), raw.end)
}
