ghost use Rattle.std.specs.Prelude.{◌≡◌, ◌+◌, ◌<◌, ◌^◌, ◌++◌, length, map, IfOk, OnOk};
ghost use Rattle.c_raw.specs.Tokens.{ident_view};
ghost use Rattle.c_raw.specs.Ops.{ops_view};
ghost use Rattle.c_raw.specs.Stmts.{items_view};
ghost use Rattle.c_raw.specs.Files.{head_view};
ghost use Rattle.c_names.specs.Declarations.{head_name, head_kind, head_params, head_form};
ghost use Rattle.c_names.specs.Faults.{noted_all};
ghost use Rattle.c_names.specs.Files.{param_text, params_faults, main_form_faults, end_faults, function_cells, function_faults, body_around, body_scope};
ghost use Rattle.c_names.specs.Limits.{cells_faults};
ghost use Rattle.c_names.specs.LinesStatements.{items_lines};
ghost use Rattle.c_names.specs.Names.{reserved_faults};
ghost use Rattle.c_names.specs.Scopes.{items_locals};
ghost use Rattle.c_names.specs.Sources.{function_of};
ghost use Rattle.c_names.specs.Simples.{ops_faults};
ghost use Rattle.c_names.specs.SpelledStatements.{ops_of, items_of};
ghost use Rattle.c_names.specs.Statements.{items_faults};
ghost use Rattle.c_prog.specs.Valid.Expressions.{is_int_kind};
ghost use Rattle.c_prog.specs.Valid.Functions.{param_kind};
ghost use Rattle.c_prog.specs.Valid.Scope.{nothing_declared};
ghost use Rattle.c_scope.specs.Tables.{names_from};

use c_body::{Around, Walk, note_ops, ops_of, resolve_items};
use c_declare::is_main;
use c_falls::falls_through;
use c_heads::{Listing, add_params, head_count, head_kind, head_name, push_params};
use c_limits::{note_cells, push_cells};
use c_names::{Fault, FaultKind};
use c_prog::{FnKind, Function, Stmt};
use c_raw::{Head, Ident, Item};
use c_scope::{Scope, Table, note_if, note_reserved};
use cfix_base::{List, MAX_LOCAL_CELLS, NoMemory};
use sqlite_items::Items;
use std::alloc::Global;

fn is_int(kind: FnKind) -> bool
    ensures { result ≡ is_int_kind kind }
{
    match kind {
        FnKind::Int => true,
        _ => false,
    }
}

// main is an `int` function without parameters.
fn note_main_form(least: &mut Option<Fault>, name: &Ident, kind: FnKind, count: usize)
    ensures { least.new ≡ noted_all least.old (main_form_faults (ident_view name.now) (kind, count)) }
{
    let is_wrong = is_main(name) && !(is_int(kind) && count == 0);
    note_if(least, is_wrong, name.spot, FaultKind::WrongUse);
}

// The body of an `int` function other than main does not fall through.
fn note_end(least: &mut Option<Fault>, head: &Head, body: &[Stmt])
    ensures { least.new ≡ noted_all least.old (end_faults (head_view head.now) body.now) }
{
    let name = head_name(head);
    let falls = is_int(head_kind(head)) && (!is_main(name) && falls_through(body));
    note_if(least, falls, name.spot, FaultKind::NoReturn);
}

// The parameters and locals of a function have few enough cells.
fn note_function_cells(
    alloc: Global,
    least: &mut Option<Fault>,
    names: &Table,
    head: &Head,
    items: &[Item],
) -> Result<(), NoMemory>
    ensures { OnOk result (least.new ≡ noted_all least.old (cells_faults MAX_LOCAL_CELLS (function_cells (names_from names.now) (head_view head.now) (items_view items.now)))) }
{
    let mut cells = List::new(alloc);
    push_params(&mut cells, head)?;
    push_cells(&mut cells, names, items)?;
    note_cells(least, MAX_LOCAL_CELLS, cells.as_slice());
    Ok(())
}

#[tactic(auto, using(c_scope::proofs::Faults::faults))]
fn note_head(least: &mut Option<Fault>, head: &Head)
    ensures { least.new ≡ noted_all (noted_all least.old (reserved_faults (head_name (head_view head.now)))) (main_form_faults (head_name (head_view head.now)) (head_form (head_view head.now))) }
{
    let name = head_name(head);
    note_reserved(least, name);
    note_main_form(least, name, head_kind(head), head_count(head));
}

// The parameters of a function, the least fault up to them among them.
fn parameters(
    alloc: Global,
    names: &Table,
    least: Option<Fault>,
    head: &Head,
) -> Result<Listing, NoMemory>
    requires fits { length (head_params (head_view head.now)) < 2 ^ 32 }
    ensures noted { IfOk result (λ l. l.least ≡ noted_all least (params_faults (names_from names.now) (param_kind (head_kind (head_view head.now))) nothing_declared (head_params (head_view head.now)))) }
    ensures seen { IfOk result (λ l. l.scope ≡ body_scope (head_view head.now)) }
    ensures built { IfOk result (λ l. l.texts ≡ map param_text (head_params (head_view head.now))) }
    ensures counted { IfOk result (λ l. l.scope.count ≡ length (head_params (head_view head.now))) }
{
    let mut listing = Listing {
        least,
        scope: Scope::new(alloc),
        texts: List::new(alloc),
    };
    add_params(alloc, names, &mut listing, head)?;
    Ok(listing)
}

// The operations and the statements of a function in this scope.
#[tactic(auto, using(c_scope::proofs::Faults::faults))]
fn resolve_body(
    alloc: Global,
    names: &Table,
    walk: &mut Walk,
    scope: &mut Scope,
    raw: &c_raw::Function,
) -> Result<Items<Stmt>, NoMemory>
    requires fits { scope.old.count + items_locals (items_view raw.now.items) < 2 ^ 32 }
    ensures built { IfOk result (λ body. body ≡ items_of (names_from names.now) (body_around (head_view raw.now.head)) scope.old (items_view raw.now.items)) }
    ensures noted { OnOk result (walk.new.least ≡ noted_all walk.old.least (ops_faults (ops_view raw.now.ops) ++ items_faults (names_from names.now) (body_around (head_view raw.now.head)) scope.old (items_view raw.now.items))) }
    ensures lined { OnOk result (walk.new.lines ≡ walk.old.lines ++ items_lines (names_from names.now) scope.old (items_view raw.now.items)) }
{
    note_ops(&mut walk.least, raw.ops.as_slice());
    let around = Around {
        kind: head_kind(&raw.head),
        in_loop: false,
    };
    resolve_items(alloc, names, around, scope, walk, raw.items.as_slice())
}

// A function of these parts.
fn function_with(
    alloc: Global,
    raw: &c_raw::Function,
    params: List<List<u8>>,
    body: Items<Stmt>,
) -> Result<Function, NoMemory>
    ensures { IfOk result (λ f. f ≡ record { name = (head_name (head_view raw.now.head)).text; kind = head_kind (head_view raw.now.head); params = params; start = ops_of (ops_view raw.now.ops); body = body }) }
{
    let name = List::from_vec(head_name(&raw.head).text.as_slice().to_vec(alloc)?);
    let start = ops_of(alloc, raw.ops.as_slice())?;
    Ok(Function {
        name,
        kind: head_kind(&raw.head),
        params,
        start,
        body,
    })
}

/// A function, with the least fault of its names and the lines of its accesses.
#[tactic(auto, using(c_scope::proofs::Faults::faults))]
pub fn resolve_function(
    alloc: Global,
    names: &Table,
    walk: &mut Walk,
    raw: &c_raw::Function,
) -> Result<Function, NoMemory>
    requires fits { length (head_params (head_view raw.now.head)) + items_locals (items_view raw.now.items) < 2 ^ 32 }
    ensures built { IfOk result (λ f. f ≡ function_of (names_from names.now) (head_view raw.now.head) (ops_view raw.now.ops) (items_view raw.now.items)) }
    ensures noted { OnOk result (walk.new.least ≡ noted_all walk.old.least (function_faults (names_from names.now) (head_view raw.now.head) (ops_view raw.now.ops) (items_view raw.now.items))) }
    ensures lined { OnOk result (walk.new.lines ≡ walk.old.lines ++ items_lines (names_from names.now) (body_scope (head_view raw.now.head)) (items_view raw.now.items)) }
{
    note_head(&mut walk.least, &raw.head);
    let Listing {
        least,
        mut scope,
        texts,
    } = parameters(alloc, names, walk.least, &raw.head)?;
    walk.least = least;
    let body = resolve_body(alloc, names, walk, &mut scope, raw)?;
    note_end(&mut walk.least, &raw.head, body.as_slice());
    let items = raw.items.as_slice();
    note_function_cells(alloc, &mut walk.least, names, &raw.head, items)?;
    function_with(alloc, raw, texts, body)
}
