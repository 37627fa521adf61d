ghost use Rattle.std.specs.Prelude.{◌≡◌, ◌+◌, ◌<◌, ◌^◌, ◌++◌, [], ◌∷◌, map, length, OnOk};
ghost use Rattle.c_raw.specs.Files.{name_view, more_params_view, params_view, head_view};
ghost use Rattle.c_grammar.specs.Marks.{maybe};
ghost use Rattle.c_names.specs.Declarations.{param_of, params_of, head_kind, head_params};
ghost use Rattle.c_names.specs.Faults.{noted_all};
ghost use Rattle.c_names.specs.Files.{param_text, param_name_faults, params_faults};
ghost use Rattle.c_prog.specs.Valid.Scope.{declared};
ghost use Rattle.c_prog.specs.Valid.Functions.{param_kind, with_params};
ghost use Rattle.c_scope.specs.Tables.{names_from};
ghost use Rattle.c_scope.specs.Views as v;

use crate::head::head_kind;
use c_names::{Fault, FaultKind};
use c_prog::FnKind;
use c_raw::{Head, Ident, Param, Params};
use c_scope::{Scope, Table, VarKind, note_declare, note_if};
use cfix_base::{List, NoMemory, Spot};
use std::alloc::Global;

/// What the parameters of a function give: the least fault, the scope behind them and their names.
#[derive(Drop)]
pub struct Listing {
    pub least: Option<Fault>,
    pub scope: Scope,
    pub texts: List<List<u8>>,
}

fn param_kind(kind: FnKind) -> VarKind
    ensures { v.kind_view result ≡ param_kind kind }
{
    match kind {
        FnKind::Thread => VarKind::Argument,
        _ => VarKind::Int,
    }
}

// The name of a parameter; without one, the empty text.
fn param_text(name: &Option<Ident>) -> &[u8]
    ensures { result.now ≡ maybe [] (λ x. x.text) (name_view name.now) }
{
    match name {
        None => &[],
        Some(name) => name.text.as_slice(),
    }
}

fn note_name(
    least: &mut Option<Fault>,
    names: &Table,
    scope: &Scope,
    at: Spot,
    name: &Option<Ident>,
)
    ensures { least.new ≡ noted_all least.old (param_name_faults (names_from names.now) scope.now at (name_view name.now)) }
{
    match name {
        None => note_if(least, true, at, FaultKind::WrongUse),
        Some(name) => note_declare(least, names, scope, name),
    }
}

fn add_param(
    alloc: Global,
    names: &Table,
    listing: &mut Listing,
    kind: VarKind,
    at: Spot,
    name: &Option<Ident>,
) -> Result<(), NoMemory>
    requires fits { listing.old.scope.count + 1 < 2 ^ 32 }
    ensures noted { OnOk result (listing.new.least ≡ noted_all listing.old.least (param_name_faults (names_from names.now) listing.old.scope at (name_view name.now))) }
    ensures seen { OnOk result (listing.new.scope ≡ declared (maybe [] (λ x. x.text) (name_view name.now)) (v.kind_view kind) listing.old.scope) }
    ensures built { OnOk result (listing.new.texts ≡ listing.old.texts ++ maybe [] (λ x. x.text) (name_view name.now) ∷ []) }
{
    note_name(&mut listing.least, names, &listing.scope, at, name);
    let text = param_text(name);
    listing.scope.declare(alloc, text, kind)?;
    listing.texts.push(List::from_vec(text.to_vec(alloc)?))
}

#[tactic(auto, using(c_scope::proofs::Faults::faults))]
fn add_more(
    alloc: Global,
    names: &Table,
    listing: &mut Listing,
    kind: VarKind,
    more: &[(Spot, Param)],
) -> Result<(), NoMemory>
    requires fits { listing.old.scope.count + length more.now < 2 ^ 32 }
    ensures noted { OnOk result (listing.new.least ≡ noted_all listing.old.least (params_faults (names_from names.now) (v.kind_view kind) listing.old.scope (map param_of (map (λ y. y.1) (more_params_view more.now))))) }
    ensures seen { OnOk result (listing.new.scope ≡ with_params (v.kind_view kind) (map param_text (map param_of (map (λ y. y.1) (more_params_view more.now)))) listing.old.scope) }
    ensures built { OnOk result (listing.new.texts ≡ listing.old.texts ++ map param_text (map param_of (map (λ y. y.1) (more_params_view more.now)))) }
    ensures counted { OnOk result (listing.new.scope.count ≡ listing.old.scope.count + length more.now) }
{
    for next in more {
        add_param(alloc, names, listing, kind, next.1.at, &next.1.name)?;
    }
    Ok(())
}

#[tactic(auto, using(c_scope::proofs::Faults::faults, crate::proofs::Listed::listed))]
fn add_list(
    alloc: Global,
    names: &Table,
    listing: &mut Listing,
    kind: VarKind,
    params: &Params,
) -> Result<(), NoMemory>
    requires fits { listing.old.scope.count + length (params_of (params_view params.now)) < 2 ^ 32 }
    ensures noted { OnOk result (listing.new.least ≡ noted_all listing.old.least (params_faults (names_from names.now) (v.kind_view kind) listing.old.scope (params_of (params_view params.now)))) }
    ensures seen { OnOk result (listing.new.scope ≡ with_params (v.kind_view kind) (map param_text (params_of (params_view params.now))) listing.old.scope) }
    ensures built { OnOk result (listing.new.texts ≡ listing.old.texts ++ map param_text (params_of (params_view params.now))) }
    ensures counted { OnOk result (listing.new.scope.count ≡ listing.old.scope.count + length (params_of (params_view params.now))) }
{
    match params {
        Params::NoParams | Params::VoidParams(_) => Ok(()),
        Params::SomeParams { first, more } => {
            add_param(alloc, names, listing, kind, first.at, &first.name)?;
            add_more(alloc, names, listing, kind, more.as_slice())
        }
    }
}

/// Declares the parameters of a function.
pub fn add_params(
    alloc: Global,
    names: &Table,
    listing: &mut Listing,
    head: &Head,
) -> Result<(), NoMemory>
    requires fits { listing.old.scope.count + length (head_params (head_view head.now)) < 2 ^ 32 }
    ensures noted { OnOk result (listing.new.least ≡ noted_all listing.old.least (params_faults (names_from names.now) (param_kind (head_kind (head_view head.now))) listing.old.scope (head_params (head_view head.now)))) }
    ensures seen { OnOk result (listing.new.scope ≡ with_params (param_kind (head_kind (head_view head.now))) (map param_text (head_params (head_view head.now))) listing.old.scope) }
    ensures built { OnOk result (listing.new.texts ≡ listing.old.texts ++ map param_text (head_params (head_view head.now))) }
    ensures counted { OnOk result (listing.new.scope.count ≡ listing.old.scope.count + length (head_params (head_view head.now))) }
{
    let kind = param_kind(head_kind(head));
    match head {
        Head::Plain { params, .. } => add_list(alloc, names, listing, kind, params),
        Head::Thread { void, param, .. } => add_param(alloc, names, listing, kind, *void, param),
    }
}
