ghost use Rattle.std.specs.Prelude.{◌≡◌, map};
ghost use Rattle.c_raw.specs.Tokens.{ident_view};
ghost use Rattle.c_raw.specs.Files.{name_view, more_params_view, params_view, head_view};
ghost use Rattle.c_grammar.specs.Marks.{each};
ghost use Rattle.c_names.specs.Declarations.{param_of, params_of, head_params};
ghost use Rattle.c_names.specs.Faults.{noted_all};
ghost use Rattle.c_names.specs.Files.{is_same_kind, is_same_form, prototype_name_faults, prototype_param_faults, prototype_faults};
ghost use Rattle.c_scope.specs.Tables.{names_from};

use crate::head::{head_count, head_kind, head_name};
use c_names::{Fault, FaultKind};
use c_prog::FnKind;
use c_raw::{Head, Ident, Param, Params};
use c_scope::{Table, note_if, note_reserved};
use cfix_base::Spot;

fn is_same_kind(a: FnKind, b: FnKind) -> bool
    ensures { result ≡ is_same_kind a b }
{
    match (a, b) {
        (FnKind::Int, FnKind::Int) => true,
        (FnKind::Void, FnKind::Void) => true,
        (FnKind::Thread, FnKind::Thread) => true,
        _ => false,
    }
}

fn is_same_form(a: (FnKind, usize), b: (FnKind, usize)) -> bool
    ensures { result ≡ is_same_form a b }
{
    is_same_kind(a.0, b.0) && a.1 == b.1
}

// A prototype has a definition, and agrees with it.
fn note_form(
    least: &mut Option<Fault>,
    defined: Option<(FnKind, usize)>,
    name: &Ident,
    form: (FnKind, usize),
)
    ensures { least.new ≡ noted_all least.old (prototype_name_faults defined (ident_view name.now) form) }
{
    match defined {
        None => note_if(least, true, name.spot, FaultKind::Unknown),
        Some(defined) => {
            let is_other = !is_same_form(defined, form);
            note_if(least, is_other, name.spot, FaultKind::WrongUse);
        }
    }
}

// The form of the first function with a name.
fn form_of(names: &Table, name: &Ident) -> Option<(FnKind, usize)>
    ensures { result ≡ (names_from names.now (ident_view name.now).text).form }
{
    match names.row(name.text.as_slice()) {
        None => None,
        Some(row) => row.form,
    }
}

// The parameters of a prototype declare nothing.
fn note_param(least: &mut Option<Fault>, at: Spot, name: &Option<Ident>)
    ensures { least.new ≡ noted_all least.old (prototype_param_faults (at, name_view name.now)) }
{
    let _at = at;
    match name {
        None => {}
        Some(name) => note_reserved(least, name),
    }
}

#[tactic(auto, using(c_scope::proofs::Faults::faults))]
fn note_more_params(least: &mut Option<Fault>, more: &[(Spot, Param)])
    ensures { least.new ≡ noted_all least.old (each prototype_param_faults (map param_of (map (λ y. y.1) (more_params_view more.now)))) }
{
    for next in more {
        note_param(least, next.1.at, &next.1.name);
    }
}

#[tactic(auto, using(c_scope::proofs::Faults::faults))]
fn note_list(least: &mut Option<Fault>, params: &Params)
    ensures { least.new ≡ noted_all least.old (each prototype_param_faults (params_of (params_view params.now))) }
{
    match params {
        Params::NoParams | Params::VoidParams(_) => {}
        Params::SomeParams { first, more } => {
            note_param(least, first.at, &first.name);
            note_more_params(least, more.as_slice());
        }
    }
}

#[tactic(auto, using(c_scope::proofs::Faults::faults))]
fn note_params(least: &mut Option<Fault>, head: &Head)
    ensures { least.new ≡ noted_all least.old (each prototype_param_faults (head_params (head_view head.now))) }
{
    match head {
        Head::Plain { params, .. } => note_list(least, params),
        Head::Thread { void, param, .. } => note_param(least, *void, param),
    }
}

/// Notes the faults of a prototype.
#[tactic(auto, using(c_scope::proofs::Faults::faults))]
pub fn note_prototype(least: &mut Option<Fault>, names: &Table, head: &Head)
    ensures { least.new ≡ noted_all least.old (prototype_faults (names_from names.now) (head_view head.now)) }
{
    let name = head_name(head);
    note_reserved(least, name);
    let form = (head_kind(head), head_count(head));
    note_form(least, form_of(names, name), name, form);
    note_params(least, head);
}
