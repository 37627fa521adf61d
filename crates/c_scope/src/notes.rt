ghost use Rattle.std.specs.Prelude.{◌≡◌};
ghost use Rattle.c_raw.specs.Tokens.{ident_view};
ghost use Rattle.c_names.specs.Faults.{noted_all};
ghost use Rattle.c_names.specs.Names.{reserved_faults, use_faults, declare_faults};
ghost use Rattle.c_scope.specs.Tables.{names_from};
ghost use Rattle.c_scope.specs.Views.{use_view};

use crate::least::note_if;
use crate::scope::Scope;
use crate::table::Table;
use crate::uses::Use;
use c_names::{Fault, FaultKind};
use c_raw::Ident;
use cfix_base::{Spot, is_reserved};

/// Notes a name with a beginning that is reserved.
pub fn note_reserved(least: &mut Option<Fault>, name: &Ident)
    ensures { least.new ≡ noted_all least.old (reserved_faults (ident_view name.now)) }
{
    let kind = FaultKind::Reserved;
    note_if(least, is_reserved(name.text.as_slice()), name.spot, kind);
}

/// Notes a name that has no declaration, or that does not fit where it is used.
pub fn note_use(least: &mut Option<Fault>, fits: bool, found: Use, spot: Spot)
    ensures { least.new ≡ noted_all least.old (use_faults fits (use_view found) spot) }
{
    match found {
        Use::Unknown => note_if(least, true, spot, FaultKind::Unknown),
        _ => note_if(least, !fits, spot, FaultKind::WrongUse),
    }
}

fn is_defined(table: &Table, text: &[u8]) -> bool
    ensures { result ≡ (names_from table.now text.now).is_defined }
{
    match table.row(text) {
        None => false,
        Some(row) => row.is_defined,
    }
}

/// Notes a local or parameter that its block or a `#define` declares already.
#[tactic(auto, using(crate::proofs::Faults::faults))]
pub fn note_declare(least: &mut Option<Fault>, table: &Table, scope: &Scope, name: &Ident)
    ensures { least.new ≡ noted_all least.old (declare_faults (names_from table.now) scope.now (ident_view name.now)) }
{
    note_reserved(least, name);
    let text = name.text.as_slice();
    let twice = scope.is_in_block(text) || is_defined(table, text);
    note_if(least, twice, name.spot, FaultKind::Twice);
}
