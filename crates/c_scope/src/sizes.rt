ghost use Rattle.std.specs.Prelude.{◌≡◌};
ghost use Rattle.c_raw.specs.Decls.{size_view};
ghost use Rattle.c_names.specs.Faults.{noted_all};
ghost use Rattle.c_names.specs.Names.{size_faults, size_number, size_length, length_faults};
ghost use Rattle.c_scope.specs.Tables.{names_from};

use crate::least::note_if;
use crate::notes::{note_reserved, note_use};
use crate::scope::Scope;
use crate::table::Table;
use crate::uses::{defined_number, is_defined, use_of};
use c_names::{Fault, FaultKind};
use c_raw::Size;
use cfix_base::{MAX_ARRAY_LENGTH, Spot};

/// The number that is spelled by a number or by a defined name; 1 where the first declaration of
/// the name defines no number.
pub fn size_number(names: &Table, size: &Size) -> i32
    ensures { result ≡ size_number (names_from names.now) (size_view size.now) }
{
    match size {
        Size::Count(number) => number.value,
        Size::Named(name) => match defined_number(names, name.text.as_slice()) {
            Some(number) => number,
            None => 1,
        },
    }
}

/// The length of an array.
pub fn size_length(names: &Table, size: &Size) -> u32
    ensures { result ≡ size_length (names_from names.now) (size_view size.now) }
{
    size_number(names, size).unsigned_abs()
}

/// The name in a size or an initial value stands for a number.
#[tactic(auto, using(crate::proofs::Faults::faults))]
pub fn note_size(least: &mut Option<Fault>, names: &Table, scope: &Scope, size: &Size)
    ensures { least.new ≡ noted_all least.old (size_faults (names_from names.now) scope.now (size_view size.now)) }
{
    match size {
        Size::Count(_) => {}
        Size::Named(name) => {
            let found = use_of(names, scope, name.text.as_slice());
            note_reserved(least, name);
            note_use(least, is_defined(found), found, name.spot);
        }
    }
}

/// Notes an array that has no element or more than 65536.
pub fn note_length(least: &mut Option<Fault>, length: u32, spot: Spot)
    ensures { least.new ≡ noted_all least.old (length_faults length spot) }
{
    let is_wrong = length == 0 || MAX_ARRAY_LENGTH < length;
    note_if(least, is_wrong, spot, FaultKind::Limit);
}
