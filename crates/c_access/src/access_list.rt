ghost use Rattle.std.specs.Prelude.{◌≡◌, ◌<◌, length, slice_get, Some};

use c_prog::AccessItem;
use cfix_base::List;
use std::marker::Model;

/// The accesses of a node, in evaluation order.
#[derive(Drop)]
pub struct AccessList {
    items: List<AccessItem>,
}

impl Model for AccessList {
    ghost use Rattle.std.specs.Prelude.{List};
    ghost use Rattle.c_prog.specs.declared.access_item.AccessItem.{AccessItem};

    ghost Value = { List AccessItem };

    ghost use Rattle.std.specs.Coded.{coded_list};
    ghost use Rattle.c_prog.specs.contracts.access_item.AccessItem as row_of;

    ghost coded = { coded_list row_of.the_row.coded };

    ghost view = { λ list. list.items };
}

impl AccessList {
    /// The list of these accesses.
    pub(crate) fn of(items: List<AccessItem>) -> AccessList
        ensures { result ≡ items }
    {
        AccessList { items }
    }

    /// The number of accesses.
    pub fn len(&self) -> usize
        ensures { result ≡ length self.now }
    {
        self.items.len()
    }

    /// The access at `place`, counted from 0.
    pub fn at(&self, place: usize) -> &AccessItem
        requires { place < length self.now }
        ensures { slice_get self.now place ≡ Some result.now }
    {
        self.items.at(place)
    }
}
