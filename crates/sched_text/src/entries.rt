ghost use Rattle.std.specs.Prelude.{◌≡◌, [], ◌∷◌, ◌++◌, ◌<◌, length, slice_get, OnOk, OnErr};

use cfix_base::{Entry, List, NoMemory};
use std::alloc::Global;
use std::marker::Model;

/// A schedule. Contracts see the list of its entries.
#[derive(Debug, Drop)]
pub struct Schedule {
    entries: List<Entry>,
}

impl Model for Schedule {
    ghost use Rattle.std.specs.Prelude.{List};
    ghost use Rattle.cfix_base.specs.declared.entry.Entry.{Entry};

    ghost Value = { List Entry };

    ghost view = { λ schedule. schedule.entries };
}

impl Schedule {
    /// The empty schedule. It takes no memory, and keeps the allocator for later.
    pub fn new(alloc: Global) -> Schedule
        ensures { result ≡ [] }
    {
        Schedule {
            entries: List::new(alloc),
        }
    }

    /// The number of entries.
    pub fn len(&self) -> usize
        ensures { result ≡ length self.now }
    {
        self.entries.len()
    }

    /// The entries.
    pub fn as_slice(&self) -> &[Entry]
        ensures { result.now ≡ self.now }
    {
        self.entries.as_slice()
    }

    /// The entry at `place`, counted from 0.
    pub fn at(&self, place: usize) -> &Entry
        requires { place < length self.now }
        ensures { slice_get self.now place ≡ Some result.now }
    {
        self.entries.at(place)
    }

    /// Adds `entry` at the end. After an error the schedule is as before.
    pub fn push(&mut self, entry: Entry) -> Result<(), NoMemory>
        ensures pushed { OnOk result (self.new ≡ self.old ++ entry ∷ []) }
        ensures unchanged { OnErr result (self.new ≡ self.old) }
    {
        self.entries.push(entry)
    }
}
