ghost use Rattle.std.specs.Prelude.{◌≡◌, [], None, OnOk, OnErr};
ghost use Rattle.c_scope.specs.Tables.{row_of, with_row};
ghost use Rattle.c_scope.specs.Places.{flat};

use cfix_base::NoMemory;
use indexmap::IndexMap;
use std::alloc::Global;
use std::marker::Model;

/// For each name, the place of its innermost local among the locals of a scope, if it has one. A
/// look-up takes the same time however many names there are.
#[derive(Drop)]
pub struct Places {
    map: IndexMap<Vec<u8>, Option<usize>>,
}

impl Model for Places {
    ghost use Rattle.std.specs.Prelude.{List, ℕ, Option};
    ghost use Rattle.c_scope.specs.Tables.{rows_of};

    ghost Value = { List (List ℕ × Option ℕ) };

    ghost view = { λ p. rows_of p.map.entries };
}

fn flat(found: Option<Option<usize>>) -> Option<usize>
    ensures { result ≡ flat found }
{
    match found {
        Some(place) => place,
        None => None,
    }
}

impl Places {
    ghost use Rattle.c_scope.specs.Tables.{row_of, with_row};
    ghost use Rattle.c_scope.specs.Places.{flat};

    /// No name has a place. It takes no memory.
    pub fn new(alloc: Global) -> Places
        ensures { result ≡ [] }
    {
        Places {
            map: IndexMap::new(alloc),
        }
    }

    /// The place of the innermost local of this name.
    pub fn get(&self, text: &[u8]) -> Option<usize>
        ensures { result ≡ flat (row_of text.now self.now) }
    {
        flat(self.map.get(text).copied())
    }

    /// Gives a name this place. It fails for a new name alone.
    pub fn set(&mut self, key: Vec<u8>, place: Option<usize>) -> Result<(), NoMemory>
        ensures set { OnOk result (self.new ≡ with_row key.items place self.old) }
        ensures unchanged { OnErr result (self.new ≡ self.old) }
        ensures absent { OnErr result (row_of key.items self.old ≡ None) }
    {
        match self.map.insert(key, place) {
            Ok(_) => Ok(()),
            Err(_) => Err(NoMemory),
        }
    }
}
