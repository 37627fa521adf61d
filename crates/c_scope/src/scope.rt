ghost use Rattle.std.specs.Prelude.{◌≡◌, ℕ, ◌+◌, ◌-◌, ◌<◌, ◌≤◌, ◌^◌, ◌++◌, ◌∷◌, [], Option, OnOk, OnErr, length, take, option_map, slice_get};
ghost use Rattle.std.specs.Option.{option_copied};
ghost use Rattle.c_prog.specs.Valid.Scope.{nothing_declared, is_in_block, local_named, declared, entered};
ghost use Rattle.c_scope.specs.Views.{kind_view, local_view};
ghost use Rattle.c_scope.specs.Places.{entry_view, Indexed};
ghost use Rattle.c_scope.specs.Scopes.{left};

use crate::entry::Entry;
use crate::kind::VarKind;
use crate::local::Local;
use crate::places::Places;
use cfix_base::{List, NoMemory};
use sqlite_items::Items;
use std::alloc::Global;
use std::marker::Model;

/// The parameters and locals that are declared before a place, those of closed blocks not among
/// them, and how many stand before the place. A look-up takes the same time in every scope.
#[derive(Drop)]
pub struct Scope {
    locals: Items<Entry>,
    places: Places,
    first: usize,
    count: u32,
}

impl Model for Scope {
    ghost use Rattle.std.specs.Prelude.{length, ◌≤◌, map, reverse, take, drop};
    ghost use Rattle.c_prog.specs.Valid.Scope as valid;
    ghost use Rattle.c_scope.specs.Places.{entry_view, Indexed};

    ghost Value = { valid.Scope };

    ghost view = { λ s. record { block = map entry_view (reverse (drop s.first s.locals)); around = map entry_view (reverse (take s.first s.locals)); count = s.count } };

    ghost invariant = { λ s. (s.first ≤ length s.locals) × Indexed s.places s.locals };
}

// Adds a local, which hides the innermost of its name.
fn open(
    locals: &mut Items<Entry>,
    places: &mut Places,
    local: Local,
    key: Vec<u8>,
) -> Result<(), NoMemory>
    requires named { key.items ≡ local.name }
    requires indexed { Indexed places.old locals.old }
    ensures added { OnOk result ((hidden : Option ℕ) × (locals.new ≡ locals.old ++ record { local = local; hidden = hidden } ∷ [])) }
    ensures unchanged { OnErr result (locals.new ≡ locals.old) }
    ensures indexed { Indexed places.new locals.new }
{
    let hidden = places.get(key.as_slice());
    let place = locals.len();
    locals.push(Entry { local, hidden })?;
    match places.set(key, Some(place)) {
        Ok(()) => Ok(()),
        Err(NoMemory) => {
            locals.pop();
            Err(NoMemory)
        }
    }
}

// Takes the last local away, and shows the one that it hides.
fn close(locals: &mut Items<Entry>, places: &mut Places)
    requires indexed { Indexed places.old locals.old }
    ensures indexed { Indexed places.new locals.new }
    ensures shorter { locals.new ≡ take (length locals.old - 1) locals.old }
{
    match locals.pop() {
        None => {}
        Some(entry) => {
            let _ = places.set(entry.local.name.into_vec(), entry.hidden);
        }
    }
}

// Takes all locals but the first away.
fn close_all(locals: &mut Items<Entry>, places: &mut Places, first: usize)
    requires indexed { Indexed places.old locals.old }
    requires within { first ≤ length locals.old }
    ensures indexed { Indexed places.new locals.new }
    ensures shorter { locals.new ≡ take first locals.old }
{
    while locals.len() > first {
        close(locals, places);
    }
}

// The local at a place.
fn local_at(locals: &[Entry], place: usize) -> Option<&Local>
    ensures { option_map local_view (option_copied result) ≡ option_map entry_view (slice_get locals.now place) }
{
    match locals.get(place) {
        Some(entry) => Some(&entry.local),
        None => None,
    }
}

impl Scope {
    ghost use Rattle.c_prog.specs.Valid.Scope.{nothing_declared, is_in_block, local_named, declared, entered};

    /// The scope before the parameters of a function.
    pub fn new(alloc: Global) -> Scope
        ensures { result ≡ nothing_declared }
    {
        Scope {
            locals: Items::new(alloc),
            places: Places::new(alloc),
            first: 0,
            count: 0,
        }
    }

    /// How many parameters and locals stand before the place, and so the number of the next.
    pub fn count(&self) -> u32
        ensures { result ≡ self.now.count }
    {
        self.count
    }

    /// The local that a name stands for: the innermost declaration counts.
    pub fn find(&self, text: &[u8]) -> Option<&Local>
        ensures { option_map local_view (option_copied result) ≡ local_named text.now self.now }
    {
        match self.places.get(text) {
            None => None,
            Some(place) => local_at(self.locals.as_slice(), place),
        }
    }

    /// Whether the innermost block has a local of this name.
    pub fn is_in_block(&self, text: &[u8]) -> bool
        ensures { result ≡ is_in_block text.now self.now }
    {
        match self.places.get(text) {
            None => false,
            Some(place) => self.first <= place,
        }
    }

    /// Declares a local in the innermost block, with the next number.
    pub fn declare(&mut self, alloc: Global, text: &[u8], kind: VarKind) -> Result<(), NoMemory>
        requires { self.old.count + 1 < 2 ^ 32 }
        ensures { OnOk result (self.new ≡ declared text.now (kind_view kind) self.old) }
    {
        let name = List::from_vec(text.to_vec(alloc)?);
        let key = text.to_vec(alloc)?;
        let number = self.count;
        let local = Local { name, kind, number };
        open(&mut self.locals, &mut self.places, local, key)?;
        self.count = number + 1;
        Ok(())
    }

    /// Begins a block. The answer is what `leave` takes at its end.
    pub fn enter(&mut self) -> usize
        ensures outer { result ≡ length self.old.around }
        ensures entered { self.new ≡ entered self.old }
    {
        let outer = self.first;
        self.first = self.locals.len();
        outer
    }

    /// Ends a block.
    pub fn leave(&mut self, outer: usize)
        requires { outer ≤ length self.old.around }
        ensures { self.new ≡ left outer self.old }
    {
        close_all(&mut self.locals, &mut self.places, self.first);
        self.first = outer;
    }
}
