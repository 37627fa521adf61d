ghost use Rattle.std.specs.Prelude.{◌≡◌, ◌∷◌, ◌++◌, ◌-◌, ◌<◌, ◌≤◌, [], OnErr, OnOk, drop, length, replicate, take, MatchOption, Option, slice_get, slice_set, Some};
ghost use Rattle.std.specs.Borrow.{sem};

use cfix_base::NoMemory;
use std::alloc::Global;
use std::marker::Model;

/// Items by their number, which contracts see as the list of them.
#[derive(Drop)]
pub struct Table<T> {
    items: Vec<T>,
}

impl<T> Model for Table<T> {
    ghost use Rattle.std.specs.Prelude.{List};

    ghost Value = { List T };

    ghost view = { λ s. s.items.items };
}

impl<T: Drop> Table<T> {
    ghost use Rattle.step_state.specs.TableLends.{LendsItem};

    /// The empty table. It takes no memory, and keeps the allocator for later.
    pub fn new(alloc: Global) -> Table<T>
        ensures { result ≡ [] }
    {
        Table {
            items: Vec::new(alloc),
        }
    }

    /// Adds `item` at the end. After an error the table is as before.
    pub fn push(&mut self, item: T) -> Result<(), NoMemory>
        ensures pushed { OnOk result (self.new ≡ self.old ++ item ∷ []) }
        ensures unchanged { OnErr result (self.new ≡ self.old) }
    {
        self.items.push(item)?;
        Ok(())
    }

    /// Takes the last item, if there is one.
    pub fn pop(&mut self) -> Option<T>
        ensures { MatchOption result (self.old ≡ [] × self.new ≡ []) (λ x. self.old ≡ self.new ++ x ∷ []) }
    {
        self.items.pop()
    }

    /// The number of items.
    pub fn len(&self) -> usize
        ensures { result ≡ length self.now }
    {
        self.items.len()
    }

    /// The item with this number, if there is one.
    pub fn get(&self, number: usize) -> Option<&T>
        ensures { MatchOption result (slice_get self.now number ≡ Option.None) (λ x. slice_get self.now number ≡ Some x.now) }
    {
        self.items.get(number)
    }

    /// The item with this number.
    pub fn at(&self, number: usize) -> &T
        requires { number < length self.now }
        ensures { slice_get self.now number ≡ Some result.now }
    {
        &self.items[number]
    }

    /// The item with this number, to be changed.
    pub fn at_mut(&mut self, number: usize) -> &mut T
        requires { number < length self.old }
        ensures* lends { sem 𝓛 (LendsItem T.row self.entry number result) }
        ensures value { slice_get self.old number ≡ Some result.now }
    {
        &mut self.items[number]
    }

    /// Puts `item` in the place of the item with this number, if there is one. It takes no memory.
    pub fn set(&mut self, number: usize, item: T)
        ensures { self.new ≡ slice_set self.old number item }
    {
        if number < self.items.len() {
            self.items[number] = item;
        }
    }
}

impl<T: Drop> Table<T> {
    /// The items.
    pub fn as_slice(&self) -> &[T]
        ensures { result.now ≡ self.now }
    {
        self.items.as_slice()
    }

    /// Puts `item` before the item with this number, or at the end. After an error the table is as
    /// before.
    pub fn insert(&mut self, number: usize, item: T) -> Result<(), NoMemory>
        requires { number ≤ length self.old }
        ensures inserted { OnOk result (self.new ≡ take number self.old ++ item ∷ drop number self.old) }
        ensures unchanged { OnErr result (self.new ≡ self.old) }
    {
        self.items.insert(number, item)?;
        Ok(())
    }

    /// Leaves out the first item, if there is one. It takes no memory.
    pub fn remove_first(&mut self)
        ensures { self.new ≡ drop 1 self.old }
    {
        if self.items.len() > 0 {
            self.items.remove(0);
        }
    }
}

impl<T: Copy + Drop> Table<T> {
    /// Adds as many copies of `item` as it takes for the table to have `len` items. After an error
    /// the table is as before.
    #[tactic(auto, using(crate::proofs::Tops::replicate_none))]
    pub fn fill_to(&mut self, len: usize, item: T) -> Result<(), NoMemory>
        ensures filled { OnOk result (self.new ≡ self.old ++ replicate (len - length self.old) item) }
        ensures unchanged { OnErr result (self.new ≡ self.old) }
    {
        if len <= self.items.len() {
            return Ok(());
        }
        self.items.resize(len, item)?;
        Ok(())
    }
}
