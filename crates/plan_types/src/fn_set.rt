ghost use Rattle.std.specs.Prelude.{◌≡◌, ◌<◌, ◌↔◌, length, IfOk, IsTrue};
ghost use Rattle.plan_types.specs.Sets.{no_numbers, is_in, with_number, IsUnion, Meet};

use crate::number_set::NumberSet;
use cfix_base::{FnId, NoMemory};
use std::alloc::Global;
use std::marker::Model;

/// A set of functions whose numbers are below its size.
#[derive(Debug, Drop)]
pub struct FnSet {
    numbers: NumberSet,
}

impl Model for FnSet {
    ghost use Rattle.std.specs.Prelude.{List, Bool};

    ghost Value = { List Bool };

    ghost view = { λ set. set.numbers };
}

impl FnSet {
    /// The functions with these numbers.
    pub fn of(numbers: NumberSet) -> FnSet
        ensures { result ≡ numbers }
    {
        FnSet { numbers }
    }

    /// Their numbers.
    pub fn numbers(&self) -> &NumberSet
        ensures { result.now ≡ self.now }
    {
        &self.numbers
    }

    /// The empty set of this size.
    pub fn empty(alloc: Global, size: u32) -> Result<FnSet, NoMemory>
        ensures { IfOk result (λ set. set ≡ no_numbers size) }
    {
        let numbers = NumberSet::empty(alloc, size)?;
        Ok(FnSet { numbers })
    }

    /// Adds a function. It takes no memory.
    pub fn insert(&mut self, id: FnId)
        requires { id.number < length self.old }
        ensures { self.new ≡ with_number self.old id.number }
    {
        self.numbers.insert(id.number);
    }

    /// Whether the function is in the set.
    pub fn contains(&self, id: FnId) -> bool
        ensures { result ≡ is_in self.now id.number }
    {
        self.numbers.contains(id.number)
    }

    /// The size, below which all numbers are.
    pub fn size(&self) -> u32
        ensures { result ≡ length self.now }
    {
        self.numbers.size()
    }

    /// Adds the functions of another set of the same size. It takes no memory.
    pub fn unite(&mut self, other: &FnSet)
        requires { length self.old ≡ length other.now }
        ensures { IsUnion self.old other.now self.new }
    {
        self.numbers.unite(&other.numbers);
    }

    /// Whether some function is in both sets.
    pub fn meets(&self, other: &FnSet) -> bool
        ensures { IsTrue result ↔ Meet self.now other.now }
    {
        self.numbers.meets(&other.numbers)
    }
}
