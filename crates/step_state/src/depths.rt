ghost use Rattle.std.specs.Prelude.{◌≡◌, ◌+◌, ◌-◌, ◌^◌, ◌<◌, OnErr, OnOk, replicate, slice_index, slice_set};

use crate::table::Table;
use cfix_base::NoMemory;
use std::alloc::Global;
use std::marker::Model;

/// Depths by the number of a lock, 0 at first, which contracts see as the list of them. Those up to
/// the last one that was ever raised are kept.
#[derive(Drop)]
pub struct Depths {
    len: usize,
    used: Table<u32>,
}

impl Model for Depths {
    ghost use Rattle.std.specs.Prelude.{ℕ, ◌≤◌, List, length};
    ghost use Rattle.step_state.specs.Filled.{filled};

    ghost Value = { List ℕ };

    ghost view = { λ d. filled d.used d.len };

    ghost invariant = { λ d. length d.used ≤ d.len };
}

impl Depths {
    /// So many depths. It takes no memory.
    #[tactic(auto, using(crate::proofs::Filled::none_used))]
    pub fn new(alloc: Global, len: usize) -> Depths
        ensures { result ≡ replicate len 0 }
    {
        Depths {
            len,
            used: Table::new(alloc),
        }
    }

    /// The depth with this number, or 0.
    #[tactic(auto, using(crate::proofs::Filled::read_used, crate::proofs::Filled::read_past))]
    pub fn at(&self, number: u32) -> u32
        ensures { result ≡ slice_index self.now number }
    {
        match self.used.get(number as usize) {
            None => 0,
            Some(depth) => *depth,
        }
    }

    /// Raises the depth with this number by one, if it is there. After an error nothing has changed.
    #[tactic(auto, using(crate::proofs::Filled::raised, crate::proofs::Filled::raised_length, crate::proofs::Filled::written_past))]
    pub fn raise(&mut self, number: u32) -> Result<(), NoMemory>
        requires { slice_index self.old number + 1 < 2 ^ 32 }
        ensures raised { OnOk result (self.new ≡ slice_set self.old number (slice_index self.old number + 1)) }
        ensures unchanged { OnErr result (self.new ≡ self.old) }
    {
        let place = number as usize;
        if place < self.len {
            let depth = self.at(number);
            self.used.fill_to(place + 1, 0)?;
            self.used.set(place, depth + 1);
        }
        Ok(())
    }

    /// Lowers the depth with this number by one. It takes no memory.
    #[tactic(auto, using(crate::proofs::Filled::lowered, crate::proofs::Filled::lowered_length))]
    pub fn lower(&mut self, number: u32)
        requires { 0 < slice_index self.old number }
        ensures { self.new ≡ slice_set self.old number (slice_index self.old number - 1) }
    {
        let depth = self.at(number);
        self.used.set(number as usize, depth - 1);
    }
}
