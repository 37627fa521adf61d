ghost use Rattle.std.specs.Prelude.{◌≡◌, ◌<◌, ◌≤◌, ◌*◌, ◌↔◌, length, IfOk, IsTrue};
ghost use Rattle.plan_types.specs.Sets.{no_numbers, is_in, with_number, IsUnion, Meet};
ghost use Rattle.plan_types.specs.Bits.{zeros, AreEnough, AreUnited, MeetInWord};

use cfix_base::NoMemory;
use std::alloc::Global;
use std::marker::Model;

const BITS: u32 = 64;

/// A set of numbers below a size: the bit `n % 64` of the word `n / 64` is 1 where n is in it.
#[derive(Debug, Drop)]
pub struct NumberSet {
    size: u32,
    words: Vec<u64>,
}

impl Model for NumberSet {
    ghost use Rattle.std.specs.Prelude.{List, Bool};
    ghost use Rattle.plan_types.specs.Bits.{numbers_of, AreEnough};

    ghost Value = { List Bool };

    ghost view = { λ set. numbers_of set.size set.words.items };

    ghost invariant = { λ set. AreEnough set.size set.words.items };
}

// As many words of zeros as have a bit for each number below the size.
fn zero_words(alloc: Global, size: u32) -> Result<Vec<u64>, NoMemory>
    ensures zeros { IfOk result (λ words. words.items ≡ zeros (length words.items)) }
    ensures enough { IfOk result (λ words. AreEnough size words.items) }
{
    let count = size.div_ceil(BITS) as usize;
    Ok(vec![in alloc; 0u64; count]?)
}

// Adds to each word the bits of the other word at its place.
fn unite_words(words: &mut Vec<u64>, others: &[u64])
    requires { length words.old.items ≡ length others.now }
    ensures { AreUnited words.old.items others.now words.new.items }
{
    for place in 0..others.len() {
        let word = words[place];
        words[place] = word | others[place];
    }
}

impl NumberSet {
    /// The empty set of this size.
    pub fn empty(alloc: Global, size: u32) -> Result<NumberSet, NoMemory>
        ensures { IfOk result (λ set. set ≡ no_numbers size) }
    {
        let words = zero_words(alloc, size)?;
        Ok(NumberSet { size, words })
    }

    pub fn insert(&mut self, number: u32)
        requires { number < length self.old }
        ensures { self.new ≡ with_number self.old number }
    {
        let place = (number / BITS) as usize;
        let word = self.words[place];
        self.words[place] = word | 1u64 << (number % BITS);
    }

    pub fn contains(&self, number: u32) -> bool
        ensures { result ≡ is_in self.now number }
    {
        if number >= self.size {
            return false;
        }
        let word = self.words[(number / BITS) as usize];
        word >> (number % BITS) & 1 == 1
    }

    pub fn size(&self) -> u32
        ensures { result ≡ length self.now }
    {
        self.size
    }

    /// Adds the numbers of another set of the same size, word by word. It takes no memory.
    pub fn unite(&mut self, other: &NumberSet)
        requires { length self.old ≡ length other.now }
        ensures { IsUnion self.old other.now self.new }
    {
        unite_words(&mut self.words, other.words.as_slice());
    }

    // Whether some number whose bit stands in the word that begins here is in both sets.
    fn meets_in_word(&self, other: &NumberSet, from: u32) -> bool
        ensures { IsTrue result ↔ MeetInWord self.now other.now from }
    {
        let end = from.saturating_add(BITS).min(self.size);
        for number in from..end {
            if self.contains(number) && other.contains(number) {
                return true;
            }
        }
        false
    }

    /// Whether some number is in both sets, word by word.
    pub fn meets(&self, other: &NumberSet) -> bool
        ensures { IsTrue result ↔ Meet self.now other.now }
    {
        let count = self.size.min(other.size).div_ceil(BITS);
        for place in 0..count {
            let word = self.words[place as usize];
            let other_word = other.words[place as usize];
            if word & other_word != 0 && self.meets_in_word(other, place * BITS) {
                return true;
            }
        }
        false
    }
}
