ghost use Rattle.std.specs.Prelude.{ℕ, ◌≡◌, ◌<◌, [], length, replicate, IfOk, OnOk};
ghost use Rattle.std.specs.List.{Contains};
ghost use Rattle.plan_types.specs.Sets.{IsSetOf};
ghost use Rattle.walks.specs.Links.{next_in, with_link, Comes, IsWithAll};

use crate::walking::walk;
use cfix_base::{List, NoMemory};
use plan_types::NumberSet;
use std::alloc::Global;
use std::marker::Model;

/// Links between things that are numbered from 0: of each, those to which links lead from it.
#[derive(Debug, Drop)]
pub struct Links {
    size: u32,
    lists: Vec<List<u32>>,
}

impl Model for Links {
    ghost use Rattle.std.specs.Prelude.{ℕ, List};
    ghost use Rattle.walks.specs.Links.{AreLinks};

    ghost Value = { List (List ℕ) };

    ghost view = { λ links. links.lists.items };

    ghost invariant = { λ links. AreLinks links.size links.lists.items };
}

fn no_links(alloc: Global, count: u32) -> Result<Vec<List<u32>>, NoMemory>
    ensures { IfOk result (λ lists. lists.items ≡ replicate count []) }
{
    let mut lists = Vec::new(alloc);
    for _ in 0..count {
        lists.push(List::new(alloc))?;
    }
    Ok(lists)
}

fn insert_all(set: &mut NumberSet, numbers: &[u32])
    requires { (u : ℕ) → Contains numbers.now u → u < length set.old }
    ensures { IsWithAll set.old numbers.now set.new }
{
    for number in numbers {
        set.insert(*number);
    }
}

impl Links {
    /// So many things without a link.
    pub fn none(alloc: Global, size: u32) -> Result<Links, NoMemory>
        ensures { IfOk result (λ links. links ≡ replicate size []) }
    {
        let lists = no_links(alloc, size)?;
        Ok(Links { size, lists })
    }

    /// Adds a link.
    pub fn add(&mut self, from: u32, to: u32) -> Result<(), NoMemory>
        requires from { from < length self.old }
        requires to { to < length self.old }
        ensures { OnOk result (self.new ≡ with_link self.old from to) }
    {
        self.lists[from as usize].push(to)
    }

    /// The number of things.
    pub fn size(&self) -> u32
        ensures { result ≡ length self.now }
    {
        self.size
    }

    /// The starts, and all to which links lead from them, in time linear in the links that lead on from these.
    pub fn comes(&self, alloc: Global, starts: &[u32]) -> Result<NumberSet, NoMemory>
        requires { (u : ℕ) → Contains starts.now u → u < length self.now }
        ensures { IfOk result (λ set. IsSetOf (length self.now) set (Comes (next_in self.now) starts.now)) }
    {
        let none = NumberSet::empty(alloc, self.size)?;
        let from = Vec::from_slice(alloc, starts)?;
        let mut found = walk(alloc, self.lists.as_slice(), 0, self.size, from, &none)?;
        insert_all(&mut found, starts);
        Ok(found)
    }
}
