ghost use Rattle.std.specs.Prelude.{◌≡◌, ◌≤◌, Some, List, ℕ, ◌↔◌};
ghost use Rattle.std.specs.Option.{option_copied};
ghost use Rattle.cfix_outside.specs.Faults.{Rose, last_count};
ghost use Rattle.cfix_outside.specs.Shelves.{Answers};
ghost use Rattle.cfix_outside.specs.ShelfInMemory.{find, files_of, faults_of, Fails, after_read};

use crate::plan::FailPlan;
use crate::shelf::{Shelf, ShelfFault};
use std::alloc::Global;

/// Files in memory. Reads that the plan names fail, and those of names that are missing.
#[derive(Drop)]
pub struct MemoryShelf {
    files: Vec<(String, Vec<u8>)>,
    plan: FailPlan,
    calls: u64,
    planned: u64,
    missing: u64,
}

impl MemoryShelf {
    /// A shelf of these files, of which the first of a name counts. It takes no memory.
    pub fn new(files: Vec<(String, Vec<u8>)>, plan: FailPlan) -> MemoryShelf
        ensures made { result ≡ record { files = files; plan = plan; calls = 0; planned = 0; missing = 0 } }
        ensures told { files_of result ≡ find files.items }
        ensures faults { (name : List ℕ) → faults_of result name ≡ 0 }
    {
        MemoryShelf {
            files,
            plan,
            calls: 0,
            planned: 0,
            missing: 0,
        }
    }
}

fn find<'a>(files: &'a [(String, Vec<u8>)], name: &str) -> Option<&'a [u8]>
    ensures { option_copied result ≡ find files.now name.now }
{
    for file in files {
        if file.0.as_str() == name {
            return Some(file.1.as_slice());
        }
    }
    None
}

impl Shelf for MemoryShelf {
    ghost files = { λ shelf. Some (files_of shelf) };

    ghost faults = { faults_of };

    fn read(&mut self, alloc: Global, name: &str, limit: usize) -> Result<Vec<u8>, ShelfFault>
        ensures kept { Some (files_of self.new) ≡ Some (files_of self.old) }
        ensures answer { Answers (Some (files_of self.old)) name.now limit result }
        ensures later { (file : List ℕ) → faults_of self.old file ≤ faults_of self.new file }
        ensures counted { (file : List ℕ) → faults_of self.new file ≤ last_count }
        ensures cause { result ≡ Err ShelfFault.Failed → Rose (faults_of self.old name.now) (faults_of self.new name.now) }

        // What it does besides.
        ensures failed { result ≡ Err ShelfFault.Failed ↔ Fails self.old name.now }
        ensures after { self.new ≡ after_read self.old name.now }
    {
        let call = self.calls;
        self.calls = call.saturating_add(1);
        if self.plan.named(call).is_some() {
            self.planned = self.planned.saturating_add(1);
            return Err(ShelfFault::Failed);
        }
        match find(&self.files, name) {
            None => {
                self.missing = self.missing.saturating_add(1);
                Err(ShelfFault::Failed)
            }
            Some(bytes) => {
                if bytes.len() > limit {
                    return Err(ShelfFault::TooLong(limit));
                }
                match bytes.to_vec(alloc) {
                    Ok(copy) => Ok(copy),
                    Err(_) => Err(ShelfFault::NoMemory),
                }
            }
        }
    }
}
