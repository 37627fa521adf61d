ghost use Rattle.std.specs.Prelude.{◌≡◌, ◌≤◌, [], List, ℕ};
ghost use Rattle.cfix_outside.specs.Faults.{Rose, last_count};
ghost use Rattle.cfix_outside.specs.Shelves.{Answers};
ghost use Rattle.cfix_outside.specs.Adapters.{untold_files, count_after, given_by};

use crate::shelf::{Shelf, ShelfFault};
use std::alloc::Global;
use std::fs;
use std::io::Read;
use std::rt::Files;

const BUFFER: usize = 4096;

/// The files of the system. It tells nothing of what they hold, and has one count for all names.
#[derive(Drop)]
pub struct FileShelf<'a, R: Files> {
    rt: &'a R,
    faults: u64,
}

impl<'a, R: Files> FileShelf<'a, R> {
    /// The files that this runtime reaches.
    pub fn new(rt: &'a R) -> FileShelf<'a, R>
        ensures { result.faults ≡ 0 }
    {
        FileShelf { rt, faults: 0 }
    }
}

// Reads until the file ends, or is longer than the limit. A read of no bytes is its end.
fn read_all<F: Read>(alloc: Global, file: &mut F, limit: usize) -> Result<Vec<u8>, ShelfFault>
    ensures answer { Answers untold_files [] limit result }
    ensures given { Answers (given_by (F.remaining file.old)) [] limit result }
{
    let mut bytes = Vec::new(alloc);
    let mut buffer = [0u8; BUFFER];
    loop {
        let count = match file.read(&mut buffer) {
            Ok(count) => count,
            Err(_) => return Err(ShelfFault::Failed),
        };
        if count == 0 {
            return Ok(bytes);
        }
        if count > limit - bytes.len() {
            return Err(ShelfFault::TooLong(limit));
        }
        if bytes.extend_from_slice(&buffer[..count]).is_err() {
            return Err(ShelfFault::NoMemory);
        }
    }
}

fn read_file<R: Files>(
    rt: &R,
    alloc: Global,
    name: &str,
    limit: usize,
) -> Result<Vec<u8>, ShelfFault>
    ensures { Answers untold_files name.now limit result }
{
    match fs::open(rt, name) {
        Ok(mut file) => read_all(alloc, &mut file, limit),
        Err(_) => Err(ShelfFault::Failed),
    }
}

impl<'a, R: Files> Shelf for FileShelf<'a, R> {
    ghost files = { λ _. untold_files };

    ghost faults = { λ shelf name. shelf.faults };

    fn read(&mut self, alloc: Global, name: &str, limit: usize) -> Result<Vec<u8>, ShelfFault>
        ensures kept { untold_files ≡ untold_files }
        ensures answer { Answers untold_files name.now limit result }
        ensures later { (file : List ℕ) → self.old.faults ≤ self.new.faults }
        ensures counted { (file : List ℕ) → self.new.faults ≤ last_count }
        ensures cause { result ≡ Err ShelfFault.Failed → Rose self.old.faults self.new.faults }

        // What it does besides.
        ensures count { self.new.faults ≡ count_after result self.old.faults }
    {
        let before = self.faults;
        match read_file(self.rt, alloc, name, limit) {
            Err(ShelfFault::Failed) => {
                self.faults = before.saturating_add(1);
                Err(ShelfFault::Failed)
            }
            other => other,
        }
    }
}
