ghost use Rattle.std.specs.Prelude.{◌≡◌, ◌≤◌, List, ℕ, Option};
ghost use Rattle.cfix_outside.specs.Faults.{Rose, last_count};
ghost use Rattle.cfix_outside.specs.Shelves.{Files, Answers};

use std::alloc::Global;
use thiserror::Error;

/// Why a file was not read.
#[derive(Clone, Copy, Debug, PartialEq, Eq, Error)]
pub enum ShelfFault {
    /// It could not be read, and the count of its name rose.
    #[error("Failed")]
    Failed,
    /// It has more bytes than this limit.
    #[error("TooLong")]
    TooLong(usize),
    #[error("NoMemory")]
    NoMemory,
}

/// Files by name.
pub trait Shelf {
    /// The files, where it tells them.
    ghost files: { Self → Option Files };

    /// For each name, how often a read of it failed. A count stands still at its last value.
    ghost faults: { Self → List ℕ → ℕ };

    /// The bytes of the file `name`, which are at most `limit`.
    fn read(&mut self, alloc: Global, name: &str, limit: usize) -> Result<Vec<u8>, ShelfFault>
        ensures kept { files self.new ≡ files self.old }
        ensures answer { Answers (files self.old) name.now limit result }
        ensures later { (file : List ℕ) → faults self.old file ≤ faults self.new file }
        ensures counted { (file : List ℕ) → faults self.new file ≤ last_count }
        ensures cause { result ≡ Err ShelfFault.Failed → Rose (faults self.old name.now) (faults self.new name.now) };
}
