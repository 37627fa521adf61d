ghost use Rattle.std.specs.Prelude.{◌≤◌, List, ℕ, Option, OnOk, OnErr};
ghost use Rattle.cfix_outside.specs.Faults.{Rose, last_count};
ghost use Rattle.cfix_outside.specs.Sinks.{Gained, GainedFront};

use thiserror::Error;

/// Why a piece was not put.
#[derive(Clone, Copy, Debug, PartialEq, Eq, Error)]
pub enum SinkFault {
    /// The sink did not take all of it, and its count rose.
    #[error("Failed")]
    Failed,
}

/// A place that takes bytes.
pub trait Sink {
    /// The bytes that it has taken, where it tells them.
    ghost taken: { Self → Option (List ℕ) };

    /// How often a put failed. The count stands still at its last value.
    ghost faults: { Self → ℕ };

    /// Puts the piece behind what was taken before; after a fault, some first bytes of it.
    fn put(&mut self, piece: &[u8]) -> Result<(), SinkFault>
        ensures taken { OnOk result (Gained (taken self.old) (taken self.new) piece.now) }
        ensures front { OnErr result (GainedFront (taken self.old) (taken self.new) piece.now) }
        ensures later { faults self.old ≤ faults self.new }
        ensures counted { faults self.new ≤ last_count }
        ensures cause { OnErr result (Rose (faults self.old) (faults self.new)) };
}
