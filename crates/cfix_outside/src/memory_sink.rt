ghost use Rattle.std.specs.Prelude.{◌≡◌, ◌≤◌, ◌-◌, ◌++◌, Some, [], length, IfOk, OnOk, OnErr, ◌↔◌, IsErr};
ghost use Rattle.cfix_outside.specs.Faults.{Rose, last_count};
ghost use Rattle.cfix_outside.specs.Sinks.{Gained, GainedFront};
ghost use Rattle.cfix_outside.specs.SinkInMemory.{Refuses, after_put};

use crate::plan::FailPlan;
use crate::sink::{Sink, SinkFault};
use cfix_base::NoMemory;
use std::alloc::Global;
use std::marker::Model;

/// A place in memory with so much room. Puts that the plan names fail, and those that pass the room.
#[derive(Drop)]
pub struct MemorySink {
    buffer: Vec<u8>,
    filled: usize,
    plan: FailPlan,
    calls: u64,
    faults: u64,
}

impl Model for MemorySink {
    ghost use Rattle.std.specs.Prelude.{◌-◌, ◌≤◌, length, take};
    ghost use Rattle.cfix_outside.specs.SinkState.{SinkState};

    ghost Value = { SinkState };

    ghost view = { λ s. record {
      taken = take s.filled s.buffer.items;
      room = length s.buffer.items - s.filled;
      plan = s.plan.calls;
      calls = s.calls;
      faults = s.faults;
    } };

    ghost invariant = { λ s. s.filled ≤ length s.buffer.items };
}

impl MemorySink {
    /// An empty sink with room for so many bytes. It takes all its memory here.
    pub fn with_room(alloc: Global, room: usize, plan: FailPlan) -> Result<MemorySink, NoMemory>
        ensures { IfOk result (λ sink. sink ≡ record { taken = []; room = room; plan = plan.calls; calls = 0; faults = 0 }) }
    {
        let buffer = vec![in alloc; 0u8; room]?;
        Ok(MemorySink {
            buffer,
            filled: 0,
            plan,
            calls: 0,
            faults: 0,
        })
    }

    /// The bytes that it has taken. It takes no memory.
    pub fn taken(&self) -> &[u8]
        ensures { result.now ≡ self.now.taken }
    {
        &self.buffer[..self.filled]
    }

    // Takes a piece that fits.
    fn store(&mut self, piece: &[u8])
        requires { length piece.now ≤ self.old.room }
        ensures { self.new ≡ record self.old {
          taken = self.old.taken ++ piece.now;
          room = self.old.room - length piece.now;
        } }
    {
        let end = self.filled + piece.len();
        self.buffer[self.filled..end].copy_from_slice(piece);
        self.filled = end;
    }

    // The room that is left.
    fn room(&self) -> usize
        ensures { result ≡ self.now.room }
    {
        self.buffer.len() - self.filled
    }
}

impl Sink for MemorySink {
    ghost taken = { λ sink. Some sink.taken };

    ghost faults = { λ sink. sink.faults };

    fn put(&mut self, piece: &[u8]) -> Result<(), SinkFault>
        ensures taken { OnOk result (Gained (Some self.old.taken) (Some self.new.taken) piece.now) }
        ensures front { OnErr result (GainedFront (Some self.old.taken) (Some self.new.taken) piece.now) }
        ensures later { self.old.faults ≤ self.new.faults }
        ensures counted { self.new.faults ≤ last_count }
        ensures cause { OnErr result (Rose self.old.faults self.new.faults) }

        // What it does besides.
        ensures refused { IsErr result ↔ Refuses self.old (length piece.now) }
        ensures after { self.new ≡ after_put self.old piece.now }
    {
        let call = self.calls;
        let room = self.room();
        let fit = piece.len().min(room);
        let named = self.plan.named(call);
        self.calls = call.saturating_add(1);
        match named {
            Some(most) => {
                let most = (most as usize).min(fit);
                self.store(&piece[..most]);
                self.faults = self.faults.saturating_add(1);
                Err(SinkFault::Failed)
            }
            None => {
                if room < piece.len() {
                    self.store(&piece[..fit]);
                    self.faults = self.faults.saturating_add(1);
                    return Err(SinkFault::Failed);
                }
                self.store(piece);
                Ok(())
            }
        }
    }
}
