ghost use Rattle.std.specs.Prelude.{◌≡◌, ◌≤◌, OnOk, OnErr};
ghost use Rattle.cfix_outside.specs.Faults.{Rose, last_count, risen};
ghost use Rattle.cfix_outside.specs.Sinks.{Gained, GainedFront};
ghost use Rattle.cfix_outside.specs.Adapters.{untold_bytes, AppendsFront};
ghost use Rattle.std.specs.Io.KnownBytes.{Appends};

use crate::sink::{Sink, SinkFault};
use std::io::{Stderr, Stdout, Write};

// Writes all of a piece. A writer that takes nothing of what is left is a fault.
fn write_whole<W: Write>(writer: &mut W, piece: &[u8]) -> Result<(), SinkFault>
    ensures whole { OnOk result (Appends (W.contents writer.old) (W.contents writer.new) piece.now) }
    ensures front { OnErr result (AppendsFront (W.contents writer.old) (W.contents writer.new) piece.now) }
{
    let mut rest = piece;
    while !rest.is_empty() {
        match writer.write(rest) {
            Ok(0) => return Err(SinkFault::Failed),
            Ok(count) => rest = &rest[count..],
            Err(_) => return Err(SinkFault::Failed),
        }
    }
    Ok(())
}

// Writes all of a piece, and counts a failure.
fn write_counted<W: Write>(writer: &mut W, faults: &mut u64, piece: &[u8]) -> Result<(), SinkFault>
    ensures whole { OnOk result (Appends (W.contents writer.old) (W.contents writer.new) piece.now) }
    ensures front { OnErr result (AppendsFront (W.contents writer.old) (W.contents writer.new) piece.now) }
    ensures same { OnOk result (faults.new ≡ faults.old) }
    ensures rises { OnErr result (faults.new ≡ risen faults.old) }
    ensures later { faults.old ≤ faults.new }
    ensures counted { faults.new ≤ last_count }
{
    let before = *faults;
    let answer = write_whole(writer, piece);
    if answer.is_err() {
        *faults = before.saturating_add(1);
    }
    answer
}

/// Standard output. It tells nothing of what it has taken.
#[derive(Drop)]
pub struct OutSink {
    inner: Stdout,
    faults: u64,
}

impl OutSink {
    /// The standard output of the runtime that `main` holds.
    pub fn new(rt: &HostRuntime) -> OutSink
        ensures { result.faults ≡ 0 }
    {
        OutSink {
            inner: rt.stdout(),
            faults: 0,
        }
    }
}

impl Sink for OutSink {
    ghost taken = { λ _. untold_bytes };

    ghost faults = { λ sink. sink.faults };

    fn put(&mut self, piece: &[u8]) -> Result<(), SinkFault>
        ensures taken { OnOk result (Gained untold_bytes untold_bytes piece.now) }
        ensures front { OnErr result (GainedFront untold_bytes untold_bytes piece.now) }
        ensures later { self.old.faults ≤ self.new.faults }
        ensures counted { self.new.faults ≤ last_count }
        ensures cause { OnErr result (Rose self.old.faults self.new.faults) }

        // What it does besides.
        ensures same { OnOk result (self.new.faults ≡ self.old.faults) }
        ensures rises { OnErr result (self.new.faults ≡ risen self.old.faults) }
    {
        write_counted(&mut self.inner, &mut self.faults, piece)
    }
}

/// Standard error. It tells nothing of what it has taken.
#[derive(Drop)]
pub struct NoteSink {
    inner: Stderr,
    faults: u64,
}

impl NoteSink {
    /// The standard error of the runtime that `main` holds.
    pub fn new(rt: &HostRuntime) -> NoteSink
        ensures { result.faults ≡ 0 }
    {
        NoteSink {
            inner: rt.stderr(),
            faults: 0,
        }
    }
}

impl Sink for NoteSink {
    ghost taken = { λ _. untold_bytes };

    ghost faults = { λ sink. sink.faults };

    fn put(&mut self, piece: &[u8]) -> Result<(), SinkFault>
        ensures taken { OnOk result (Gained untold_bytes untold_bytes piece.now) }
        ensures front { OnErr result (GainedFront untold_bytes untold_bytes piece.now) }
        ensures later { self.old.faults ≤ self.new.faults }
        ensures counted { self.new.faults ≤ last_count }
        ensures cause { OnErr result (Rose self.old.faults self.new.faults) }

        // What it does besides.
        ensures same { OnOk result (self.new.faults ≡ self.old.faults) }
        ensures rises { OnErr result (self.new.faults ≡ risen self.old.faults) }
    {
        write_counted(&mut self.inner, &mut self.faults, piece)
    }
}
