ghost use Rattle.std.specs.Prelude.{◌≡◌, ◌≤◌, ◌++◌, OnOk, OnErr};
ghost use Rattle.cfix_outside.specs.Faults.{Rose};
ghost use Rattle.cfix_outside.specs.Sinks.{Gained, GainedFront};
ghost use Rattle.cfix_core.specs.Words.{asked_of};
ghost use Rattle.cfix_core.specs.Stops.{ended, limit_end, long_line, letter_of, number_end, path_start, path_line, kind_text, source_start, source_line, report_shape_line, shape_line, input_line, schedule_line, entry_line, refusal_line, line_of, words_line};
ghost use Rattle.cfix_core.specs.Answers.{Noted};

use crate::failure::Refusal;
use crate::stop::{Stop, limit_of, word_of};
use crate::words::Request;
use c_read::{Flaw, FlawKind};
use cfix_base::NodeId;
use cfix_outside::{Sink, SinkFault};
use itoa::Buffer;
use report_bind::Role;

fn put_two<N: Sink>(note: &mut N, name: &str, last: &[u8]) -> Result<(), SinkFault>
    ensures taken { OnOk result (Gained (N.taken note.old) (N.taken note.new) (name.now ++ last.now)) }
    ensures front { OnErr result (GainedFront (N.taken note.old) (N.taken note.new) (name.now ++ last.now)) }
    ensures later { N.faults note.old ≤ N.faults note.new }
    ensures cause { OnErr result (Rose (N.faults note.old) (N.faults note.new)) }
{
    note.put(name.as_bytes())?;
    note.put(last)?;
    Ok(())
}

fn put_three<N: Sink>(note: &mut N, first: &[u8], name: &str, last: &[u8]) -> Result<(), SinkFault>
    ensures taken { OnOk result (Gained (N.taken note.old) (N.taken note.new) (first.now ++ (name.now ++ last.now))) }
    ensures front { OnErr result (GainedFront (N.taken note.old) (N.taken note.new) (first.now ++ (name.now ++ last.now))) }
    ensures later { N.faults note.old ≤ N.faults note.new }
    ensures cause { OnErr result (Rose (N.faults note.old) (N.faults note.new)) }
{
    note.put(first)?;
    put_two(note, name, last)?;
    Ok(())
}

fn put_limit<N: Sink>(note: &mut N, limit: usize) -> Result<(), SinkFault>
    ensures taken { OnOk result (Gained (N.taken note.old) (N.taken note.new) (limit_end limit)) }
    ensures front { OnErr result (GainedFront (N.taken note.old) (N.taken note.new) (limit_end limit)) }
    ensures later { N.faults note.old ≤ N.faults note.new }
    ensures cause { OnErr result (Rose (N.faults note.old) (N.faults note.new)) }
{
    let mut buffer = Buffer::new();
    put_two(note, buffer.format(limit), b" bytes\n")
}

fn put_long_line<N: Sink>(note: &mut N, name: &str, limit: usize) -> Result<(), SinkFault>
    ensures taken { OnOk result (Gained (N.taken note.old) (N.taken note.new) (long_line name.now limit)) }
    ensures front { OnErr result (GainedFront (N.taken note.old) (N.taken note.new) (long_line name.now limit)) }
    ensures cause { OnErr result (Rose (N.faults note.old) (N.faults note.new)) }
{
    put_three(note, b"cfix: ", name, b" is longer than ")?;
    put_limit(note, limit)?;
    Ok(())
}

fn letter_of(role: Role) -> &'static str
    ensures { result.now ≡ letter_of role }
{
    match role {
        Role::P => "p",
        Role::C => "c",
        Role::R => "r",
        Role::A => "a",
        Role::B => "b",
    }
}

fn put_number_end<N: Sink>(note: &mut N, number: u32) -> Result<(), SinkFault>
    ensures taken { OnOk result (Gained (N.taken note.old) (N.taken note.new) (number_end number)) }
    ensures front { OnErr result (GainedFront (N.taken note.old) (N.taken note.new) (number_end number)) }
    ensures later { N.faults note.old ≤ N.faults note.new }
    ensures cause { OnErr result (Rose (N.faults note.old) (N.faults note.new)) }
{
    let mut buffer = Buffer::new();
    put_two(note, buffer.format(number), b"\n")
}

fn put_path_start<N: Sink>(note: &mut N, number: u32) -> Result<(), SinkFault>
    ensures taken { OnOk result (Gained (N.taken note.old) (N.taken note.new) (path_start number)) }
    ensures front { OnErr result (GainedFront (N.taken note.old) (N.taken note.new) (path_start number)) }
    ensures later { N.faults note.old ≤ N.faults note.new }
    ensures cause { OnErr result (Rose (N.faults note.old) (N.faults note.new)) }
{
    let mut buffer = Buffer::new();
    put_three(
        note,
        b"cfix: report 0: no path from node ",
        buffer.format(number),
        b" to node ",
    )
}

fn put_path<N: Sink>(note: &mut N, np: NodeId, nc: NodeId) -> Result<(), SinkFault>
    ensures taken { OnOk result (Gained (N.taken note.old) (N.taken note.new) (path_line np nc)) }
    ensures front { OnErr result (GainedFront (N.taken note.old) (N.taken note.new) (path_line np nc)) }
    ensures cause { OnErr result (Rose (N.faults note.old) (N.faults note.new)) }
{
    put_path_start(note, np.number)?;
    put_number_end(note, nc.number)?;
    Ok(())
}

fn kind_text(kind: FlawKind) -> &'static str
    ensures { result.now ≡ kind_text kind }
{
    match kind {
        FlawKind::BadByte => "bad byte",
        FlawKind::OpenComment => "comment is not closed",
        FlawKind::BadString => "bad string",
        FlawKind::BadNumber => "bad number",
        FlawKind::TooMany => "too many tokens",
        FlawKind::Unexpected => "unexpected token",
        FlawKind::Deep => "nested too deep",
        FlawKind::Unknown => "unknown name",
        FlawKind::Twice => "name declared twice",
        FlawKind::Arity => "wrong number of arguments",
        FlawKind::WrongUse => "wrong use",
        FlawKind::NoReturn => "end of function without a value",
        FlawKind::RootCalled => "thread function called",
        FlawKind::Reserved => "reserved name",
        FlawKind::Limit => "limit passed",
    }
}

fn put_source_start<N: Sink>(note: &mut N, line: u32) -> Result<(), SinkFault>
    ensures taken { OnOk result (Gained (N.taken note.old) (N.taken note.new) (source_start line)) }
    ensures front { OnErr result (GainedFront (N.taken note.old) (N.taken note.new) (source_start line)) }
    ensures later { N.faults note.old ≤ N.faults note.new }
    ensures cause { OnErr result (Rose (N.faults note.old) (N.faults note.new)) }
{
    let mut buffer = Buffer::new();
    put_three(note, b"cfix: source line ", buffer.format(line), b": ")
}

fn put_kind_end<N: Sink>(note: &mut N, kind: FlawKind) -> Result<(), SinkFault>
    ensures taken { OnOk result (Gained (N.taken note.old) (N.taken note.new) (ended (kind_text kind))) }
    ensures front { OnErr result (GainedFront (N.taken note.old) (N.taken note.new) (ended (kind_text kind))) }
    ensures later { N.faults note.old ≤ N.faults note.new }
    ensures cause { OnErr result (Rose (N.faults note.old) (N.faults note.new)) }
{
    put_two(note, kind_text(kind), b"\n")
}

fn put_source<N: Sink>(note: &mut N, flaw: Flaw) -> Result<(), SinkFault>
    ensures taken { OnOk result (Gained (N.taken note.old) (N.taken note.new) (source_line flaw)) }
    ensures front { OnErr result (GainedFront (N.taken note.old) (N.taken note.new) (source_line flaw)) }
    ensures cause { OnErr result (Rose (N.faults note.old) (N.faults note.new)) }
{
    put_source_start(note, flaw.spot.line)?;
    put_kind_end(note, flaw.kind)?;
    Ok(())
}

fn put_report_shape<N: Sink>(note: &mut N, number: u32) -> Result<(), SinkFault>
    ensures taken { OnOk result (Gained (N.taken note.old) (N.taken note.new) (report_shape_line number)) }
    ensures front { OnErr result (GainedFront (N.taken note.old) (N.taken note.new) (report_shape_line number)) }
    ensures cause { OnErr result (Rose (N.faults note.old) (N.faults note.new)) }
{
    let mut buffer = Buffer::new();
    put_three(
        note,
        b"cfix: report ",
        buffer.format(number),
        b": wrong shape\n",
    )
}

fn put_shape<N: Sink>(note: &mut N, which: Option<u32>) -> Result<(), SinkFault>
    ensures taken { OnOk result (Gained (N.taken note.old) (N.taken note.new) (shape_line which)) }
    ensures front { OnErr result (GainedFront (N.taken note.old) (N.taken note.new) (shape_line which)) }
    ensures cause { OnErr result (Rose (N.faults note.old) (N.faults note.new)) }
{
    match which {
        None => note.put(b"cfix: reports: wrong shape\n"),
        Some(number) => put_report_shape(note, number),
    }
}

fn put_input<N: Sink>(note: &mut N, start: u32) -> Result<(), SinkFault>
    ensures taken { OnOk result (Gained (N.taken note.old) (N.taken note.new) (input_line start)) }
    ensures front { OnErr result (GainedFront (N.taken note.old) (N.taken note.new) (input_line start)) }
    ensures cause { OnErr result (Rose (N.faults note.old) (N.faults note.new)) }
{
    let mut buffer = Buffer::new();
    put_three(
        note,
        b"cfix: input byte ",
        buffer.format(start),
        b": bad number\n",
    )
}

fn put_schedule<N: Sink>(note: &mut N, number: u32) -> Result<(), SinkFault>
    ensures taken { OnOk result (Gained (N.taken note.old) (N.taken note.new) (schedule_line number)) }
    ensures front { OnErr result (GainedFront (N.taken note.old) (N.taken note.new) (schedule_line number)) }
    ensures cause { OnErr result (Rose (N.faults note.old) (N.faults note.new)) }
{
    let mut buffer = Buffer::new();
    put_three(
        note,
        b"cfix: schedule line ",
        buffer.format(number),
        b": bad entry\n",
    )
}

fn put_entry<N: Sink>(note: &mut N, number: u32) -> Result<(), SinkFault>
    ensures taken { OnOk result (Gained (N.taken note.old) (N.taken note.new) (entry_line number)) }
    ensures front { OnErr result (GainedFront (N.taken note.old) (N.taken note.new) (entry_line number)) }
    ensures cause { OnErr result (Rose (N.faults note.old) (N.faults note.new)) }
{
    let mut buffer = Buffer::new();
    put_three(
        note,
        b"cfix: entry ",
        buffer.format(number),
        b" is not enabled\n",
    )
}

fn put_refusal<N: Sink>(note: &mut N, refusal: Refusal) -> Result<(), SinkFault>
    ensures taken { OnOk result (Gained (N.taken note.old) (N.taken note.new) (refusal_line refusal)) }
    ensures front { OnErr result (GainedFront (N.taken note.old) (N.taken note.new) (refusal_line refusal)) }
    ensures cause { OnErr result (Rose (N.faults note.old) (N.faults note.new)) }
{
    match refusal {
        Refusal::Source(flaw) => put_source(note, flaw),
        Refusal::Form => note.put(b"cfix: source is outside the first form\n"),
        Refusal::NotJson => note.put(b"cfix: reports: not JSON\n"),
        Refusal::Shape(which) => put_shape(note, which),
        Refusal::TooMany => note.put(b"cfix: reports: more than 200\n"),
        Refusal::Reports => note.put(b"cfix: reports: outside the first form\n"),
        Refusal::NoSite(role) => put_three(
            note,
            b"cfix: report 0: no site for ",
            letter_of(role),
            b"\n",
        ),
        Refusal::StackBroken(role) => put_three(
            note,
            b"cfix: report 0: broken stack of ",
            letter_of(role),
            b"\n",
        ),
        Refusal::NoPath(np, nc) => put_path(note, np, nc),
        Refusal::OtherMode => note.put(b"cfix: reports: outside the first form\n"),
        Refusal::BadNumber(start) => put_input(note, start),
        Refusal::BadEntry(number) => put_schedule(note, number),
        Refusal::TooManyEntries => note.put(b"cfix: schedule: more than 1000000 entries\n"),
        Refusal::NotEnabled(number) => put_entry(note, number),
    }
}

fn put_line<N: Sink>(note: &mut N, request: &Request<'_>, stop: Stop) -> Result<(), SinkFault>
    ensures taken { OnOk result (Gained (N.taken note.old) (N.taken note.new) (line_of (asked_of request.now) stop)) }
    ensures front { OnErr result (GainedFront (N.taken note.old) (N.taken note.new) (line_of (asked_of request.now) stop)) }
    ensures cause { OnErr result (Rose (N.faults note.old) (N.faults note.new)) }
{
    match stop {
        Stop::NoMemory => note.put(b"cfix: no memory\n"),
        Stop::CannotRead(file) => put_three(
            note,
            b"cfix: cannot read ",
            word_of(request, file),
            b"\n",
        ),
        Stop::TooLong(file) => put_long_line(note, word_of(request, file), limit_of(file)),
        Stop::CannotWrite => note.put(b"cfix: cannot write\n"),
        Stop::Refused(refusal) => put_refusal(note, refusal),
    }
}

/// Puts the line of a stop. It takes no memory; a put that fails ends the line.
pub(crate) fn tell<N: Sink>(note: &mut N, request: &Request<'_>, stop: Stop)
    ensures { Noted (line_of (asked_of request.now) stop) (N.taken note.old) (N.taken note.new) (N.faults note.old) (N.faults note.new) }
{
    match put_line(note, request, stop) {
        Ok(()) => {}
        Err(_) => {}
    }
}

/// Puts the line for words that are no command.
pub(crate) fn tell_words<N: Sink>(note: &mut N)
    ensures { Noted words_line (N.taken note.old) (N.taken note.new) (N.faults note.old) (N.faults note.new) }
{
    match note.put(b"cfix: bad words\n") {
        Ok(()) => {}
        Err(_) => {}
    }
}
