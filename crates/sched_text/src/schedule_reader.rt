ghost use Rattle.std.specs.Prelude.{◌≡◌, ◌⊎◌, ◌+◌, ℕ, List, Ok, Err, IfOk, IfErr, drop};
ghost use Rattle.std.specs.List.{prefix_len};
ghost use Rattle.cfix_base.specs.declared.entry.Entry.{Entry};
ghost use Rattle.sched_text.specs.Lines.{is_in_line};
ghost use Rattle.sched_text.specs.Schedules.{SpellsSchedule, IsFirstBadLine, HasTooManyLines, ExplainsSchedFault};

use crate::entries::Schedule;
use crate::entry_text::entry_of;
use cfix_base::{MAX_SCHEDULE_ENTRIES, NoMemory};
use std::alloc::Global;
use thiserror::Error;

/// Why a text is no schedule.
#[derive(Clone, Copy, Debug, PartialEq, Eq, Error)]
pub enum SchedFault {
    #[error("NoMemory")]
    NoMemory,
    /// The first malformed line, counted from 1.
    #[error("BadLine")]
    BadLine(u32),
    /// The lines up to the limit are well formed, and another one follows.
    #[error("TooMany")]
    TooMany,
}

impl From<NoMemory> for SchedFault {
    ghost use Rattle.sched_text.specs.declared.schedule_reader.SchedFault.TheVariants as fault;

    ghost from_gives = { λ _ given. given ≡ fault.NoMemory };

    fn from(_: NoMemory) -> SchedFault {
        SchedFault::NoMemory
    }
}

/// The number of bytes of the first line.
fn line_len(text: &[u8]) -> usize
    ensures { result ≡ prefix_len is_in_line text.now }
{
    text.iter().take_while(|byte| **byte != b'\n').count()
}

/// What follows the first line and its line feed, where the line has `len` bytes.
fn after_line(text: &[u8], len: usize) -> &[u8]
    ensures { result.now ≡ drop (len + 1) text.now }
{
    if len < text.len() {
        &text[len + 1..]
    } else {
        &[]
    }
}

/// Reads the lines one after another.
fn read_lines(alloc: Global, text: &[u8]) -> Result<Schedule, SchedFault>
    ensures ok { IfOk result (λ entries. SpellsSchedule text.now entries) }
    ensures refused { IfErr result (λ fault. ExplainsSchedFault text.now fault) }
{
    let mut entries = Schedule::new(alloc);
    let mut rest = text;
    let mut count = 0;
    'lines: while !rest.is_empty() {
        if count == MAX_SCHEDULE_ENTRIES {
            return Err(SchedFault::TooMany);
        }
        count += 1;
        let len = line_len(rest);
        match entry_of(&rest[..len]) {
            Some(entry) => entries.push(entry)?,
            None => return Err(SchedFault::BadLine(count)),
        }
        rest = after_line(rest, len);
    }
    Ok(entries)
}

/// Reads a schedule. A malformed line up to the limit is named before `TooMany`.
pub fn schedule(alloc: Global, text: &[u8]) -> Result<Schedule, SchedFault>
    ensures ok { IfOk result (λ entries. SpellsSchedule text.now entries) }
    ensures refused { IfErr result (λ fault. ExplainsSchedFault text.now fault) }

    // Both ways: what the text is fixes the answer, but for want of memory.
    ensures reads { (entries : List Entry) → SpellsSchedule text.now entries → (result ≡ Ok entries) ⊎ (result ≡ Err SchedFault.NoMemory) }
    ensures bad_line { (number : ℕ) → IsFirstBadLine text.now number → (result ≡ Err (SchedFault.BadLine number)) ⊎ (result ≡ Err SchedFault.NoMemory) }
    ensures too_many { HasTooManyLines text.now → (result ≡ Err SchedFault.TooMany) ⊎ (result ≡ Err SchedFault.NoMemory) }
{
    read_lines(alloc, text)
}
