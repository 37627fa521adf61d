ghost use Rattle.std.specs.Prelude.{◌≡◌, ◌++◌, ◌∷◌, ◌≤◌, [], length, IfOk, OnOk};
ghost use Rattle.std.specs.Fmt.{decimal};
ghost use Rattle.sched_text.specs.Schedules.{mark, entry_line, written, IsEntry, SpellsSchedule};

use crate::entries::Schedule;
use cfix_base::{Entry, MAX_SCHEDULE_ENTRIES, NoMemory};
use std::alloc::Global;

/// Adds a number in decimal.
fn add_decimal(text: &mut Vec<u8>, number: u32) -> Result<(), NoMemory>
    ensures { OnOk result (text.new.items ≡ text.old.items ++ decimal number) }
{
    if number >= 10 {
        add_decimal(text, number / 10)?;
    }
    text.push(b'0' + (number % 10) as u8)?;
    Ok(())
}

/// Adds what stands behind the thread's number.
fn add_mark(text: &mut Vec<u8>, timeout: bool) -> Result<(), NoMemory>
    ensures { OnOk result (text.new.items ≡ text.old.items ++ mark timeout) }
{
    if timeout {
        text.push(b'!')?;
    }
    Ok(())
}

/// Adds the line of an entry, with its line feed.
fn add_entry(text: &mut Vec<u8>, entry: &Entry) -> Result<(), NoMemory>
    ensures line { OnOk result (text.new.items ≡ text.old.items ++ (entry_line entry.now ++ 10 ∷ [])) }
    ensures range { OnOk result (IsEntry entry.now) }
{
    add_decimal(text, entry.thread)?;
    add_mark(text, entry.timeout)?;
    text.push(b'\n')?;
    Ok(())
}

/// Writes a schedule.
pub fn schedule_text(alloc: Global, schedule: &Schedule) -> Result<Vec<u8>, NoMemory>
    ensures text { IfOk result (λ text. text.items ≡ written schedule.now) }
    ensures reads_again { IfOk result (λ text. length schedule.now ≤ MAX_SCHEDULE_ENTRIES → SpellsSchedule text.items schedule.now) }
{
    let mut text = Vec::new(alloc);
    for entry in schedule.as_slice() {
        add_entry(&mut text, entry)?;
    }
    Ok(text)
}
