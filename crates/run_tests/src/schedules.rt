//! The values of schedules: a replay tells only those up to the first entry that makes no step.
use cfix_base::{Entry, MAX_SCHEDULE_ENTRIES};
use sched_text::{Schedule, schedule, schedule_text};
use std::test::Fail;

fn entry(thread: u32, timeout: bool) -> Entry {
    Entry { thread, timeout }
}

#[test]
fn schedules_that_read(rt: HostRuntime) {
    let none: &[Entry] = &[];
    for (text, entries) in [
        ("", none),
        ("0\n", &[entry(0, false)]),
        ("0", &[entry(0, false)]),
        ("5!\n", &[entry(5, true)]),
        (
            "0\n10!\n4294967295",
            &[entry(0, false), entry(10, true), entry(4294967295, false)],
        ),
        ("4294967295!", &[entry(4294967295, true)]),
    ] {
        let read = schedule(rt.alloc(), text.as_bytes()).expect(&rt, "a schedule");
        assert_eq!(rt; read.as_slice(), entries, "{text}");
    }
}

#[test]
fn written_schedules(rt: HostRuntime) -> Result<(), Fail> {
    let mut entries = Schedule::new(rt.alloc());
    entries.push(entry(0, false))?;
    entries.push(entry(70, true))?;
    entries.push(entry(4294967295, false))?;
    assert_eq!(rt; entries.len(), 3);
    let text = schedule_text(rt.alloc(), &entries)?;
    assert_eq!(rt; text.as_slice(), b"0\n70!\n4294967295\n".as_slice());
    let read = schedule(rt.alloc(), &text)?;
    assert_eq!(rt; read.as_slice(), entries.as_slice());
    assert_eq!(rt; read.len(), 3);
    assert_eq!(rt; *read.at(1), entry(70, true));
    Ok(())
}

/// The greatest length is read and written.
#[test]
fn a_long_schedule(rt: HostRuntime) -> Result<(), Fail> {
    let mut text = Vec::new(rt.alloc());
    for _ in 0..MAX_SCHEDULE_ENTRIES {
        text.extend_from_slice(b"7\n")?;
    }
    let read = schedule(rt.alloc(), &text)?;
    assert_eq!(rt; read.len(), 1_000_000);
    let written = schedule_text(rt.alloc(), &read)?;
    assert_eq!(rt; written.as_slice(), text.as_slice());
    Ok(())
}
