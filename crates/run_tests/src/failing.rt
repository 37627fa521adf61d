use crate::scene::{Scene, play};
use crate::texts::{
    CLASSIC_ENTRIES, COUNTER, COUNTER_PATCHED, COUNTER_REPORT, OVERFLOW, OVERFLOW_ENTRIES, classic,
    classic_steps, overflow_steps,
};
use std::alloc::{AllocError, Global};
use std::process::Abort;
use std::test::Fail;

/// The calls of the shelf, of the output and of the notes that fail, each with the bytes that it lets through.
type Fails<'a> = (&'a [(u32, u32)], &'a [(u32, u32)], &'a [(u32, u32)]);

/// The scene of these words and files in which nothing fails.
fn quiet<'a>(words: &'a [&'a str], files: &'a [(&'a str, &'a [u8])]) -> Scene<'a> {
    Scene {
        words,
        files,
        reads: &[],
        puts: &[],
        notes: &[],
    }
}

fn check(rt: &impl Abort, alloc: Global, scene: &Scene<'_>, status: u8, out: &[u8], note: &[u8]) {
    let ended = play(alloc, scene).expect(rt, "memory");
    assert_eq!(rt; ended.status, status);
    assert_eq!(rt; ended.out.taken(), out);
    assert_eq!(rt; ended.note.taken(), note);
}

/// The first bytes of the shown source, so many.
fn front(size: usize) -> &'static [u8] {
    let shown = classic();
    &shown[..size.min(shown.len())]
}

/// Plays the patch of the counter with calls of the shelf, of the output and of the notes that fail.
fn patched(rt: &impl Abort, alloc: Global, fails: Fails<'_>, status: u8, out: &[u8], note: &[u8]) {
    let (reads, puts, notes) = fails;
    let files = [("p.c", COUNTER), ("r.json", COUNTER_REPORT)];
    let scene = Scene {
        reads,
        puts,
        notes,
        ..quiet(&["patch", "p.c", "r.json"], &files)
    };
    check(rt, alloc, &scene, status, out, note);
}

/// Shows the source of two threads with such calls.
fn shown(rt: &impl Abort, alloc: Global, fails: Fails<'_>, status: u8, out: &[u8], note: &[u8]) {
    let (reads, puts, notes) = fails;
    let files = [("p.c", classic())];
    let scene = Scene {
        reads,
        puts,
        notes,
        ..quiet(&["show", "p.c"], &files)
    };
    check(rt, alloc, &scene, status, out, note);
}

/// Replays the sum that overflows, with such calls and with an entry that makes no step.
fn replayed(rt: &impl Abort, alloc: Global, fails: Fails<'_>, status: u8, out: &[u8], note: &[u8]) {
    let (reads, puts, notes) = fails;
    let files = [
        ("p.c", OVERFLOW),
        ("i.txt", b"".as_slice()),
        ("s.txt", b"0\n0\n7\n"),
    ];
    let scene = Scene {
        reads,
        puts,
        notes,
        ..quiet(&["replay", "p.c", "i.txt", "s.txt"], &files)
    };
    check(rt, alloc, &scene, status, out, note);
}

const NONE: &[(u32, u32)] = &[];

const FIRST: &[(u32, u32)] = &[(0, 0)];

const SECOND: &[(u32, u32)] = &[(1, 0)];

const THIRD: &[(u32, u32)] = &[(2, 0)];

const NO_SOURCE: &[u8] = b"cfix: cannot read p.c\n";

const NO_WRITE: &[u8] = b"cfix: cannot write\n";

#[test]
fn each_fault_of_a_patch_has_its_status_and_its_line(rt: HostRuntime) {
    for (reads, puts, notes, status, out, note) in [
        (FIRST, NONE, NONE, 4u8, b"".as_slice(), NO_SOURCE),
        (SECOND, NONE, NONE, 4, b"", b"cfix: cannot read r.json\n"),
        (NONE, FIRST, NONE, 5, b"", NO_WRITE),
        (NONE, &[(0, 1)], NONE, 5, b"#", NO_WRITE),
        (NONE, &[(0, 3)], NONE, 5, b"#in", NO_WRITE),
        (NONE, SECOND, SECOND, 0, COUNTER_PATCHED, b""),
        (NONE, &[(0, 1)], &[(0, 7)], 5, b"#", b"cfix: c"),
        (FIRST, NONE, &[(0, 2)], 4, b"", b"cf"),
        (FIRST, NONE, &[(1, 1)], 4, b"", b"cfix: cannot read p"),
        (FIRST, NONE, &[(2, 0)], 4, b"", b"cfix: cannot read p.c"),
    ] {
        patched(&rt, rt.alloc(), (reads, puts, notes), status, out, note);
    }
}

#[test]
fn each_fault_of_a_shown_source_has_its_status_and_its_line(rt: HostRuntime) {
    for (reads, puts, notes, status, out, note) in [
        (FIRST, NONE, NONE, 4u8, b"".as_slice(), NO_SOURCE),
        (NONE, FIRST, NONE, 5, b"", NO_WRITE),
        (NONE, &[(0, 1)], NONE, 5, b"#", NO_WRITE),
        (NONE, &[(1, 10)], NONE, 5, front(266), NO_WRITE),
        (NONE, &[(1, 10)], FIRST, 5, front(266), b""),
        (NONE, NONE, FIRST, 0, classic(), b""),
    ] {
        shown(&rt, rt.alloc(), (reads, puts, notes), status, out, note);
    }
}

/// The files are read in the order of the words; where a put fails before the entry that makes no step, the entry is
/// not told.
#[test]
fn each_fault_of_a_replay_has_its_status_and_its_line(rt: HostRuntime) {
    let in_step = b"1 0 begin 0\n2 0".as_slice();
    for (reads, puts, status, out, note) in [
        (FIRST, NONE, 4u8, b"".as_slice(), NO_SOURCE),
        (SECOND, NONE, 4, b"", b"cfix: cannot read i.txt\n"),
        (THIRD, NONE, 4, b"", b"cfix: cannot read s.txt\n"),
        (NONE, &[(1, 3)], 5, in_step, NO_WRITE),
    ] {
        replayed(&rt, rt.alloc(), (reads, puts, NONE), status, out, note);
    }
}

/// The number of bytes of a text before each of its lines.
fn starts(alloc: Global, text: &[u8]) -> Result<Vec<usize>, AllocError> {
    let mut starts = Vec::new(alloc);
    let mut start = 0;
    for (place, byte) in text.iter().enumerate() {
        if *byte == b'\n' {
            starts.push(start)?;
            start = place + 1;
        }
    }
    Ok(starts)
}

/// Where a put of a replay fails, the lines before it stand in the output, and some bytes of its own.
#[test]
fn each_put_may_fail(rt: HostRuntime) -> Result<(), Fail> {
    let alloc = rt.alloc();
    for (source, schedule, out, lines) in [
        (OVERFLOW, OVERFLOW_ENTRIES, overflow_steps(), 9usize),
        (classic(), CLASSIC_ENTRIES, classic_steps(), 17),
    ] {
        let starts = starts(alloc, out)?;
        assert_eq!(rt; starts.len(), lines);
        let files = [("p.c", source), ("i.txt", b""), ("s.txt", schedule)];
        let mut call = 0u32;
        for start in starts.iter() {
            for more in [0u32, 1] {
                let end = start.saturating_add(more as usize).min(out.len());
                let scene = Scene {
                    puts: &[(call, more)],
                    ..quiet(&["replay", "p.c", "i.txt", "s.txt"], &files)
                };
                check(&rt, alloc, &scene, 5, &out[..end], b"cfix: cannot write\n");
            }
            call = call.saturating_add(1);
        }
    }
    Ok(())
}
