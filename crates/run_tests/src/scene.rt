use cfix_base::{List, NoMemory};
use cfix_core::run;
use cfix_outside::{FailPlan, MemoryShelf, MemorySink};
use std::alloc::Global;

/// The words, the files by their names, and the calls of the shelf and the sinks that fail.
#[derive(Clone, Copy)]
pub struct Scene<'a> {
    pub words: &'a [&'a str],
    pub files: &'a [(&'a str, &'a [u8])],
    pub reads: &'a [(u32, u32)],
    pub puts: &'a [(u32, u32)],
    pub notes: &'a [(u32, u32)],
}

/// What a call of `run` left behind.
#[derive(Drop)]
pub struct Ended {
    pub status: u8,
    pub out: MemorySink,
    pub note: MemorySink,
}

pub fn plan(alloc: Global, entries: &[(u32, u32)]) -> Result<FailPlan, NoMemory> {
    let mut calls = Vec::new(alloc);
    calls.extend_from_slice(entries)?;
    Ok(FailPlan {
        calls: List::from_vec(calls),
    })
}

fn texts(alloc: Global, words: &[&str]) -> Result<Vec<String>, NoMemory> {
    let mut texts = Vec::new(alloc);
    for word in words {
        texts.push(String::from_str(alloc, word)?)?;
    }
    Ok(texts)
}

pub fn shelf(
    alloc: Global,
    files: &[(&str, &[u8])],
    reads: &[(u32, u32)],
) -> Result<MemoryShelf, NoMemory> {
    let mut held = Vec::new(alloc);
    for (name, text) in files {
        held.push((String::from_str(alloc, name)?, text.to_vec(alloc)?))?;
    }
    Ok(MemoryShelf::new(held, plan(alloc, reads)?))
}

/// Runs the scene.
pub fn play(alloc: Global, scene: &Scene<'_>) -> Result<Ended, NoMemory> {
    let words = texts(alloc, scene.words)?;
    let mut shelf = shelf(alloc, scene.files, scene.reads)?;
    let mut out = MemorySink::with_room(alloc, 1000, plan(alloc, scene.puts)?)?;
    let mut note = MemorySink::with_room(alloc, 1000, plan(alloc, scene.notes)?)?;
    let status = run(alloc, &words, &mut shelf, &mut out, &mut note);
    Ok(Ended { status, out, note })
}
