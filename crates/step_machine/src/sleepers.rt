ghost use Rattle.std.specs.Prelude.{◌≡◌, ◌∷◌, ◌++◌, ◌≤◌, [], drop, length, slice_index_or, slice_set, take, OnErr, OnOk};
ghost use Rattle.step_state.specs.Sleepers.{all_but_lowest, sleeps, with_sleeper};

use cfix_base::{NoMemory, VarId};
use std::alloc::Global;
use step_state::Table;

/// The threads that sleep on a condition variable, by rising numbers.
#[tactic(auto, using(crate::proofs::Lookups::past_is))]
pub fn sleepers_of(sleepers: &Table<Table<u32>>, cond: VarId) -> &[u32]
    ensures { result.now ≡ slice_index_or sleepers.now cond.number [] }
{
    match sleepers.get(cond.number as usize) {
        None => &[],
        Some(own) => own.as_slice(),
    }
}

/// Whether the thread is among these.
#[tactic(auto, using(crate::proofs::Sleeping::sleeps_more))]
pub fn sleeps(thread: u32, sleepers: &[u32]) -> bool
    ensures { result ≡ sleeps thread sleepers.now }
{
    for sleeper in sleepers {
        if *sleeper == thread {
            return true;
        }
    }
    false
}

/// Where one more thread stands among these, which rise.
#[tactic(auto, using(crate::proofs::Sleeping::place_here, crate::proofs::Sleeping::place_more, crate::proofs::Sleeping::place_end))]
fn place_among(thread: u32, sleepers: &[u32]) -> usize
    ensures within { result ≤ length sleepers.now }
    ensures place { with_sleeper thread sleepers.now ≡ take result sleepers.now ++ thread ∷ drop result sleepers.now }
{
    let mut place = 0;
    for sleeper in sleepers {
        if thread < *sleeper {
            return place;
        }
        place += 1;
    }
    place
}

/// One more thread sleeps. After an error nothing has changed.
fn insert_sleeper(sleepers: &mut Table<u32>, thread: u32) -> Result<(), NoMemory>
    ensures ok { OnOk result (sleepers.new ≡ with_sleeper thread sleepers.old) }
    ensures err { OnErr result (sleepers.new ≡ sleepers.old) }
{
    let place = place_among(thread, sleepers.as_slice());
    sleepers.insert(place, thread)?;
    Ok(())
}

/// One more thread sleeps on the condition variable. After an error nothing has changed.
#[tactic(auto, using(crate::proofs::Lookups::set_back, crate::proofs::Lookups::set_past, crate::proofs::Lookups::index_is))]
pub fn add_sleeper(
    sleepers: &mut Table<Table<u32>>,
    cond: VarId,
    thread: u32,
) -> Result<(), NoMemory>
    ensures ok { OnOk result (sleepers.new ≡ slice_set sleepers.old cond.number (with_sleeper thread (slice_index_or sleepers.old cond.number []))) }
    ensures err { OnErr result (sleepers.new ≡ sleepers.old) }
{
    let place = cond.number as usize;
    if place < sleepers.len() {
        insert_sleeper(sleepers.at_mut(place), thread)?;
    }
    Ok(())
}

/// The thread with the lowest number sleeps on the condition variable no longer.
#[tactic(auto, using(crate::proofs::Lookups::set_past, crate::proofs::Lookups::index_is, crate::proofs::Sleeping::lowest_is))]
pub fn wake_lowest(sleepers: &mut Table<Table<u32>>, cond: VarId)
    ensures { sleepers.new ≡ slice_set sleepers.old cond.number (all_but_lowest (slice_index_or sleepers.old cond.number [])) }
{
    let place = cond.number as usize;
    if place < sleepers.len() {
        sleepers.at_mut(place).remove_first();
    }
}

/// No thread sleeps on the condition variable any longer.
pub fn wake_all(alloc: Global, sleepers: &mut Table<Table<u32>>, cond: VarId)
    ensures { sleepers.new ≡ slice_set sleepers.old cond.number [] }
{
    sleepers.set(cond.number as usize, Table::new(alloc));
}
