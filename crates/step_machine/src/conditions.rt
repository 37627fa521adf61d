ghost use Rattle.std.specs.Prelude.{◌≡◌, false, slice_index_or, IfOk, OnErr, Option};
ghost use Rattle.step_state.specs.Sleepers.{sleepers_of, sleeps};
ghost use Rattle.step_state.specs.declared.item.Item.TheVariants as item;
ghost use Rattle.step_state.specs.declared.item.Action.TheVariants as action;
ghost use Rattle.step_tables.specs.TreeCode.{tree_code};
ghost use Rattle.step_machine.specs.Next.{IsNext, Steps};

use crate::globals::trap;
use crate::machine_of::Machine;
use crate::mutexes::{holds, owner_of};
use crate::next::pop_next;
use crate::sleepers::{add_sleeper, wake_all, wake_lowest};
use cfix_base::{NoMemory, VarId};
use std::alloc::Global;
use step_state::{Configuration, Event, Trap};

impl Machine<'_> {
    /// The thread that holds the mutex unlocks it and sleeps on the condition variable.
    pub(crate) fn sleep(
        &self,
        state: &mut Configuration,
        thread: u32,
        cond: VarId,
        mutex: VarId,
    ) -> Result<Event, NoMemory>
        requires { IsNext state.old thread (item.Act (action.Sleep cond mutex)) }
        ensures ok { IfOk result (λ event. Steps (tree_code self.now) state.old thread false state.new event) }
        ensures err { OnErr result (state.new ≡ state.old) }
    {
        if !holds(owner_of(&state.owners, mutex), thread) {
            return Ok(trap(state, Trap::Unlock));
        }
        add_sleeper(&mut state.sleepers, cond, thread)?;
        pop_next(state.threads.at_mut(thread as usize));
        state.owners.set(mutex.number as usize, None);
        Ok(Event::Sleep { cond, mutex })
    }

    /// A thread that sleeps no longer locks the mutex, which is free.
    pub(crate) fn wake(
        &self,
        state: &mut Configuration,
        thread: u32,
        cond: VarId,
        mutex: VarId,
    ) -> Event
        requires next { IsNext state.old thread (item.Act (action.Wake cond mutex)) }
        requires awake { sleeps thread (sleepers_of state.old cond) ≡ false }
        requires free { slice_index_or state.old.owners mutex.number Option.None ≡ Option.None }
        ensures { Steps (tree_code self.now) state.old thread false state.new result }
    {
        pop_next(state.threads.at_mut(thread as usize));
        state.owners.set(mutex.number as usize, Some(thread));
        Event::Wake { cond, mutex }
    }

    /// Of the threads that sleep on the condition variable the one with the lowest number sleeps no
    /// longer.
    pub(crate) fn signal(&self, state: &mut Configuration, thread: u32, cond: VarId) -> Event
        requires { IsNext state.old thread (item.Act (action.Signal cond)) }
        ensures { Steps (tree_code self.now) state.old thread false state.new result }
    {
        wake_lowest(&mut state.sleepers, cond);
        pop_next(state.threads.at_mut(thread as usize));
        Event::Signal(cond)
    }

    /// No thread sleeps on the condition variable any longer.
    pub(crate) fn broadcast(
        &self,
        alloc: Global,
        state: &mut Configuration,
        thread: u32,
        cond: VarId,
    ) -> Event
        requires { IsNext state.old thread (item.Act (action.Broadcast cond)) }
        ensures { Steps (tree_code self.now) state.old thread false state.new result }
    {
        wake_all(alloc, &mut state.sleepers, cond);
        pop_next(state.threads.at_mut(thread as usize));
        Event::Broadcast(cond)
    }
}
