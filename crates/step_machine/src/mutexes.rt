ghost use Rattle.std.specs.Prelude.{◌≡◌, false, slice_index_or, Option};
ghost use Rattle.step_state.specs.Act.{holds};
ghost use Rattle.step_state.specs.declared.item.Item.TheVariants as item;
ghost use Rattle.step_state.specs.declared.item.Action.TheVariants as action;
ghost use Rattle.step_tables.specs.TreeCode.{tree_code};
ghost use Rattle.step_machine.specs.Next.{IsNext, Steps};

use crate::globals::trap;
use crate::machine_of::Machine;
use crate::next::pop_next;
use cfix_base::VarId;
use step_state::{Configuration, Event, Table, Trap};

/// The owner of a mutex, if it has one.
#[tactic(auto, using(crate::proofs::Lookups::past_is))]
pub fn owner_of(owners: &Table<Option<u32>>, mutex: VarId) -> Option<u32>
    ensures { result ≡ slice_index_or owners.now mutex.number Option.None }
{
    match owners.get(mutex.number as usize) {
        None => None,
        Some(owner) => *owner,
    }
}

/// Whether the owner is this thread.
pub fn holds(owner: Option<u32>, thread: u32) -> bool
    ensures { result ≡ holds owner thread }
{
    match owner {
        None => false,
        Some(owner) => owner == thread,
    }
}

impl Machine<'_> {
    /// A mutex that is free is locked.
    pub(crate) fn lock(&self, state: &mut Configuration, thread: u32, mutex: VarId) -> Event
        requires next { IsNext state.old thread (item.Act (action.Lock mutex)) }
        requires free { slice_index_or state.old.owners mutex.number Option.None ≡ Option.None }
        ensures { Steps (tree_code self.now) state.old thread false state.new result }
    {
        pop_next(state.threads.at_mut(thread as usize));
        state.owners.set(mutex.number as usize, Some(thread));
        Event::Lock(mutex)
    }

    /// A mutex is unlocked by the thread that holds it.
    pub(crate) fn unlock(&self, state: &mut Configuration, thread: u32, mutex: VarId) -> Event
        requires { IsNext state.old thread (item.Act (action.Unlock mutex)) }
        ensures { Steps (tree_code self.now) state.old thread false state.new result }
    {
        if !holds(owner_of(&state.owners, mutex), thread) {
            return trap(state, Trap::Unlock);
        }
        pop_next(state.threads.at_mut(thread as usize));
        state.owners.set(mutex.number as usize, None);
        Event::Unlock(mutex)
    }
}
