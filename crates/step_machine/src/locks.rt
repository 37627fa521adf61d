ghost use Rattle.std.specs.Prelude.{◌≡◌, ◌+◌, ◌^◌, ◌<◌, true, false, length, slice_index, slice_index_or, slice_set, IfOk, OnErr, OnOk, Option};
ghost use Rattle.step_state.specs.Operate.{may_enter, owner_after};
ghost use Rattle.cfix_base.specs.declared.op.Op.TheVariants as op;
ghost use Rattle.step_state.specs.declared.item.Item.TheVariants as item;
ghost use Rattle.step_tables.specs.TreeCode.{tree_code};
ghost use Rattle.step_machine.specs.Next.{popped_thread, IsNext, Steps};
ghost use Rattle.step_machine.specs.Rooms.{HasRoom};

use crate::machine_of::Machine;
use crate::next::pop_next;
use cfix_base::{LockId, NoMemory};
use step_state::{Configuration, Event, Table, Thread};

/// Whether the thread may enter the lock: it is free, or the thread's own.
#[tactic(auto, using(crate::proofs::Lookups::past_is))]
pub fn may_enter(locks: &Table<Option<u32>>, lock: LockId, thread: u32) -> bool
    ensures { result ≡ may_enter (slice_index_or locks.now lock.number Option.None) thread }
{
    match locks.get(lock.number as usize) {
        Some(Some(owner)) => *owner == thread,
        _ => true,
    }
}

/// The owner of a lock that the thread holds so often.
fn owner_after(thread: u32, depth: u32) -> Option<u32>
    ensures { result ≡ owner_after thread depth }
{
    if depth == 0 { None } else { Some(thread) }
}

/// The thread enters the lock, which is its next item.
fn hold(thread: &mut Thread, lock: LockId) -> Result<(), NoMemory>
    requires frames { 0 < length thread.old.frames }
    requires room { slice_index thread.old.held lock.number + 1 < 2 ^ 32 }
    ensures ok { OnOk result (thread.new ≡ record (popped_thread thread.old) { held = slice_set thread.old.held lock.number (slice_index thread.old.held lock.number + 1) }) }
    ensures err { OnErr result (thread.new ≡ thread.old) }
{
    thread.held.raise(lock.number)?;
    pop_next(thread);
    Ok(())
}

/// The thread's enter of the lock, which is its next item, times out.
fn miss(thread: &mut Thread, lock: LockId) -> Result<(), NoMemory>
    requires frames { 0 < length thread.old.frames }
    requires room { slice_index thread.old.missed lock.number + 1 < 2 ^ 32 }
    ensures ok { OnOk result (thread.new ≡ record (popped_thread thread.old) { missed = slice_set thread.old.missed lock.number (slice_index thread.old.missed lock.number + 1) }) }
    ensures err { OnErr result (thread.new ≡ thread.old) }
{
    thread.missed.raise(lock.number)?;
    pop_next(thread);
    Ok(())
}

impl Machine<'_> {
    /// A lock that is free, or the thread's own, is entered.
    #[tactic(auto, using(crate::proofs::Lookups::set_back))]
    pub(crate) fn enter(
        &self,
        state: &mut Configuration,
        thread: u32,
        lock: LockId,
    ) -> Result<Event, NoMemory>
        requires next { IsNext state.old thread (item.Op (op.Enter lock)) }
        requires room { HasRoom state.old }
        requires may { may_enter (slice_index_or state.old.locks lock.number Option.None) thread ≡ true }
        ensures ok { IfOk result (λ event. Steps (tree_code self.now) state.old thread false state.new event) }
        ensures err { OnErr result (state.new ≡ state.old) }
    {
        hold(state.threads.at_mut(thread as usize), lock)?;
        state.locks.set(lock.number as usize, Some(thread));
        Ok(Event::Enter(lock))
    }

    /// The enter of another thread's lock times out.
    #[tactic(auto, using(crate::proofs::Lookups::set_back))]
    pub(crate) fn miss_enter(
        &self,
        state: &mut Configuration,
        thread: u32,
        lock: LockId,
    ) -> Result<Event, NoMemory>
        requires next { IsNext state.old thread (item.Op (op.Enter lock)) }
        requires room { HasRoom state.old }
        requires may { may_enter (slice_index_or state.old.locks lock.number Option.None) thread ≡ false }
        ensures ok { IfOk result (λ event. Steps (tree_code self.now) state.old thread true state.new event) }
        ensures err { OnErr result (state.new ≡ state.old) }
    {
        miss(state.threads.at_mut(thread as usize), lock)?;
        Ok(Event::EnterMissed(lock))
    }

    /// A lock is left; where its enter timed out, this leaves nothing but that.
    pub(crate) fn leave(&self, state: &mut Configuration, thread: u32, lock: LockId) -> Event
        requires { IsNext state.old thread (item.Op (op.Leave lock)) }
        ensures { Steps (tree_code self.now) state.old thread false state.new result }
    {
        let at = state.threads.at_mut(thread as usize);
        pop_next(at);
        let held = at.held.at(lock.number);
        if held > 0 {
            at.held.lower(lock.number);
            state
                .locks
                .set(lock.number as usize, owner_after(thread, held - 1));
            return Event::Leave(lock);
        }
        if at.missed.at(lock.number) > 0 {
            at.missed.lower(lock.number);
        }
        Event::Leave(lock)
    }
}
