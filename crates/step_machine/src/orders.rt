ghost use Rattle.std.specs.Prelude.{◌≡◌, ◌+◌, ◌||◌, true, false, slice_index, slice_index_or};
ghost use Rattle.step_state.specs.Operate.{no_token};
ghost use Rattle.cfix_base.specs.declared.op.Op.TheVariants as op;
ghost use Rattle.step_state.specs.declared.item.Item.TheVariants as item;
ghost use Rattle.step_tables.specs.TreeCode.{tree_code};
ghost use Rattle.step_machine.specs.Next.{IsNext, Steps};
ghost use Rattle.step_machine.specs.Rooms.{HasRoom};

use crate::counts::{count_of, raise};
use crate::machine_of::Machine;
use crate::next::pop_next;
use cfix_base::OrderId;
use step_state::{Configuration, Event, Table};

/// Whether the order's flag is set.
#[tactic(auto, using(crate::proofs::Lookups::past_is))]
fn has_flag(flags: &Table<bool>, order: OrderId) -> bool
    ensures { result ≡ slice_index_or flags.now order.number false }
{
    match flags.get(order.number as usize) {
        None => false,
        Some(flag) => *flag,
    }
}

/// Whether the order is ready: it has no token, or its flag is set.
pub fn is_ready(state: &Configuration, order: OrderId) -> bool
    ensures { result ≡ (no_token (slice_index state.now.tokens order.number) || slice_index_or state.now.flags order.number false) }
{
    count_of(&state.tokens, order.number) == 0 || has_flag(&state.flags, order)
}

impl Machine<'_> {
    /// An order that is ready was waited for.
    pub(crate) fn wait(&self, state: &mut Configuration, thread: u32, order: OrderId) -> Event
        requires next { IsNext state.old thread (item.Op (op.Wait order)) }
        requires ready { (no_token (slice_index state.old.tokens order.number) || slice_index_or state.old.flags order.number false) ≡ true }
        ensures { Steps (tree_code self.now) state.old thread false state.new result }
    {
        pop_next(state.threads.at_mut(thread as usize));
        Event::Wait(order)
    }

    /// The wait for an order that is not ready times out.
    pub(crate) fn miss_wait(&self, state: &mut Configuration, thread: u32, order: OrderId) -> Event
        requires next { IsNext state.old thread (item.Op (op.Wait order)) }
        requires ready { (no_token (slice_index state.old.tokens order.number) || slice_index_or state.old.flags order.number false) ≡ false }
        ensures { Steps (tree_code self.now) state.old thread true state.new result }
    {
        pop_next(state.threads.at_mut(thread as usize));
        Event::WaitMissed(order)
    }

    /// An order gets its flag.
    pub(crate) fn first(&self, state: &mut Configuration, thread: u32, order: OrderId) -> Event
        requires { IsNext state.old thread (item.Op (op.First order)) }
        ensures { Steps (tree_code self.now) state.old thread false state.new result }
    {
        pop_next(state.threads.at_mut(thread as usize));
        state.flags.set(order.number as usize, true);
        Event::First(order)
    }

    /// An order gets one token less, if it has one.
    pub(crate) fn done(&self, state: &mut Configuration, thread: u32, order: OrderId) -> Event
        requires { IsNext state.old thread (item.Op (op.Done order)) }
        ensures { Steps (tree_code self.now) state.old thread false state.new result }
    {
        pop_next(state.threads.at_mut(thread as usize));
        let tokens = count_of(&state.tokens, order.number);
        if tokens > 0 {
            state.tokens.set(order.number as usize, tokens - 1);
        }
        Event::Done(order)
    }

    /// An order gets one token more.
    pub(crate) fn add(&self, state: &mut Configuration, thread: u32, order: OrderId) -> Event
        requires next { IsNext state.old thread (item.Op (op.Add order)) }
        requires room { HasRoom state.old }
        ensures { Steps (tree_code self.now) state.old thread false state.new result }
    {
        pop_next(state.threads.at_mut(thread as usize));
        raise(&mut state.tokens, order.number);
        Event::Add(order)
    }
}
