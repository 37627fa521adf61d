ghost use Rattle.std.specs.Prelude.{◌≡◌, ◌∷◌, false, IfOk, OnErr};
ghost use Rattle.step_state.specs.declared.item.Item.TheVariants as item;
ghost use Rattle.step_state.specs.declared.item.Action.TheVariants as action;
ghost use Rattle.step_tables.specs.TreeCode.{tree_code};
ghost use Rattle.step_machine.specs.Next.{IsNext, Steps};

use crate::machine_of::Machine;
use cfix_base::NoMemory;
use step_state::{Configuration, Ending, Event, GlobalSite, Trap};
use step_values::{
    drop_past, index_value, last_value, place_of, pop_item, push_past, read_cell, second_index,
    set_cell,
};

/// The run ends by a trap, which changes nothing else.
pub fn trap(state: &mut Configuration, trap: Trap) -> Event
    ensures state { state.new ≡ record state.old { ending = Ending.Trap trap } }
    ensures event { result ≡ Event.Trap trap }
{
    state.ending = Ending::Trap(trap);
    Event::Trap(trap)
}

impl Machine<'_> {
    /// A global is read, and its value becomes the last value, in the place of its index where it
    /// has one.
    #[tactic(auto, using(crate::proofs::Lookups::set_back, crate::proofs::Lookups::top_back))]
    pub(crate) fn get(
        &self,
        state: &mut Configuration,
        thread: u32,
        site: GlobalSite,
    ) -> Result<Event, NoMemory>
        requires { IsNext state.old thread (item.Act (action.Get site)) }
        ensures ok { IfOk result (λ event. Steps (tree_code self.now) state.old thread false state.new event) }
        ensures err { OnErr result (state.new ≡ state.old) }
    {
        let frame = state.threads.at_mut(thread as usize).frames.top_mut();
        let index = index_value(&frame.values, site.indexed);
        let Some(value) = read_cell(&state.globals, site.var.number, index) else {
            return Ok(trap(state, Trap::Index));
        };
        push_past(&mut frame.values, site.indexed, value)?;
        pop_item(frame);
        Ok(Event::Read {
            site: site.access,
            cell: place_of(index),
            value,
        })
    }

    /// A global is read, and its value becomes the last value, behind its index.
    #[tactic(auto, using(crate::proofs::Lookups::set_back, crate::proofs::Lookups::top_back))]
    pub(crate) fn get_keep(
        &self,
        state: &mut Configuration,
        thread: u32,
        site: GlobalSite,
    ) -> Result<Event, NoMemory>
        requires { IsNext state.old thread (item.Act (action.GetKeep site)) }
        ensures ok { IfOk result (λ event. Steps (tree_code self.now) state.old thread false state.new event) }
        ensures err { OnErr result (state.new ≡ state.old) }
    {
        let frame = state.threads.at_mut(thread as usize).frames.top_mut();
        let index = index_value(&frame.values, site.indexed);
        let Some(value) = read_cell(&state.globals, site.var.number, index) else {
            return Ok(trap(state, Trap::Index));
        };
        frame.values.push(value)?;
        pop_item(frame);
        Ok(Event::Read {
            site: site.access,
            cell: place_of(index),
            value,
        })
    }

    /// A global gets the last value.
    #[tactic(auto, using(crate::proofs::Lookups::set_back, crate::proofs::Lookups::top_back))]
    pub(crate) fn put(&self, state: &mut Configuration, thread: u32, site: GlobalSite) -> Event
        requires { IsNext state.old thread (item.Act (action.Put site)) }
        ensures { Steps (tree_code self.now) state.old thread false state.new result }
    {
        let frame = state.threads.at_mut(thread as usize).frames.top_mut();
        let value = last_value(&frame.values);
        let index = second_index(&frame.values, site.indexed);
        if read_cell(&state.globals, site.var.number, index).is_none() {
            return trap(state, Trap::Index);
        }
        drop_past(&mut frame.values, site.indexed);
        pop_item(frame);
        set_cell(&mut state.globals, site.var.number, place_of(index), value);
        Event::Write {
            site: site.access,
            cell: place_of(index),
            value,
        }
    }

    /// The next number of the input, or 0, becomes the last value.
    #[tactic(auto, using(crate::proofs::Lookups::set_back, crate::proofs::Lookups::top_back))]
    pub(crate) fn take(&self, state: &mut Configuration, thread: u32) -> Result<Event, NoMemory>
        requires { IsNext state.old thread (item.Act action.Take) }
        ensures ok { IfOk result (λ event. Steps (tree_code self.now) state.old thread false state.new event) }
        ensures err { OnErr result (state.new ≡ state.old) }
    {
        let frame = state.threads.at_mut(thread as usize).frames.top_mut();
        let value = last_value(&state.input);
        frame.values.push(value)?;
        pop_item(frame);
        state.input.pop();
        Ok(Event::Take(value))
    }
}
