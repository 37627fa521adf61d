ghost use Rattle.std.specs.Prelude.{◌≡◌, ◌∷◌, ◌<◌, false, length, IfOk, OnOk, OnErr};
ghost use Rattle.step_state.specs.Changes.{frame_of};
ghost use Rattle.step_state.specs.Values.{last_values};
ghost use Rattle.step_state.specs.declared.item.Item.TheVariants as item;
ghost use Rattle.step_state.specs.declared.item.Action.TheVariants as action;
ghost use Rattle.step_tables.specs.TreeCode.{tree_code};
ghost use Rattle.step_machine.specs.Next.{IsNext, Steps};
ghost use Rattle.step_machine.specs.Rooms.{HasRoom};
ghost use Rattle.step_machine.specs.Tops.{calling};

use crate::frames::frame_of;
use crate::machine_of::Machine;
use crate::next::top_frame;
use cfix_base::{FnId, NoMemory};
use std::alloc::Global;
use step_state::{Configuration, Event, Frame, Stack};
use step_tables::Tables;
use step_values::pop_item;

/// The frame that a call makes, whose arguments are the last values of the caller's frame.
fn called(
    alloc: Global,
    tables: &Tables,
    serial: u32,
    function: FnId,
    caller: &Frame,
) -> Result<Frame, NoMemory>
    ensures { IfOk result (λ frame. frame ≡ frame_of (tree_code tables.now) serial function.number (last_values ((tree_code tables.now).params function.number) caller.now.values)) }
{
    let args = caller.values.last(tables.params(function));
    frame_of(alloc, tables, serial, function, args)
}

/// The top frame has made its call, and the new frame stands on it. After an error nothing has
/// changed.
#[tactic(auto, using(crate::proofs::Lookups::called_is))]
fn stack_call(frames: &mut Stack<Frame>, frame: Frame, count: usize) -> Result<(), NoMemory>
    requires { 0 < length frames.old }
    ensures ok { OnOk result (frames.new ≡ frame ∷ calling count frames.old) }
    ensures err { OnErr result (frames.new ≡ frames.old) }
{
    frames.push(frame)?;
    let caller = frames.second_mut();
    caller.values.remove(count);
    pop_item(caller);
    Ok(())
}

impl Machine<'_> {
    /// A function is called.
    #[tactic(auto, using(crate::proofs::Lookups::set_back, crate::proofs::Lookups::top_back))]
    pub(crate) fn call(
        &self,
        alloc: Global,
        state: &mut Configuration,
        thread: u32,
        function: FnId,
    ) -> Result<Event, NoMemory>
        requires next { IsNext state.old thread (item.Act (action.Call function)) }
        requires room { HasRoom state.old }
        ensures ok { IfOk result (λ event. Steps (tree_code self.now) state.old thread false state.new event) }
        ensures err { OnErr result (state.new ≡ state.old) }
    {
        let caller = top_frame(state, thread);
        let frame = called(alloc, &self.tables, state.made, function, caller)?;
        let frames = &mut state.threads.at_mut(thread as usize).frames;
        stack_call(frames, frame, self.tables.params(function))?;
        state.made += 1;
        Ok(Event::Call(function))
    }
}
