ghost use Rattle.std.specs.Prelude.{◌≡◌, false, IfOk, OnOk, OnErr};
ghost use Rattle.step_state.specs.Changes.{pass};
ghost use Rattle.step_state.specs.Step.{branch_place, ending_after, returned};
ghost use Rattle.step_state.specs.declared.item.Item.TheVariants as item;
ghost use Rattle.step_state.specs.declared.item.Move.TheVariants as move;
ghost use Rattle.step_tables.specs.TreeCode.{tree_code};
ghost use Rattle.step_machine.specs.Next.{IsNext, Steps};

use crate::machine_of::Machine;
use crate::work::{work_after, work_of};
use cfix_base::{NoMemory, NodeId, Place};
use std::alloc::Global;
use step_state::{Configuration, Ending, Event, Frame};
use step_tables::Tables;
use step_values::{is_zero, last_value};

/// The way that a condition takes, by whether its value is 0.
fn branch_place(node: NodeId, is_zero: bool) -> Place
    ensures { result ≡ branch_place node is_zero }
{
    if is_zero {
        Place::False(node)
    } else {
        Place::True(node)
    }
}

/// The frame passes a place. After an error nothing has changed.
fn pass(alloc: Global, tables: &Tables, frame: &mut Frame, place: Place) -> Result<(), NoMemory>
    ensures ok { OnOk result (frame.new ≡ pass (tree_code tables.now) frame.old place) }
    ensures err { OnErr result (frame.new ≡ frame.old) }
{
    let work = work_after(alloc, tables, place)?;
    frame.visit = None;
    frame.last = place;
    frame.work = work;
    Ok(())
}

/// The value that a function returns, whose frame this is.
fn returned(tables: &Tables, frame: &Frame) -> i32
    ensures { result ≡ returned (tree_code tables.now) frame.now frame.now.last }
{
    match frame.last {
        Place::After(node) => {
            if tables.gives(node) {
                last_value(&frame.values)
            } else {
                0
            }
        }
        Place::Start(_) | Place::True(_) | Place::False(_) => 0,
    }
}

/// How the run stands when the last frame of a thread has ended.
fn ending_after(thread: u32, ending: Ending) -> Ending
    ensures { result ≡ ending_after thread ending }
{
    if thread == 0 { Ending::End } else { ending }
}

impl Machine<'_> {
    /// The thread's top frame begins a visit.
    pub(crate) fn begin(
        &self,
        alloc: Global,
        state: &mut Configuration,
        thread: u32,
        node: NodeId,
    ) -> Result<Event, NoMemory>
        requires { IsNext state.old thread (item.Go (move.Node node)) }
        ensures ok { IfOk result (λ event. Steps (tree_code self.now) state.old thread false state.new event) }
        ensures err { OnErr result (state.new ≡ state.old) }
    {
        let work = work_of(alloc, self.tables.items(node))?;
        let frame = state.threads.at_mut(thread as usize).frames.top_mut();
        frame.visit = Some(node);
        frame.values.clear();
        frame.work = work;
        Ok(Event::Begin(node))
    }

    /// The thread's top frame ends its visit of a condition.
    #[tactic(auto, using(crate::proofs::Lookups::set_back, crate::proofs::Lookups::top_back))]
    pub(crate) fn branch(
        &self,
        alloc: Global,
        state: &mut Configuration,
        thread: u32,
        node: NodeId,
    ) -> Result<Event, NoMemory>
        requires { IsNext state.old thread (item.Go (move.Branch node)) }
        ensures ok { IfOk result (λ event. Steps (tree_code self.now) state.old thread false state.new event) }
        ensures err { OnErr result (state.new ≡ state.old) }
    {
        let frame = state.threads.at_mut(thread as usize).frames.top_mut();
        let place = branch_place(node, is_zero(last_value(&frame.values)));
        pass(alloc, &self.tables, frame, place)?;
        frame.values.pop();
        Ok(Event::Silent)
    }

    /// The thread's top frame ends its visit of a node that is no condition.
    #[tactic(auto, using(crate::proofs::Lookups::set_back, crate::proofs::Lookups::top_back))]
    pub(crate) fn edge(
        &self,
        alloc: Global,
        state: &mut Configuration,
        thread: u32,
        node: NodeId,
    ) -> Result<Event, NoMemory>
        requires { IsNext state.old thread (item.Go (move.Edge node)) }
        ensures ok { IfOk result (λ event. Steps (tree_code self.now) state.old thread false state.new event) }
        ensures err { OnErr result (state.new ≡ state.old) }
    {
        let frame = state.threads.at_mut(thread as usize).frames.top_mut();
        pass(alloc, &self.tables, frame, Place::After(node))?;
        Ok(Event::Silent)
    }

    /// The thread's top frame ends: the frame below it gets its value, or the thread ends.
    #[tactic(auto, using(crate::proofs::Lookups::set_back))]
    pub(crate) fn exit(&self, state: &mut Configuration, thread: u32) -> Result<Event, NoMemory>
        requires { IsNext state.old thread (item.Go move.Exit) }
        ensures ok { IfOk result (λ event. Steps (tree_code self.now) state.old thread false state.new event) }
        ensures err { OnErr result (state.new ≡ state.old) }
    {
        let frames = &mut state.threads.at_mut(thread as usize).frames;
        if frames.len() < 2 {
            frames.pop();
            state.ending = ending_after(thread, state.ending);
            return Ok(Event::Exit);
        }
        let value = returned(&self.tables, frames.top_mut());
        frames.second_mut().values.push(value)?;
        frames.pop();
        Ok(Event::Return(value))
    }
}
