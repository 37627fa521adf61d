ghost use Rattle.std.specs.Prelude.{◌≡◌, [], ◌∷◌, true, false, length, slice_get, IfOk, OnErr, IsSome};
ghost use Rattle.step_state.specs.Act.{handle_at};
ghost use Rattle.step_state.specs.Changes.{frame_of, thread_of, with_values};
ghost use Rattle.step_state.specs.Values.{cell, last_value, past_index};
ghost use Rattle.step_values.specs.Popped.{popped};
ghost use Rattle.step_state.specs.declared.item.Item.TheVariants as item;
ghost use Rattle.step_state.specs.declared.item.Action.TheVariants as action;
ghost use Rattle.step_tables.specs.TreeCode.{tree_code};
ghost use Rattle.step_machine.specs.Next.{IsNext, Steps};
ghost use Rattle.step_machine.specs.Rooms.{HasRoom};
ghost use Rattle.step_machine.specs.Goes.{may_join_at};
ghost use Rattle.step_machine.specs.Tops.{creating, creation, global_numbers, has_ended, is_bad_join, local_numbers, may_join, numbers_of, top_of};

use crate::frames::{frame_of, thread_of};
use crate::globals::trap;
use crate::machine_of::Machine;
use crate::next::top_frame;
use c_prog::Var;
use cfix_base::{FnId, NoMemory};
use std::alloc::Global;
use step_state::{Configuration, Event, Frame, HandleSite, Table, Thread, Trap};
use step_tables::Tables;
use step_values::{
    drop_past, index_value, last_value, place_of, pop_item, read_cell, second_index, set_cell,
};

/// The thread number in a variable of the frame, or a global one, at this index.
fn number_at(handles: &Table<Table<u32>>, frame: &Frame, var: Var, index: i32) -> Option<u32>
    ensures { result ≡ cell (numbers_of handles.now frame.now var) index }
{
    match var {
        Var::Global(var) => read_cell(handles, var.number, index),
        Var::Local(local) => read_cell(&frame.handles, local, index),
    }
}

/// The thread that a creation makes, whose argument is the last value of the creator's frame.
fn created(
    alloc: Global,
    tables: &Tables,
    serial: u32,
    function: FnId,
    creator: &Frame,
) -> Result<Thread, NoMemory>
    ensures { IfOk result (λ thread. thread ≡ thread_of (tree_code tables.now) (frame_of (tree_code tables.now) serial function.number (last_value creator.now.values ∷ []))) }
{
    let args = [last_value(&creator.values)];
    let frame = frame_of(alloc, tables, serial, function, &args)?;
    thread_of(alloc, tables, frame)
}

/// A number is stored in a global variable, if it is one.
fn store_global(handles: &mut Table<Table<u32>>, var: Var, index: i32, number: u32)
    ensures { handles.new ≡ global_numbers handles.old var index number }
{
    if let Var::Global(var) = var {
        set_cell(handles, var.number, place_of(index), number);
    }
}

/// A number is stored in a local variable, if it is one.
fn store_local(handles: &mut Table<Table<u32>>, var: Var, index: i32, number: u32)
    ensures { handles.new ≡ local_numbers handles.old var index number }
{
    if let Var::Local(local) = var {
        set_cell(handles, local, place_of(index), number);
    }
}

/// The frame's creation has stored the number of a thread, in the frame if its variable is there.
fn finish_creation(frame: &mut Frame, target: HandleSite, number: u32)
    ensures { frame.new ≡ creating frame.old target number }
{
    let index = second_index(&frame.values, target.indexed);
    store_local(&mut frame.handles, target.var, index, number);
    drop_past(&mut frame.values, target.indexed);
    pop_item(frame);
}

/// Whether a join of this thread traps: its number is 0, or no thread's, or it was joined.
fn is_bad_join(state: &Configuration, number: u32) -> bool
    ensures { result ≡ is_bad_join state.now number }
{
    if number == 0 {
        return true;
    }
    match state.threads.get(number as usize) {
        None => true,
        Some(other) => other.joined,
    }
}

/// Whether a thread has ended.
fn has_ended(state: &Configuration, number: u32) -> bool
    ensures { result ≡ has_ended state.now number }
{
    match state.threads.get(number as usize) {
        None => true,
        Some(other) => other.frames.len() == 0,
    }
}

/// The number of the thread that the top frame of a thread is to join, if the variable has it.
fn number_to_join(state: &Configuration, frame: &Frame, target: HandleSite) -> Option<u32>
    ensures { result ≡ handle_at state.now frame.now target frame.now.values }
{
    let index = index_value(&frame.values, target.indexed);
    number_at(&state.handles, frame, target.var, index)
}

/// Whether the join of a frame goes on or traps.
pub fn may_join(state: &Configuration, frame: &Frame, target: HandleSite) -> bool
    ensures { result ≡ may_join state.now (handle_at state.now frame.now target frame.now.values) }
{
    match number_to_join(state, frame, target) {
        None => true,
        Some(number) => is_bad_join(state, number) || has_ended(state, number),
    }
}

/// The new thread is made, and its number is stored. After an error nothing has changed.
#[tactic(auto, using(crate::proofs::Lookups::set_in_front, crate::proofs::Lookups::get_in_front))]
fn add_thread(
    state: &mut Configuration,
    thread: u32,
    target: HandleSite,
    created: Thread,
) -> Result<Event, NoMemory>
    requires top { IsSome (top_of state.old thread) }
    requires room { HasRoom state.old }
    ensures ok { IfOk result (λ event. (event ≡ Event.Create (length state.old.threads)) × (state.new ≡ creation state.old thread target created (slice_get state.old.threads thread))) }
    ensures err { OnErr result (state.new ≡ state.old) }
{
    let number = state.threads.len() as u32;
    let index = second_index(&top_frame(state, thread).values, target.indexed);
    state.threads.push(created)?;
    let frame = state.threads.at_mut(thread as usize).frames.top_mut();
    finish_creation(frame, target, number);
    store_global(&mut state.handles, target.var, index, number);
    state.made += 1;
    Ok(Event::Create(number))
}

/// The frame's join is done.
fn finish_join(frame: &mut Frame, indexed: bool)
    ensures { frame.new ≡ with_values (popped frame.old) (past_index indexed frame.old.values) }
{
    if indexed {
        frame.values.pop();
    }
    pop_item(frame);
}

impl Machine<'_> {
    /// A thread is created, and its number is stored.
    pub(crate) fn create(
        &self,
        alloc: Global,
        state: &mut Configuration,
        thread: u32,
        target: HandleSite,
        of: FnId,
    ) -> Result<Event, NoMemory>
        requires next { IsNext state.old thread (item.Act (action.Create target of)) }
        requires room { HasRoom state.old }
        ensures ok { IfOk result (λ event. Steps (tree_code self.now) state.old thread false state.new event) }
        ensures err { OnErr result (state.new ≡ state.old) }
    {
        let creator = top_frame(state, thread);
        let index = second_index(&creator.values, target.indexed);
        if number_at(&state.handles, creator, target.var, index).is_none() {
            return Ok(trap(state, Trap::Index));
        }
        let created = created(alloc, &self.tables, state.made, of, creator)?;
        Ok(add_thread(state, thread, target, created)?)
    }

    /// A thread that has ended is joined.
    pub(crate) fn join(&self, state: &mut Configuration, thread: u32, target: HandleSite) -> Event
        requires next { IsNext state.old thread (item.Act (action.Join target)) }
        requires may { may_join_at state.old target (top_of state.old thread) ≡ true }
        ensures { Steps (tree_code self.now) state.old thread false state.new result }
    {
        let Some(number) = number_to_join(state, top_frame(state, thread), target) else {
            return trap(state, Trap::Index);
        };
        if is_bad_join(state, number) {
            return trap(state, Trap::Join);
        }
        state.threads.at_mut(number as usize).joined = true;
        let frame = state.threads.at_mut(thread as usize).frames.top_mut();
        finish_join(frame, target.indexed);
        Event::Join(number)
    }
}
