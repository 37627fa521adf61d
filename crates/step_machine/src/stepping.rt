ghost use Rattle.std.specs.Prelude.{◌≡◌, ◌+◌, ◌<◌, ◌&&◌, true, is_some, IfOk, IfErr, OnErr, MatchOption};
ghost use Rattle.step_state.specs.Code.{Code};
ghost use Rattle.step_state.specs.Counts.{max_steps};
ghost use Rattle.step_state.specs.Step.{step};
ghost use Rattle.step_tables.specs.TreeCode.{tree_code};
ghost use Rattle.step_machine.specs.Answers.{is_running, IsCause, IsStep, IsStuck, MayDo};
ghost use Rattle.step_machine.specs.Next.{Steps};

use crate::enabled::may_do;
use crate::fault::StepFault;
use crate::machine_of::Machine;
use crate::next::next_item;
use c_prog::Program;
use cfix_base::{Entry, MAX_STEPS, NoMemory};
use std::alloc::Global;
use std::mem;
use step_state::{Configuration, Ending, Event, Item, State};

/// Whether a run goes on.
fn is_running(ending: Ending) -> bool
    ensures { result ≡ is_running ending }
{
    match ending {
        Ending::Running => true,
        Ending::End | Ending::Trap(_) => false,
    }
}

/// The next item of the entry's thread, if it may be done.
#[tactic(auto, using(crate::proofs::Goes::stuck_over, crate::proofs::Goes::stuck_item))]
fn item_to_do(state: &Configuration, entry: Entry) -> Option<Item>
    ensures { MatchOption result ((c : Code) → IsStuck c state.now entry) (λ item. MayDo state.now entry item) }
{
    let item = next_item(state, entry.thread)?;
    if may_do(state, entry.thread, entry.timeout, item) {
        Some(item)
    } else {
        None
    }
}

impl<'a> Machine<'a> {
    /// The machine's program.
    pub fn program(&self) -> &'a Program
        ensures { result.now ≡ self.now }
    {
        self.tables.program()
    }

    /// Whether the run has not ended and the entry makes a step. It takes no memory.
    #[tactic(auto, using(crate::proofs::Goes::enabled_ended, crate::proofs::Goes::enabled_stuck, crate::proofs::Goes::enabled_may))]
    pub fn enabled(&self, state: &State, entry: Entry) -> bool
        ensures { result ≡ is_some (step (tree_code self.now) state.now.configuration entry) }
    {
        let configuration = &state.counted().configuration;
        if !is_running(configuration.ending) {
            return false;
        }
        item_to_do(configuration, entry).is_some()
    }

    /// Does the entry's item, and counts the step. After an error nothing has changed.
    fn step_on(
        &self,
        alloc: Global,
        state: &mut State,
        entry: Entry,
        next: Item,
    ) -> Result<Event, NoMemory>
        requires few { state.old.steps < max_steps }
        requires next { MayDo state.old.configuration entry next }
        ensures ok { IfOk result (λ event. Steps (tree_code self.now) state.old.configuration entry.thread entry.timeout state.new.configuration event) }
        ensures counted { IfOk result (λ event. state.new.steps ≡ state.old.steps + 1) }
        ensures err { OnErr result (state.new ≡ state.old) }
    {
        let mut counted = mem::replace(state, State::blank(alloc)).into_counted();
        let configuration = &mut counted.configuration;
        match self.make(alloc, configuration, entry.thread, entry.timeout, next) {
            Ok(event) => {
                counted.steps += 1;
                *state = State::of(counted);
                Ok(event)
            }
            Err(NoMemory) => {
                *state = State::of(counted);
                Err(NoMemory)
            }
        }
    }

    /// Makes the step that the entry makes. `Over` comes where the run has ended, else `TooMany`
    /// where 4,000,000,000 steps were made, else `NotEnabled` where the entry makes no step. After
    /// each fault the state is unchanged.
    pub fn step(&self, alloc: Global, state: &mut State, entry: Entry) -> Result<Event, StepFault>
        ensures ok { IfOk result (λ event. IsStep (tree_code self.now) state.old entry state.new event) }
        ensures fault { IfErr result (λ fault. IsCause (tree_code self.now) state.old entry fault) }
        ensures unchanged { OnErr result (state.new ≡ state.old) }
    {
        let counted = state.counted();
        if !is_running(counted.configuration.ending) {
            return Err(StepFault::Over);
        }
        if counted.steps == MAX_STEPS {
            return Err(StepFault::TooMany);
        }
        let Some(next) = item_to_do(&counted.configuration, entry) else {
            return Err(StepFault::NotEnabled);
        };
        match self.step_on(alloc, state, entry, next) {
            Ok(event) => Ok(event),
            Err(NoMemory) => Err(StepFault::NoMemory),
        }
    }
}
