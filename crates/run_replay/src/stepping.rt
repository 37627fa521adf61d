ghost use Rattle.std.specs.Prelude.{◌≡◌, ◌<◌, ◌≤◌, OnOk, IfOk, IfErr};
ghost use Rattle.step_state.specs.Counts.{max_steps};
ghost use Rattle.step_machine.specs.Answers.{IsStep};
ghost use Rattle.step_tables.specs.TreeCode.{tree_code};
ghost use Rattle.run_replay.specs.Steps.{IsPut, NoLine, NoStep};

use crate::fault::ReplayFault;
use cfix_base::{Entry, NoMemory};
use cfix_outside::{Sink, SinkFault};
use std::alloc::Global;
use step_machine::{Machine, StepFault};
use step_state::{Event, State};
use step_tables::Tables;
use trace_text::event_line_into;

#[tactic(auto, using(crate::proofs::Ends::ended_none))]
fn make_step(
    alloc: Global,
    machine: &Machine,
    state: &mut State,
    entry: Entry,
) -> Result<Event, ReplayFault>
    requires { state.old.steps < max_steps }
    ensures ok { IfOk result (λ event. IsStep (tree_code machine.now) state.old entry state.new event) }
    ensures err { IfErr result (λ fault. NoStep fault (tree_code machine.now) state.old entry) }
{
    match machine.step(alloc, state, entry) {
        Ok(event) => Ok(event),
        Err(StepFault::NoMemory) => Err(ReplayFault::NoMemory),
        Err(_) => Err(ReplayFault::NotEnabled(state.steps() + 1)),
    }
}

/// Makes the step of an entry, and puts its line, for which `line` is the room.
pub fn put_step<O: Sink>(
    alloc: Global,
    machine: &Machine,
    tables: &Tables,
    state: &mut State,
    entry: Entry,
    line: &mut Vec<u8>,
    out: &mut O,
) -> Result<(), ReplayFault>
    requires few { state.old.steps < max_steps }
    requires same { tables.now ≡ machine.now }
    ensures ok { OnOk result (IsPut machine.now state.old entry state.new (O.taken out.old) (O.taken out.new)) }
    ensures err { IfErr result (λ fault. NoLine fault machine.now state.old entry (O.taken out.old) (O.taken out.new) (O.faults out.old) (O.faults out.new)) }
    ensures later { O.faults out.old ≤ O.faults out.new }
{
    let event = match make_step(alloc, machine, state, entry) {
        Ok(event) => event,
        Err(fault) => return Err(fault),
    };
    match event_line_into(tables, state.steps(), entry.thread, &event, line) {
        Ok(()) => {}
        Err(NoMemory) => return Err(ReplayFault::NoMemory),
    }
    match out.put(line.as_slice()) {
        Ok(()) => Ok(()),
        Err(SinkFault::Failed) => Err(ReplayFault::Write),
    }
}
