ghost use Rattle.std.specs.Prelude.{◌≡◌, ◌<◌, ◌≤◌, length, OnOk, IfOk, IfErr};
ghost use Rattle.step_state.specs.Counts.{max_steps};
ghost use Rattle.step_machine.specs.Answers.{IsStep};
ghost use Rattle.step_tables.specs.TreeCode.{tree_code};
ghost use Rattle.run_erase.specs.Erases.{Cause, IsErased};
ghost use Rattle.run_erase.specs.Steps.{IsKept, NoStep};

use crate::inserted::is_inserted;
use cfix_base::{Entry, Marks, NoMemory};
use sched_text::{CheckFault, Schedule};
use std::alloc::Global;
use step_machine::{Machine, StepFault};
use step_state::{Event, State};

#[tactic(auto, using(crate::proofs::Ends::ended_none))]
fn make_step(
    alloc: Global,
    machine: &Machine,
    state: &mut State,
    entry: Entry,
) -> Result<Event, CheckFault>
    requires { state.old.steps < max_steps }
    ensures ok { IfOk result (λ event. IsStep (tree_code machine.now) state.old entry state.new event) }
    ensures err { IfErr result (λ fault. NoStep fault (tree_code machine.now) state.old entry) }
{
    match machine.step(alloc, state, entry) {
        Ok(event) => Ok(event),
        Err(StepFault::NoMemory) => Err(CheckFault::NoMemory),
        Err(_) => Err(CheckFault::NotEnabled(state.steps() + 1)),
    }
}

/// Makes the step of an entry, and keeps the entry, unless its step was a new operation.
fn keep_entry(
    alloc: Global,
    machine: &Machine,
    marks: Marks,
    state: &mut State,
    entry: Entry,
    kept: &mut Schedule,
) -> Result<(), CheckFault>
    requires { state.old.steps < max_steps }
    ensures ok { OnOk result (IsKept marks (tree_code machine.now) state.old entry state.new kept.old kept.new) }
    ensures err { IfErr result (λ fault. NoStep fault (tree_code machine.now) state.old entry) }
{
    let event = match make_step(alloc, machine, state, entry) {
        Ok(event) => event,
        Err(fault) => return Err(fault),
    };
    if is_inserted(marks, &event) {
        return Ok(());
    }
    match kept.push(entry) {
        Ok(()) => Ok(()),
        Err(NoMemory) => Err(CheckFault::NoMemory),
    }
}

/// The schedule without the entries whose steps were new operations: those whose lock, or whose
/// order, has a number from the marks on. The new program has these operations behind those of a
/// source with these marks, so the answer is a schedule of that source.
pub fn erase(
    alloc: Global,
    machine: &Machine,
    marks: Marks,
    input: &[i32],
    schedule: &Schedule,
) -> Result<Schedule, CheckFault>
    requires { length schedule.now ≤ max_steps }
    ensures erased { IfOk result (IsErased marks machine.now input.now schedule.now) }
    ensures refused { IfErr result (λ fault. Cause fault machine.now input.now schedule.now) }
    ensures shorter { IfOk result (λ kept. length kept ≤ length schedule.now) }
{
    let mut state = match machine.start(alloc, input) {
        Ok(state) => state,
        Err(NoMemory) => return Err(CheckFault::NoMemory),
    };
    let mut kept = Schedule::new(alloc);
    for entry in schedule.as_slice() {
        match keep_entry(alloc, machine, marks, &mut state, *entry, &mut kept) {
            Ok(()) => {}
            Err(fault) => return Err(fault),
        }
    }
    Ok(kept)
}
