ghost use Rattle.std.specs.Prelude.{◌≡◌, ◌≤◌, length, OnOk, IfErr};
ghost use Rattle.step_state.specs.Counts.{max_steps};
ghost use Rattle.run_replay.specs.Replays.{Cause, IsDone};

use crate::closing::put_closing;
use crate::fault::ReplayFault;
use crate::stepping::put_step;
use cfix_base::NoMemory;
use cfix_outside::{Sink, SinkFault};
use sched_text::Schedule;
use std::alloc::Global;
use step_machine::Machine;
use step_tables::Tables;

/// Replays a schedule, and puts the trace: the line of each step before the next entry is made, and
/// then the line that says how the run stands. A replay stops at the first put that fails.
pub fn replay<O: Sink>(
    alloc: Global,
    machine: &Machine,
    input: &[i32],
    schedule: &Schedule,
    out: &mut O,
) -> Result<(), ReplayFault>
    requires { length schedule.now ≤ max_steps }
    ensures done { OnOk result (IsDone machine.now input.now schedule.now (O.taken out.old) (O.taken out.new)) }
    ensures fault { IfErr result (λ fault. Cause fault machine.now input.now schedule.now (O.taken out.old) (O.taken out.new) (O.faults out.old) (O.faults out.new)) }
    ensures later { O.faults out.old ≤ O.faults out.new }
{
    let tables = match Tables::of(alloc, machine.program()) {
        Ok(tables) => tables,
        Err(NoMemory) => return Err(ReplayFault::NoMemory),
    };
    let mut state = match machine.start(alloc, input) {
        Ok(state) => state,
        Err(NoMemory) => return Err(ReplayFault::NoMemory),
    };
    let mut line = Vec::new(alloc);
    for entry in schedule.as_slice() {
        match put_step(alloc, machine, &tables, &mut state, *entry, &mut line, out) {
            Ok(()) => {}
            Err(fault) => return Err(fault),
        }
    }
    match put_closing(machine, &state, out) {
        Ok(()) => Ok(()),
        Err(SinkFault::Failed) => Err(ReplayFault::Write),
    }
}
