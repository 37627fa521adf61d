ghost use Rattle.std.specs.Prelude.{◌≡◌, ◌↔◌, ◌||◌, ◌≤◌, true, false, is_some, OnOk, OnErr};
ghost use Rattle.cfix_outside.specs.Faults.{Rose};
ghost use Rattle.step_state.specs.Step.{step};
ghost use Rattle.step_tables.specs.TreeCode.{tree_code};
ghost use Rattle.run_replay.specs.Steps.{IsClosed, IsClosedInPart};
ghost use Rattle.run_replay.specs.Trace.{IsStuck};

use cfix_base::Entry;
use cfix_outside::{Sink, SinkFault};
use step_machine::Machine;
use step_state::State;
use trace_text::closing_line;

fn can_go(machine: &Machine, state: &State, thread: u32) -> bool
    ensures { result ≡ is_some (step (tree_code machine.now) state.now.configuration (record { thread = thread; timeout = false })) || is_some (step (tree_code machine.now) state.now.configuration (record { thread = thread; timeout = true })) }
{
    machine.enabled(
        state,
        Entry {
            thread,
            timeout: false,
        },
    ) || machine.enabled(
        state,
        Entry {
            thread,
            timeout: true,
        },
    )
}

// Whether no entry makes a step.
fn is_stuck(machine: &Machine, state: &State) -> bool
    ensures { (result ≡ true) ↔ IsStuck (tree_code machine.now) state.now.configuration }
{
    for thread in 0..state.threads() {
        if can_go(machine, state, thread) {
            return false;
        }
    }
    true
}

/// Puts the line that says how the run stands. It takes no memory.
pub fn put_closing<O: Sink>(machine: &Machine, state: &State, out: &mut O) -> Result<(), SinkFault>
    ensures ok { OnOk result (IsClosed machine.now state.now.configuration (O.taken out.old) (O.taken out.new)) }
    ensures err { OnErr result (IsClosedInPart machine.now state.now.configuration (O.taken out.old) (O.taken out.new)) }
    ensures cause { OnErr result (Rose (O.faults out.old) (O.faults out.new)) }
    ensures later { O.faults out.old ≤ O.faults out.new }
{
    let stuck = is_stuck(machine, state);
    out.put(closing_line(state.ending(), stuck))
}
