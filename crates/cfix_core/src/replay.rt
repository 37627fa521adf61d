ghost use Rattle.std.specs.Prelude.{◌≤◌, length, OnOk, IfErr};
ghost use Rattle.step_state.specs.Counts.{max_steps};
ghost use Rattle.run_replay.specs.Replays.{IsDone};
ghost use Rattle.cfix_core.specs.Stages.{contents_of, AreWithin, IsPutRun, RunStops, EntriesStop};

use crate::failure::Refusal;
use crate::run_files::run_files;
use crate::stop::{Stop, stop_of};
use crate::texts::Texts;
use c_prog::Program;
use cfix_base::NoMemory;
use cfix_outside::Sink;
use run_replay::{ReplayFault, replay};
use sched_text::Schedule;
use std::alloc::Global;
use step_machine::machine;

/// Replays a schedule of a program.
fn replay_entries<O: Sink>(
    alloc: Global,
    program: &Program,
    input: &[i32],
    schedule: &Schedule,
    out: &mut O,
) -> Result<(), Stop>
    requires { length schedule.now ≤ max_steps }
    ensures done { OnOk result (IsDone program.now input.now schedule.now (O.taken out.old) (O.taken out.new)) }
    ensures stops { IfErr result (λ stop. EntriesStop stop program.now input.now schedule.now (O.taken out.old) (O.taken out.new) (O.faults out.old) (O.faults out.new)) }
{
    let machine = match machine(alloc, program) {
        Ok(machine) => machine,
        Err(NoMemory) => return Err(Stop::NoMemory),
    };
    match replay(alloc, &machine, input, schedule, out) {
        Ok(()) => Ok(()),
        Err(ReplayFault::NoMemory) => Err(Stop::NoMemory),
        Err(ReplayFault::NotEnabled(number)) => Err(Stop::Refused(Refusal::NotEnabled(number))),
        Err(ReplayFault::Write) => Err(Stop::CannotWrite),
    }
}

/// Replays the schedule of the three files, and puts the trace.
#[tactic(auto, using(crate::proofs::Stages::texts_stop))]
pub(crate) fn replayed<O: Sink>(alloc: Global, texts: &Texts, out: &mut O) -> Result<(), Stop>
    requires { AreWithin (contents_of texts.now) }
    ensures done { OnOk result (IsPutRun (contents_of texts.now) (O.taken out.old) (O.taken out.new)) }
    ensures stops { IfErr result (λ stop. RunStops stop (contents_of texts.now) (O.taken out.old) (O.taken out.new) (O.faults out.old) (O.faults out.new)) }
{
    let files = match run_files(alloc, texts) {
        Ok(files) => files,
        Err(failure) => return Err(stop_of(failure)),
    };
    match replay_entries(
        alloc,
        files.source.program(),
        &files.values,
        &files.entries,
        out,
    ) {
        Ok(()) => Ok(()),
        Err(stop) => Err(stop),
    }
}
