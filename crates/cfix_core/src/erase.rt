ghost use Rattle.std.specs.Prelude.{◌≡◌, ◌≤◌, length, IfOk, IfErr};
ghost use Rattle.step_state.specs.Counts.{max_steps};
ghost use Rattle.cfix_core.specs.Failures.{FailsBy};
ghost use Rattle.cfix_core.specs.Replay.{IsErasedText, RefusesRun};
ghost use Rattle.cfix_core.specs.Stages.{contents_of, AreWithin, ErasesTo, EraseFails};

use crate::failure::{Failure, Refusal};
use crate::run_files::run_files;
use crate::texts::Texts;
use c_prog::Program;
use cfix_base::{Marks, NoMemory};
use run_erase::erase;
use sched_text::{CheckFault, Schedule, schedule_text};
use std::alloc::Global;
use step_machine::machine;

/// The entries whose steps were no new operations.
fn erased(
    alloc: Global,
    program: &Program,
    marks: Marks,
    input: &[i32],
    schedule: &Schedule,
) -> Result<Schedule, Failure>
    requires { length schedule.now ≤ max_steps }
    ensures done { IfOk result (ErasesTo marks program.now input.now schedule.now) }
    ensures refused { IfErr result (FailsBy (λ refusal. EraseFails refusal program.now input.now schedule.now)) }
{
    let machine = match machine(alloc, program) {
        Ok(machine) => machine,
        Err(NoMemory) => return Err(Failure::NoMemory),
    };
    match erase(alloc, &machine, marks, input, schedule) {
        Ok(kept) => Ok(kept),
        Err(CheckFault::NoMemory) => Err(Failure::NoMemory),
        Err(CheckFault::NotEnabled(number)) => Err(Failure::Refused(Refusal::NotEnabled(number))),
    }
}

/// The text of the schedule of the three files without the entries of new operations.
pub(crate) fn erased_text(alloc: Global, texts: &Texts, marks: Marks) -> Result<Vec<u8>, Failure>
    requires { AreWithin (contents_of texts.now) }
    ensures done { IfOk result (λ text. IsErasedText marks (contents_of texts.now) text.items) }
    ensures refused { IfErr result (FailsBy (λ refusal. RefusesRun refusal (contents_of texts.now))) }
{
    let files = run_files(alloc, texts)?;
    let kept = erased(
        alloc,
        files.source.program(),
        marks,
        &files.values,
        &files.entries,
    )?;
    Ok(schedule_text(alloc, &kept)?)
}
