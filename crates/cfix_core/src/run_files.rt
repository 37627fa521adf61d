ghost use Rattle.std.specs.Prelude.{◌≡◌, ◌≤◌, length, IfOk, IfErr};
ghost use Rattle.sched_text.specs.Inputs.{SpellsInput};
ghost use Rattle.sched_text.specs.Schedules.{SpellsSchedule};
ghost use Rattle.cfix_core.specs.Failures.{FailsBy};
ghost use Rattle.cfix_core.specs.Replay.{IsBadInput, IsBadSchedule, RefusesTexts, input_failure, sched_failure};
ghost use Rattle.cfix_core.specs.Stages.{contents_of, AreRead, AreWithin};

use crate::failure::{Failure, Refusal};
use crate::reading::source_of;
use crate::texts::Texts;
use c_source::Source;
use sched_text::{InputFault, SchedFault, Schedule, input, schedule};
use std::alloc::Global;

/// What the three files of a run are read as.
#[derive(Drop)]
pub(crate) struct RunFiles {
    pub source: Source,
    pub values: Vec<i32>,
    pub entries: Schedule,
}

fn input_failure(fault: InputFault) -> Failure
    ensures { result ≡ input_failure fault }
{
    match fault {
        InputFault::NoMemory => Failure::NoMemory,
        InputFault::BadNumber(start) => Failure::Refused(Refusal::BadNumber(start)),
    }
}

/// The values of an input.
fn input_of(alloc: Global, text: &[u8]) -> Result<Vec<i32>, Failure>
    requires { length text.now ≤ 1048576 }
    ensures read { IfOk result (λ values. SpellsInput text.now values.items) }
    ensures refused { IfErr result (FailsBy (λ refusal. IsBadInput refusal text.now)) }
{
    match input(alloc, text) {
        Ok(values) => Ok(values),
        Err(fault) => Err(input_failure(fault)),
    }
}

fn sched_failure(fault: SchedFault) -> Failure
    ensures { result ≡ sched_failure fault }
{
    match fault {
        SchedFault::NoMemory => Failure::NoMemory,
        SchedFault::BadLine(number) => Failure::Refused(Refusal::BadEntry(number)),
        SchedFault::TooMany => Failure::Refused(Refusal::TooManyEntries),
    }
}

/// The entries of a schedule.
fn schedule_of(alloc: Global, text: &[u8]) -> Result<Schedule, Failure>
    ensures read { IfOk result (λ entries. SpellsSchedule text.now entries) }
    ensures refused { IfErr result (FailsBy (λ refusal. IsBadSchedule refusal text.now)) }
{
    match schedule(alloc, text) {
        Ok(entries) => Ok(entries),
        Err(fault) => Err(sched_failure(fault)),
    }
}

/// The program, the input and the schedule of a run.
pub(crate) fn run_files(alloc: Global, texts: &Texts) -> Result<RunFiles, Failure>
    requires { AreWithin (contents_of texts.now) }
    ensures read { IfOk result (AreRead (contents_of texts.now)) }
    ensures refused { IfErr result (FailsBy (λ refusal. RefusesTexts refusal (contents_of texts.now))) }
{
    let source = source_of(alloc, &texts.program)?;
    let values = input_of(alloc, &texts.input)?;
    let entries = schedule_of(alloc, &texts.schedule)?;
    Ok(RunFiles {
        source,
        values,
        entries,
    })
}
