ghost use Rattle.std.specs.Prelude.{◌≡◌, ◌≤◌, length, IfOk, IfErr};
ghost use Rattle.c_read.specs.Reading.{Reads};
ghost use Rattle.cfix_core.specs.Failures.{FailsBy};
ghost use Rattle.cfix_core.specs.Sources.{IsRefusedSource, IsFirstSource, IsNoFirstSource, failure_of_fault};

use crate::failure::{Failure, Refusal};
use c_read::{ReadFault, read_source};
use c_source::Source;
use first_form::is_first_form;
use std::alloc::Global;

fn failure_of_fault(fault: ReadFault) -> Failure
    ensures { result ≡ failure_of_fault fault }
{
    match fault {
        ReadFault::NoMemory => Failure::NoMemory,
        ReadFault::Flawed(flaw) => Failure::Refused(Refusal::Source(flaw)),
    }
}

/// The program that a text spells, with its lines.
pub fn source_of(alloc: Global, text: &[u8]) -> Result<Source, Failure>
    requires { length text.now ≤ 4194304 }
    ensures read { IfOk result (Reads text.now) }
    ensures refused { IfErr result (FailsBy (λ refusal. IsRefusedSource refusal text.now)) }
{
    match read_source(alloc, text) {
        Ok(source) => Ok(source),
        Err(fault) => Err(failure_of_fault(fault)),
    }
}

/// The program of the first form that a text spells, with its lines.
pub fn first_source_of(alloc: Global, text: &[u8]) -> Result<Source, Failure>
    requires { length text.now ≤ 4194304 }
    ensures read { IfOk result (IsFirstSource text.now) }
    ensures refused { IfErr result (FailsBy (λ refusal. IsNoFirstSource refusal text.now)) }
{
    let source = source_of(alloc, text)?;
    if is_first_form(source.program()) {
        Ok(source)
    } else {
        Err(Failure::Refused(Refusal::Form))
    }
}
