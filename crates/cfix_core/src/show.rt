ghost use Rattle.std.specs.Prelude.{◌≡◌, ◌≤◌, length, IfOk, IfErr};
ghost use Rattle.cfix_core.specs.Failures.{FailsBy};
ghost use Rattle.cfix_core.specs.Sources.{IsRefusedSource, Shown};

use crate::failure::Failure;
use crate::reading::source_of;
use c_print::print;
use std::alloc::Global;

/// The canonical text of the program that a text spells.
pub fn shown(alloc: Global, text: &[u8]) -> Result<Vec<u8>, Failure>
    requires { length text.now ≤ 4194304 }
    ensures done { IfOk result (λ shown. Shown text.now shown.items) }
    ensures refused { IfErr result (FailsBy (λ refusal. IsRefusedSource refusal text.now)) }
{
    let source = source_of(alloc, text)?;
    Ok(print(alloc, source.program())?)
}
