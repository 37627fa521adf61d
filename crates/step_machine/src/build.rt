ghost use Rattle.std.specs.Prelude.{◌≡◌, IfOk};

use crate::machine_of::Machine;
use c_prog::Program;
use cfix_base::NoMemory;
use std::alloc::Global;
use step_tables::Tables;

/// The machine of a program.
pub fn machine<'a>(alloc: Global, program: &'a Program) -> Result<Machine<'a>, NoMemory>
    ensures { IfOk result (λ machine. machine ≡ program.now) }
{
    let tables = Tables::of(alloc, program)?;
    Ok(Machine { tables })
}
