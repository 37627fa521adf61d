ghost use Rattle.std.specs.Prelude.{◌≡◌, IfOk};

use cfix_base::{List, NoMemory};
use std::alloc::Global;

pub fn copy(alloc: Global, bytes: &[u8]) -> Result<List<u8>, NoMemory>
    ensures { IfOk result (λ copy. copy ≡ bytes.now) }
{
    Ok(List::from_vec(Vec::from_slice(alloc, bytes)?))
}
