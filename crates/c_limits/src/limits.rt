ghost use Rattle.std.specs.Prelude.{◌≡◌};
ghost use Rattle.c_names.specs.Faults.{noted_all};
ghost use Rattle.c_names.specs.Limits.{excess_faults, cells_faults};

use c_names::{Fault, FaultKind};
use c_scope::note_if;
use cfix_base::Spot;

/// Notes each of these that stands behind the first `limit`.
#[tactic(auto, using(c_scope::proofs::Faults::faults))]
pub fn note_excess(least: &mut Option<Fault>, limit: u32, spots: &[Spot])
    ensures { least.new ≡ noted_all least.old (excess_faults limit spots.now) }
{
    let mut left = limit;
    for spot in spots {
        note_if(least, left == 0, *spot, FaultKind::Limit);
        left = left.saturating_sub(1);
    }
}

/// Notes each variable that has more cells than those before it leave of `limit`.
#[tactic(auto, using(c_scope::proofs::Faults::faults))]
pub fn note_cells(least: &mut Option<Fault>, limit: u32, cells: &[(Spot, u32)])
    ensures { least.new ≡ noted_all least.old (cells_faults limit cells.now) }
{
    let mut left = limit;
    for next in cells {
        note_if(least, left < next.1, next.0, FaultKind::Limit);
        left = left.saturating_sub(next.1);
    }
}
