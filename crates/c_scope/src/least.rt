ghost use Rattle.std.specs.Prelude.{◌≡◌};
ghost use Rattle.c_names.specs.Faults.{rank, comes_before, noted, noted_all, fault_if};

use c_names::{Fault, FaultKind};
use cfix_base::Spot;

fn rank(kind: FaultKind) -> u8
    ensures { result ≡ rank kind }
{
    match kind {
        FaultKind::Unknown => 0,
        FaultKind::Twice => 1,
        FaultKind::Arity => 2,
        FaultKind::WrongUse => 3,
        FaultKind::NoReturn => 4,
        FaultKind::RootCalled => 5,
        FaultKind::Reserved => 6,
        FaultKind::Limit => 7,
    }
}

fn comes_before(a: Fault, b: Fault) -> bool
    ensures { result ≡ comes_before a b }
{
    a.spot.at < b.spot.at || (a.spot.at == b.spot.at && rank(a.kind) < rank(b.kind))
}

/// Keeps the fault if it comes before the least so far.
#[tactic(auto, unfolding(c_names::specs::Faults::noted))]
pub fn note(least: &mut Option<Fault>, fault: Fault)
    ensures { least.new ≡ noted least.old fault }
{
    match *least {
        None => *least = Some(fault),
        Some(kept) => {
            if comes_before(fault, kept) {
                *least = Some(fault);
            }
        }
    }
}

/// Notes a fault where the test holds.
pub fn note_if(least: &mut Option<Fault>, test: bool, spot: Spot, kind: FaultKind)
    ensures { least.new ≡ noted_all least.old (fault_if test spot kind) }
{
    if test {
        note(least, Fault { kind, spot });
    }
}
