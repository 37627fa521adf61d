ghost use Rattle.std.specs.Prelude.{◌≡◌};
ghost use Rattle.trace_text.specs.Closings.{closing_line};

use step_state::{Ending, Trap};

/// The last line of a trace, with its line feed: how the run ended, or, where it goes on, whether
/// it is stuck since no entry makes a step.
pub fn closing_line(ending: Ending, stuck: bool) -> &'static [u8]
    ensures { result.now ≡ closing_line ending stuck }
{
    match ending {
        Ending::Running => { if stuck { b"stuck\n" } else { b"open\n" } }
        Ending::End => b"end\n",
        Ending::Trap(Trap::Overflow) => b"trap overflow\n",
        Ending::Trap(Trap::Zero) => b"trap zero\n",
        Ending::Trap(Trap::Index) => b"trap index\n",
        Ending::Trap(Trap::Unlock) => b"trap unlock\n",
        Ending::Trap(Trap::Join) => b"trap join\n",
    }
}
