ghost use Rattle.cfix_outside.specs.Plan.{named};
ghost use Rattle.std.specs.Prelude.{◌≡◌};
ghost use Rattle.std.specs.Option.{option_copied};

use cfix_base::List;

/// The calls that are to fail: the number of a call, from 0, and for a sink how many bytes it takes
/// before. The first entry of a call counts.
#[derive(Drop)]
pub struct FailPlan {
    pub calls: List<(u32, u32)>,
}

impl FailPlan {
    /// The number beside the first entry of a call. It takes no memory.
    pub fn named(&self, call: u64) -> Option<u32>
        ensures { result ≡ named self.now.calls call }
    {
        for entry in self.calls.as_slice() {
            if u64::from(entry.0) == call {
                return Some(entry.1);
            }
        }
        None
    }
}
