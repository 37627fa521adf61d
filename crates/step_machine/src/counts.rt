ghost use Rattle.std.specs.Prelude.{◌≡◌, ◌+◌, ◌^◌, ◌<◌, slice_index, slice_set};

use step_state::Table;

/// The count with this number; 0 where none is kept.
#[tactic(auto, using(crate::proofs::Lookups::past_is))]
pub fn count_of(counts: &Table<u32>, number: u32) -> u32
    ensures { result ≡ slice_index counts.now number }
{
    match counts.get(number as usize) {
        None => 0,
        Some(count) => *count,
    }
}

/// Raises the count with this number by one, if it is kept.
pub fn raise(counts: &mut Table<u32>, number: u32)
    requires { slice_index counts.old number + 1 < 2 ^ 32 }
    ensures { counts.new ≡ slice_set counts.old number (slice_index counts.old number + 1) }
{
    let count = count_of(counts, number);
    counts.set(number as usize, count + 1);
}
