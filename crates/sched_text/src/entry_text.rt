ghost use Rattle.std.specs.Prelude.{◌≡◌, ◌++◌, ◌∷◌, [], false, List, ℕ, MatchOption};
ghost use Rattle.sched_text.specs.Schedules.{mark, entry_line, IsEntry, IsMalformedLine};

use crate::number_text::number_of;
use cfix_base::Entry;

/// A line without its mark, and whether it has one.
fn without_mark(line: &[u8]) -> (&[u8], bool)
    ensures parts { line.now ≡ result.0.now ++ mark result.1 }
    ensures unmarked { result.1 ≡ false → (front : List ℕ) → line.now ≡ front ++ 33 ∷ [] → ⊥ }
{
    match line.split_last() {
        Some((b'!', front)) => (front, true),
        _ => (line, false),
    }
}

/// The entry that a line is of.
pub fn entry_of(line: &[u8]) -> Option<Entry>
    ensures { MatchOption result (IsMalformedLine line.now) (λ entry. IsEntry entry × (line.now ≡ entry_line entry)) }
{
    let (digits, timeout) = without_mark(line);
    match number_of(digits) {
        Some(thread) => Some(Entry { thread, timeout }),
        None => None,
    }
}
