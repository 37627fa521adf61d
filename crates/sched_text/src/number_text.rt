ghost use Rattle.std.specs.Prelude.{◌≡◌, ◌<◌, ◌^◌, ◌⊎◌, ◌↔◌, ℕ, IsTrue, MatchOption, slice_index, length};
ghost use Rattle.std.specs.Fmt.{decimal};

/// Whether a sign stands first, or a zero before another byte.
fn has_needless_front(digits: &[u8]) -> bool
    ensures { IsTrue result ↔ ((slice_index digits.now 0 ≡ 43) ⊎ ((slice_index digits.now 0 ≡ 48) × (1 < length digits.now))) }
{
    match digits {
        [first, ..] => *first == b'+' || (*first == b'0' && digits.len() > 1),
        [] => false,
    }
}

/// The number of 32 bits that a text is, in decimal digits without leading zeros. It takes no memory.
pub fn number_of(digits: &[u8]) -> Option<u32>
    ensures { MatchOption result ((number : ℕ) → number < 2 ^ 32 → digits.now ≡ decimal number → ⊥) (λ number. (number < 2 ^ 32) × (digits.now ≡ decimal number)) }
{
    if has_needless_front(digits) {
        return None;
    }
    match str::from_utf8(digits) {
        Ok(text) => text.parse::<u32>().ok(),
        Err(_) => None,
    }
}
