ghost use Rattle.std.specs.Prelude.{MatchOption};
ghost use Rattle.sched_text.specs.Inputs.{IsNumber, IsMalformedWord};

/// The value that a word writes.
pub fn value_of(word: &[u8]) -> Option<i32>
    ensures { MatchOption result (IsMalformedWord word.now) (λ value. IsNumber word.now value) }
{
    match str::from_utf8(word) {
        Ok(text) => text.parse::<i32>().ok(),
        Err(_) => None,
    }
}
