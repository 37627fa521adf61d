ghost use Rattle.std.specs.Prelude.{◌≡◌};
ghost use Rattle.std.specs.List.{list_any};
ghost use Rattle.std.specs.Str.{bytes_eq};

/// Whether the text is one of those of a table.
pub fn is_among(texts: &[&[u8]], text: &[u8]) -> bool
    ensures { result ≡ list_any (λ other. bytes_eq text.now other.now) texts.now }
{
    texts.iter().any(|other| text == *other)
}
