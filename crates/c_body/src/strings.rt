ghost use Rattle.std.specs.Prelude.{◌≡◌, ◌≤◌, length};
ghost use Rattle.c_names.specs.Strings.{numbers_in, has_other, is_scan_text};

const PERCENT: u8 = b'%';

/// How many `%d` a string has, where pairs are read from the left.
pub fn numbers_in(text: &[u8]) -> usize
    ensures { result ≡ numbers_in text.now }
{
    let mut count = 0;
    let mut in_pair = false;
    for byte in text {
        if in_pair {
            if *byte == b'd' {
                count += 1;
            }
            in_pair = false;
        } else {
            in_pair = *byte == PERCENT;
        }
    }
    count
}

/// Whether a `%` stands neither in `%d` nor in `%%`.
pub fn has_other(text: &[u8]) -> bool
    ensures { result ≡ has_other text.now }
{
    let mut has_other = false;
    let mut in_pair = false;
    for byte in text {
        if in_pair {
            has_other = has_other || !(*byte == b'd' || *byte == PERCENT);
            in_pair = false;
        } else {
            in_pair = *byte == PERCENT;
        }
    }
    has_other || in_pair
}

/// The only string of scanf.
pub fn is_scan_text(text: &[u8]) -> bool
    ensures { result ≡ is_scan_text text.now }
{
    text == b"%d".as_slice()
}
