ghost use Rattle.std.specs.Prelude.{◌≡◌};
ghost use Rattle.std.specs.List.{prefix_len, count_by};
ghost use Rattle.cfix_base.specs.Words.{is_name_byte};
ghost use Rattle.c_lex.specs.Bytes.{is_blank, is_line_feed, is_line_byte, is_plain, is_escape};

use cfix_base::is_name_byte;

pub fn is_blank(byte: u8) -> bool
    ensures { result ≡ is_blank byte }
{
    byte == b' ' || byte == b'\t' || byte == b'\n' || byte == b'\r'
}

/// Whether a byte stands for itself in a string.
pub fn is_plain(byte: u8) -> bool
    ensures { result ≡ is_plain byte }
{
    byte >= 128 || (byte >= 32 && byte <= 126 && byte != b'"' && byte != b'\\')
}

/// Whether a byte may stand behind a `\` in a string.
pub fn is_escape(byte: u8) -> bool
    ensures { result ≡ is_escape byte }
{
    byte == b'n' || byte == b't' || byte == b'\\' || byte == b'"'
}

/// The number of letters, digits and `_` at the front.
pub fn name_len(bytes: &[u8]) -> usize
    ensures { result ≡ prefix_len is_name_byte bytes.now }
{
    bytes.iter().take_while(|b| is_name_byte(**b)).count()
}

/// The number of bytes before the first line feed.
pub fn line_len(bytes: &[u8]) -> usize
    ensures { result ≡ prefix_len is_line_byte bytes.now }
{
    bytes.iter().take_while(|b| **b != b'\n').count()
}

pub fn line_feeds(bytes: &[u8]) -> usize
    ensures { result ≡ count_by is_line_feed bytes.now }
{
    bytes.iter().filter(|b| **b == b'\n').count()
}
