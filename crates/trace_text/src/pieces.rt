ghost use Rattle.std.specs.Prelude.{◌≡◌, ◌++◌, map, decimal, OnOk};
ghost use Rattle.std.specs.Fmt.{signed_decimal};
ghost use Rattle.c_prog.specs.Order.{joined};
ghost use Rattle.c_print.specs.Text.Pieces.{escaped, quoted};

use cfix_base::NoMemory;
use itoa::Buffer;

/// Adds a piece to a text.
pub fn add(text: &mut Vec<u8>, piece: &[u8]) -> Result<(), NoMemory>
    ensures { OnOk result (text.new.items ≡ text.old.items ++ piece.now) }
{
    text.extend_from_slice(piece)?;
    Ok(())
}

/// Adds a number in decimal.
pub fn add_number(text: &mut Vec<u8>, number: u32) -> Result<(), NoMemory>
    ensures { OnOk result (text.new.items ≡ text.old.items ++ decimal number) }
{
    add(text, Buffer::new().format(number).as_bytes())
}

/// Adds a value in decimal, with a sign where it is negative.
pub fn add_value(text: &mut Vec<u8>, value: i32) -> Result<(), NoMemory>
    ensures { OnOk result (text.new.items ≡ text.old.items ++ signed_decimal value) }
{
    add(text, Buffer::new().format(value).as_bytes())
}

fn add_escaped(text: &mut Vec<u8>, byte: u8) -> Result<(), NoMemory>
    ensures { OnOk result (text.new.items ≡ text.old.items ++ escaped byte) }
{
    match byte {
        b'\n' => add(text, b"\\n"),
        b'\t' => add(text, b"\\t"),
        b'\\' => add(text, b"\\\\"),
        b'"' => add(text, b"\\\""),
        _ => add(text, &[byte]),
    }
}

fn add_all_escaped(text: &mut Vec<u8>, bytes: &[u8]) -> Result<(), NoMemory>
    ensures { OnOk result (text.new.items ≡ text.old.items ++ joined (map escaped bytes.now)) }
{
    for byte in bytes {
        add_escaped(text, *byte)?;
    }
    Ok(())
}

/// Adds bytes as a string literal.
pub fn add_quoted(text: &mut Vec<u8>, bytes: &[u8]) -> Result<(), NoMemory>
    ensures { OnOk result (text.new.items ≡ text.old.items ++ quoted bytes.now) }
{
    add(text, b"\"")?;
    add_all_escaped(text, bytes)?;
    add(text, b"\"")
}
