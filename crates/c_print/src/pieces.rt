ghost use Rattle.std.specs.Prelude.{◌≡◌, ◌++◌, ◌∷◌, [], map, codes, decimal, OnOk, IfOk};
ghost use Rattle.std.specs.Fmt.{signed_decimal};
ghost use Rattle.c_prog.specs.Order.{joined};
ghost use Rattle.c_print.specs.Text.Names.{name_at};
ghost use Rattle.c_print.specs.Text.Pieces.{in_brackets, in_parentheses, escaped, quoted};
ghost use Rattle.c_print.specs.Written.{inside};

use cfix_base::{List, NoMemory};
use itoa::Buffer;
use std::alloc::Global;

/// Adds a piece to a text.
pub fn add(text: &mut Vec<u8>, piece: &[u8]) -> Result<(), NoMemory>
    ensures { OnOk result (text.new.items ≡ text.old.items ++ piece.now) }
{
    text.extend_from_slice(piece)?;
    Ok(())
}

/// Adds a number in decimal.
pub fn add_number(text: &mut Vec<u8>, number: u32) -> Result<(), NoMemory>
    ensures { OnOk result (text.new.items ≡ text.old.items ++ decimal number) }
{
    add(text, Buffer::new().format(number).as_bytes())
}

/// Adds a number in decimal, with a sign where it is negative.
pub fn add_signed(text: &mut Vec<u8>, number: i32) -> Result<(), NoMemory>
    ensures { OnOk result (text.new.items ≡ text.old.items ++ signed_decimal number) }
{
    add(text, Buffer::new().format(number).as_bytes())
}

/// Adds a number in parentheses.
pub fn add_argument(text: &mut Vec<u8>, number: u32) -> Result<(), NoMemory>
    ensures { OnOk result (text.new.items ≡ text.old.items ++ in_parentheses (decimal number)) }
{
    add(text, b"(")?;
    add_number(text, number)?;
    add(text, b")")
}

/// Adds the length of an array.
pub fn add_length(text: &mut Vec<u8>, number: u32) -> Result<(), NoMemory>
    ensures { OnOk result (text.new.items ≡ text.old.items ++ in_brackets (decimal number)) }
{
    add(text, b"[")?;
    add_number(text, number)?;
    add(text, b"]")
}

/// Adds the name with this number.
pub fn add_name(text: &mut Vec<u8>, names: &[List<u8>], number: u32) -> Result<(), NoMemory>
    ensures { OnOk result (text.new.items ≡ text.old.items ++ name_at names.now number) }
{
    match names.get(number as usize) {
        Some(name) => add(text, name.as_slice()),
        None => Ok(()),
    }
}

fn add_escaped(text: &mut Vec<u8>, byte: u8) -> Result<(), NoMemory>
    ensures { OnOk result (text.new.items ≡ text.old.items ++ escaped byte) }
{
    match byte {
        b'\n' => add(text, b"\\n"),
        b'\t' => add(text, b"\\t"),
        b'\\' => add(text, b"\\\\"),
        b'"' => add(text, b"\\\""),
        _ => add(text, &[byte]),
    }
}

fn add_all_escaped(text: &mut Vec<u8>, bytes: &[u8]) -> Result<(), NoMemory>
    ensures { OnOk result (text.new.items ≡ text.old.items ++ joined (map escaped bytes.now)) }
{
    for byte in bytes {
        add_escaped(text, *byte)?;
    }
    Ok(())
}

/// Adds a string literal.
pub fn add_quoted(text: &mut Vec<u8>, bytes: &[u8]) -> Result<(), NoMemory>
    ensures { OnOk result (text.new.items ≡ text.old.items ++ quoted bytes.now) }
{
    add(text, b"\"")?;
    add_all_escaped(text, bytes)?;
    add(text, b"\"")
}

/// The indentation of one nesting more.
pub fn deeper(alloc: Global, indent: &[u8]) -> Result<Vec<u8>, NoMemory>
    ensures { IfOk result (λ more. more.items ≡ inside indent.now) }
{
    let mut more = Vec::from_slice(alloc, indent)?;
    add(&mut more, b"    ")?;
    Ok(more)
}
