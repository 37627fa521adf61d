ghost use Rattle.std.specs.Prelude.{◌≡◌, map, option_map, IfOk};
ghost use Rattle.serde_json.specs.View.{view};
ghost use Rattle.report_json.specs.Members as members;

use cfix_base::{Access, List, NoMemory};
use serde_json::Value;
use std::alloc::Global;

/// A whole number from `low` on that fits 32 bits.
fn whole_from(low: u64, value: &Value) -> Option<u32>
    ensures { result ≡ members.whole_from low (view value.now) }
{
    match value.as_u64() {
        Some(number) if low <= number && number < 1 << 32 => Some(number as u32),
        _ => None,
    }
}

/// The line that an object names.
pub fn line_of(object: &Value) -> Option<u32>
    ensures { result ≡ members.line_of (view object.now) }
{
    match object.get("line") {
        Some(value) => whole_from(1, value),
        None => None,
    }
}

/// Which of its kind on the line.
pub fn nth_of(object: &Value) -> Option<u32>
    ensures { result ≡ members.nth_of (view object.now) }
{
    match object.get("nth") {
        Some(value) => whole_from(0, value),
        None => Some(0),
    }
}

/// The string that is the member of this name.
pub fn text_of<'v>(name: &str, object: &'v Value) -> Option<&'v str>
    ensures { option_map (λ text. text.now) result ≡ members.text_of name.now (view object.now) }
{
    match object.get(name) {
        Some(value) => value.as_str(),
        None => None,
    }
}

/// The kind of access that an object names.
pub fn access_of(object: &Value) -> Option<Access>
    ensures { result ≡ members.access_of (view object.now) }
{
    match text_of("access", object) {
        Some("read") => Some(Access::Read),
        Some("write") => Some(Access::Write),
        _ => None,
    }
}

/// The values of an array.
pub fn elements_of<'v>(value: &'v Value) -> Option<&'v [Value]>
    ensures { option_map (λ values. map view values.now) result ≡ members.elements_of (view value.now) }
{
    match value.as_array() {
        Some(values) => Some(values.as_slice()),
        None => None,
    }
}

/// A text of its own.
pub fn copied(alloc: Global, text: &str) -> Result<List<u8>, NoMemory>
    ensures { IfOk result (λ copy. copy ≡ text.now) }
{
    let bytes = Vec::from_slice(alloc, text.as_bytes())?;
    Ok(List::from_vec(bytes))
}
