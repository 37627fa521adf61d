ghost use Rattle.std.specs.Prelude.{◌≡◌, ◌∷◌, OnOk, OnErr};
ghost use Rattle.step_state.specs.Values.{index_value, last_value, other_values, past_index};

use cfix_base::NoMemory;
use step_state::Stack;

/// The last value; 0 where there is none.
pub fn last_value(values: &Stack<i32>) -> i32
    ensures { result ≡ last_value values.now }
{
    match values.top() {
        None => 0,
        Some(value) => *value,
    }
}

/// The value before the last one; 0 where there is none.
pub fn second_value(values: &Stack<i32>) -> i32
    ensures { result ≡ last_value (other_values values.now) }
{
    match values.from_top(1) {
        None => 0,
        Some(value) => *value,
    }
}

/// The index that an item takes, where it is the last value; 0 for a scalar.
pub fn index_value(values: &Stack<i32>, indexed: bool) -> i32
    ensures { result ≡ index_value indexed values.now }
{
    if indexed { last_value(values) } else { 0 }
}

/// The index that an item takes, where it is the value before the last one; 0 for a scalar.
pub fn second_index(values: &Stack<i32>, indexed: bool) -> i32
    ensures { result ≡ index_value indexed (other_values values.now) }
{
    if indexed { second_value(values) } else { 0 }
}

/// Puts a value in the place of the last one. After an error nothing has changed.
pub fn set_last(values: &mut Stack<i32>, value: i32) -> Result<(), NoMemory>
    ensures ok { OnOk result (values.new ≡ value ∷ other_values values.old) }
    ensures err { OnErr result (values.new ≡ values.old) }
{
    if values.len() == 0 {
        return values.push(value);
    }
    *values.top_mut() = value;
    Ok(())
}

/// Puts a value in the place of the last two. After an error nothing has changed.
pub fn set_two(values: &mut Stack<i32>, value: i32) -> Result<(), NoMemory>
    ensures ok { OnOk result (values.new ≡ value ∷ other_values (other_values values.old)) }
    ensures err { OnErr result (values.new ≡ values.old) }
{
    if values.len() < 2 {
        return set_last(values, value);
    }
    values.pop();
    *values.top_mut() = value;
    Ok(())
}

/// Adds a value, in the place of the index where there is one. After an error nothing has changed.
pub fn push_past(values: &mut Stack<i32>, indexed: bool, value: i32) -> Result<(), NoMemory>
    ensures ok { OnOk result (values.new ≡ value ∷ past_index indexed values.old) }
    ensures err { OnErr result (values.new ≡ values.old) }
{
    if indexed {
        set_last(values, value)
    } else {
        values.push(value)
    }
}

/// Takes the last value, and then the index where there is one.
pub fn drop_past(values: &mut Stack<i32>, indexed: bool)
    ensures { values.new ≡ past_index indexed (other_values values.old) }
{
    values.pop();
    if indexed {
        values.pop();
    }
}
