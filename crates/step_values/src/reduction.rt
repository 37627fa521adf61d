ghost use Rattle.std.specs.Prelude.{◌≡◌, ◌++◌, ◌∷◌, ◌<◌, [], pos, IfOk, OnOk, OnErr, drop, length, slice_index_or, slice_set};
ghost use Rattle.step_state.specs.Changes.{with_values, with_work};
ghost use Rattle.step_state.specs.Values.{binary, cleared, is_zero, last_value, other_values, past_index, unary};
ghost use Rattle.step_state.specs.Reduce.{computed, loaded, local_cell, local_cells, normal, reduce, stored};
ghost use Rattle.step_tables.specs.TreeCode.{tree_code};
ghost use Rattle.step_values.specs.Popped.{popped, Becomes, Does};

use crate::arithmetic::{binary, is_zero, unary};
use crate::cells::{clear_cells, place_of, read_cell, set_cell};
use crate::values::{
    drop_past, index_value, last_value, push_past, second_index, second_value, set_last, set_two,
};
use cfix_base::NoMemory;
use step_state::{Binary, Frame, Item, LocalSite, Operand, Reduction, Trap, Unary};
use step_tables::Tables;

/// Takes the first item off the frame's work.
pub fn pop_item(frame: &mut Frame)
    ensures { frame.new ≡ popped frame.old }
{
    frame.work.pop();
}

/// A number becomes the last value.
fn push_value(frame: &mut Frame, value: i32) -> Result<(), NoMemory>
    ensures ok { OnOk result (frame.new ≡ with_values (popped frame.old) (value ∷ frame.old.values)) }
    ensures err { OnErr result (frame.new ≡ frame.old) }
{
    frame.values.push(value)?;
    pop_item(frame);
    Ok(())
}

/// The value of a local becomes the last value, in the place of its index where it has one.
fn load(frame: &mut Frame, site: LocalSite) -> Result<Option<Trap>, NoMemory>
    ensures ok { IfOk result (λ trap. Does (loaded (popped frame.old) (past_index site.indexed frame.old.values) (local_cell frame.old site frame.old.values)) frame.old frame.new trap) }
    ensures err { OnErr result (frame.new ≡ frame.old) }
{
    let index = index_value(&frame.values, site.indexed);
    let Some(value) = read_cell(&frame.locals, site.local, index) else {
        return Ok(Some(Trap::Index));
    };
    push_past(&mut frame.values, site.indexed, value)?;
    pop_item(frame);
    Ok(None)
}

/// The value of a local becomes the last value, behind its index.
fn load_keep(frame: &mut Frame, site: LocalSite) -> Result<Option<Trap>, NoMemory>
    ensures ok { IfOk result (λ trap. Does (loaded (popped frame.old) frame.old.values (local_cell frame.old site frame.old.values)) frame.old frame.new trap) }
    ensures err { OnErr result (frame.new ≡ frame.old) }
{
    let index = index_value(&frame.values, site.indexed);
    let Some(value) = read_cell(&frame.locals, site.local, index) else {
        return Ok(Some(Trap::Index));
    };
    frame.values.push(value)?;
    pop_item(frame);
    Ok(None)
}

/// A local gets the last value.
fn store(frame: &mut Frame, site: LocalSite) -> Option<Trap>
    ensures { Does (stored (popped frame.old) site (other_values frame.old.values) (last_value frame.old.values) (local_cell frame.old site (other_values frame.old.values))) frame.old frame.new result }
{
    let value = last_value(&frame.values);
    let index = second_index(&frame.values, site.indexed);
    if read_cell(&frame.locals, site.local, index).is_none() {
        return Some(Trap::Index);
    }
    set_cell(&mut frame.locals, site.local, place_of(index), value);
    drop_past(&mut frame.values, site.indexed);
    pop_item(frame);
    None
}

/// An operator with one operand takes the last value.
fn apply(frame: &mut Frame, op: Unary) -> Result<Option<Trap>, NoMemory>
    ensures ok { IfOk result (λ trap. Does (computed (popped frame.old) (other_values frame.old.values) (unary op (last_value frame.old.values))) frame.old frame.new trap) }
    ensures err { OnErr result (frame.new ≡ frame.old) }
{
    match unary(op, last_value(&frame.values)) {
        Err(trap) => Ok(Some(trap)),
        Ok(value) => {
            set_last(&mut frame.values, value)?;
            pop_item(frame);
            Ok(None)
        }
    }
}

/// An operator with two operands takes the last two values.
fn combine(frame: &mut Frame, op: Binary) -> Result<Option<Trap>, NoMemory>
    ensures ok { IfOk result (λ trap. Does (computed (popped frame.old) (other_values (other_values frame.old.values)) (binary op (last_value (other_values frame.old.values)) (last_value frame.old.values))) frame.old frame.new trap) }
    ensures err { OnErr result (frame.new ≡ frame.old) }
{
    let left = second_value(&frame.values);
    let right = last_value(&frame.values);
    match binary(op, left, right) {
        Err(trap) => Ok(Some(trap)),
        Ok(value) => {
            set_two(&mut frame.values, value)?;
            pop_item(frame);
            Ok(None)
        }
    }
}

/// Puts a value in the place of the last one.
fn replace(frame: &mut Frame, value: i32) -> Result<(), NoMemory>
    ensures ok { OnOk result (frame.new ≡ with_values (popped frame.old) (value ∷ other_values frame.old.values)) }
    ensures err { OnErr result (frame.new ≡ frame.old) }
{
    set_last(&mut frame.values, value)?;
    pop_item(frame);
    Ok(())
}

/// The last value is taken, and the items of a right operand stand next in the work, and then the
/// item that makes its value 0 or 1.
fn evaluate(frame: &mut Frame, operand: &[Item]) -> Result<(), NoMemory>
    requires { 0 < length frame.old.work }
    ensures ok { OnOk result (frame.new ≡ with_work (with_values frame.old (other_values frame.old.values)) (operand.now ++ Item.Reduce Reduction.Bool ∷ drop 1 frame.old.work)) }
    ensures err { OnErr result (frame.new ≡ frame.old) }
{
    frame.work.expand(operand, Item::Reduce(Reduction::Bool))?;
    frame.values.pop();
    Ok(())
}

/// The left operand of an `&&` was evaluated.
fn and_also(tables: &Tables, frame: &mut Frame, right: Operand) -> Result<(), NoMemory>
    requires { 0 < length frame.old.work }
    ensures ok { OnOk result (Becomes (reduce (tree_code tables.now) (popped frame.old) (Reduction.And right)) frame.new) }
    ensures err { OnErr result (frame.new ≡ frame.old) }
{
    if is_zero(last_value(&frame.values)) {
        replace(frame, 0)
    } else {
        evaluate(frame, tables.operand(right))
    }
}

/// The left operand of an `||` was evaluated.
fn or_else(tables: &Tables, frame: &mut Frame, right: Operand) -> Result<(), NoMemory>
    requires { 0 < length frame.old.work }
    ensures ok { OnOk result (Becomes (reduce (tree_code tables.now) (popped frame.old) (Reduction.Or right)) frame.new) }
    ensures err { OnErr result (frame.new ≡ frame.old) }
{
    if is_zero(last_value(&frame.values)) {
        evaluate(frame, tables.operand(right))
    } else {
        replace(frame, 1)
    }
}

/// The right operand of an `&&` or `||` was evaluated.
fn to_bool(frame: &mut Frame) -> Result<(), NoMemory>
    ensures ok { OnOk result (frame.new ≡ with_values (popped frame.old) (normal (is_zero (last_value frame.old.values)) ∷ other_values frame.old.values)) }
    ensures err { OnErr result (frame.new ≡ frame.old) }
{
    let value = if is_zero(last_value(&frame.values)) {
        0
    } else {
        1
    };
    replace(frame, value)
}

/// A local becomes 0, each of its cells.
fn clear(frame: &mut Frame, local: u32)
    ensures { frame.new ≡ record (popped frame.old) { locals = slice_set frame.old.locals local (cleared (pos 0) (local_cells frame.old local)); handles = slice_set frame.old.handles local (cleared 0 (slice_index_or frame.old.handles local [])) } }
{
    clear_cells(&mut frame.locals, local, 0);
    clear_cells(&mut frame.handles, local, 0);
    pop_item(frame);
}

/// Does the first item of the frame's work, which is this one. An answer with a trap leaves the
/// frame as it was, and so does an error.
pub fn reduce(
    tables: &Tables,
    frame: &mut Frame,
    reduction: Reduction,
) -> Result<Option<Trap>, NoMemory>
    requires { 0 < length frame.old.work }
    ensures ok { IfOk result (λ trap. Does (reduce (tree_code tables.now) (popped frame.old) reduction) frame.old frame.new trap) }
    ensures err { OnErr result (frame.new ≡ frame.old) }
{
    match reduction {
        Reduction::Push(value) => {
            push_value(frame, value)?;
            Ok(None)
        }
        Reduction::Local(site) => Ok(load(frame, site)?),
        Reduction::LocalKeep(site) => Ok(load_keep(frame, site)?),
        Reduction::Put(site) => Ok(store(frame, site)),
        Reduction::Un(op) => Ok(apply(frame, op)?),
        Reduction::Bin(op) => Ok(combine(frame, op)?),
        Reduction::And(right) => {
            and_also(tables, frame, right)?;
            Ok(None)
        }
        Reduction::Or(right) => {
            or_else(tables, frame, right)?;
            Ok(None)
        }
        Reduction::Bool => {
            to_bool(frame)?;
            Ok(None)
        }
        Reduction::Clear(local) => {
            clear(frame, local);
            Ok(None)
        }
    }
}
