ghost use Rattle.std.specs.Prelude.{◌≡◌, ◌+◌, ◌++◌, ◌∷◌, ◌<◌, ◌^◌, [], length, OnOk};
ghost use Rattle.c_prog.specs.Accesses.{act_accesses, args_accesses, index_accesses, initial_accesses, kept_accesses, touched, value_accesses};
ghost use Rattle.step_state.specs.Items.{act_part, assign_part, assigned, call_part, compound, declare_part, handle_site, unit, value_part};
ghost use Rattle.step_state.specs.Parts.{both, has_index, target_index, write_var};
ghost use Rattle.step_state.specs.declared.item.Item.TheVariants as item;
ghost use Rattle.step_state.specs.declared.item.Action.TheVariants as action;
ghost use Rattle.step_tables.specs.Adds.{Adds};
ghost use Rattle.step_tables.specs.Uses.{operator_of, print_part, scan_part};

use crate::expressions::{add_args, add_expr, add_index};
use crate::sheet::{Sheet, add_use};
use crate::uses::Use;
use c_prog::{Act, CallForm, Expr, How, Target, Value, Var};
use cfix_base::{Access, List, NoMemory, VarId};
use std::alloc::Global;
use step_state::{Action, Binary, HandleSite, Item, Reduction};

fn add_call(
    alloc: Global,
    items: &mut List<Item>,
    sheet: &mut Sheet,
    call: &CallForm,
) -> Result<(), NoMemory>
    requires { length sheet.old.variables + length (args_accesses call.now.args) < 2 ^ 32 }
    ensures { OnOk result (Adds (call_part call.now) (args_accesses call.now.args) items.old sheet.old items.new sheet.new) }
{
    add_args(alloc, items, sheet, call.args.as_slice())?;
    items.push(Item::Act(Action::Call(call.of)))?;
    Ok(())
}

/// Adds the items of what is assigned, returned or begun with.
pub fn add_value(
    alloc: Global,
    items: &mut List<Item>,
    sheet: &mut Sheet,
    value: &Value,
) -> Result<(), NoMemory>
    requires { length sheet.old.variables + length (value_accesses value.now) < 2 ^ 32 }
    ensures { OnOk result (Adds (value_part value.now) (value_accesses value.now) items.old sheet.old items.new sheet.new) }
{
    match value {
        Value::Expr(expr) => add_expr(alloc, items, sheet, expr),
        Value::Call(call) => add_call(alloc, items, sheet, call),
    }
}

// Adds the items of a declaration of the local with this number.
fn add_declared(
    alloc: Global,
    items: &mut List<Item>,
    sheet: &mut Sheet,
    local: u32,
    value: &Option<Value>,
) -> Result<(), NoMemory>
    requires { length sheet.old.variables + length (initial_accesses value.now) < 2 ^ 32 }
    ensures { OnOk result (Adds (declare_part local value.now) (initial_accesses value.now) items.old sheet.old items.new sheet.new) }
{
    match value {
        None => items.push(Item::Reduce(Reduction::Clear(local)))?,
        Some(value) => {
            add_value(alloc, items, sheet, value)?;
            add_use(items, sheet, Use::Write, Var::Local(local), false)?;
        }
    }
    Ok(())
}

fn how_operator(how: How) -> Option<Binary>
    ensures { result ≡ operator_of how }
{
    match how {
        How::Set => None,
        How::Add => Some(Binary::Add),
        How::Sub => Some(Binary::Sub),
        How::Mul => Some(Binary::Mul),
        How::Div => Some(Binary::Div),
        How::Rem => Some(Binary::Rem),
    }
}

// Adds the items of what an assignment writes.
fn add_assigned(
    alloc: Global,
    items: &mut List<Item>,
    sheet: &mut Sheet,
    target: &Target,
    how: How,
    value: &Value,
) -> Result<(), NoMemory>
    requires { length sheet.old.variables + length (kept_accesses how target.now.var ++ value_accesses value.now) < 2 ^ 32 }
    ensures { OnOk result (Adds (assigned how target.now (value_part value.now)) (kept_accesses how target.now.var ++ value_accesses value.now) items.old sheet.old items.new sheet.new) }
{
    match how_operator(how) {
        None => add_value(alloc, items, sheet, value)?,
        Some(operator) => {
            let indexed = target.index.is_some();
            add_use(items, sheet, Use::Keep, target.var, indexed)?;
            add_value(alloc, items, sheet, value)?;
            items.push(Item::Reduce(Reduction::Bin(operator)))?;
        }
    }
    Ok(())
}

// Adds the items of an assignment.
fn add_assignment(
    alloc: Global,
    items: &mut List<Item>,
    sheet: &mut Sheet,
    target: &Target,
    how: How,
    value: &Value,
) -> Result<(), NoMemory>
    requires { length sheet.old.variables + length (index_accesses target.now.index ++ (kept_accesses how target.now.var ++ value_accesses value.now) ++ touched Access.Write target.now.var) < 2 ^ 32 }
    ensures { OnOk result (Adds (assign_part target.now how (value_part value.now)) (index_accesses target.now.index ++ (kept_accesses how target.now.var ++ value_accesses value.now) ++ touched Access.Write target.now.var) items.old sheet.old items.new sheet.new) }
{
    add_index(alloc, items, sheet, &target.index)?;
    add_assigned(alloc, items, sheet, target, how, value)?;
    let indexed = target.index.is_some();
    add_use(items, sheet, Use::Write, target.var, indexed)
}

// Adds the items by which 1 is added to a target, or subtracted from it, behind the index.
fn add_unit(
    items: &mut List<Item>,
    sheet: &mut Sheet,
    target: &Target,
    operator: Binary,
) -> Result<(), NoMemory>
    requires { length sheet.old.variables + length (touched Access.Read target.now.var) < 2 ^ 32 }
    ensures { OnOk result (Adds (compound operator target.now unit) (touched Access.Read target.now.var) items.old sheet.old items.new sheet.new) }
{
    let indexed = target.index.is_some();
    add_use(items, sheet, Use::Keep, target.var, indexed)?;
    items.push(Item::Reduce(Reduction::Push(1)))?;
    items.push(Item::Reduce(Reduction::Bin(operator)))?;
    Ok(())
}

// Adds the items of `++` or `--`.
fn add_step(
    alloc: Global,
    items: &mut List<Item>,
    sheet: &mut Sheet,
    target: &Target,
    operator: Binary,
) -> Result<(), NoMemory>
    requires { length sheet.old.variables + length (index_accesses target.now.index ++ touched Access.Read target.now.var ++ touched Access.Write target.now.var) < 2 ^ 32 }
    ensures { OnOk result (Adds (both (target_index target.now.index) (both (compound operator target.now unit) (write_var target.now.var (has_index target.now.index)))) (index_accesses target.now.index ++ touched Access.Read target.now.var ++ touched Access.Write target.now.var) items.old sheet.old items.new sheet.new) }
{
    add_index(alloc, items, sheet, &target.index)?;
    add_unit(items, sheet, target, operator)?;
    let indexed = target.index.is_some();
    add_use(items, sheet, Use::Write, target.var, indexed)
}

fn handle_site(target: &Target) -> HandleSite
    ensures { result ≡ handle_site target.now }
{
    HandleSite {
        var: target.var,
        indexed: target.index.is_some(),
    }
}

// Adds the items of a printf.
fn add_print(
    alloc: Global,
    items: &mut List<Item>,
    sheet: &mut Sheet,
    args: &[Expr],
) -> Result<(), NoMemory>
    requires { length sheet.old.variables + length (args_accesses args.now) < 2 ^ 32 }
    ensures { OnOk result (Adds (print_part args.now) (args_accesses args.now) items.old sheet.old items.new sheet.new) }
{
    add_args(alloc, items, sheet, args)?;
    items.push(Item::Act(Action::Print {
        node: sheet.node,
        args: args.len(),
    }))?;
    Ok(())
}

// Adds the items of a scanf.
fn add_scan(
    alloc: Global,
    items: &mut List<Item>,
    sheet: &mut Sheet,
    target: &Target,
) -> Result<(), NoMemory>
    requires { length sheet.old.variables + length (index_accesses target.now.index ++ touched Access.Write target.now.var) < 2 ^ 32 }
    ensures { OnOk result (Adds (scan_part target.now) (index_accesses target.now.index ++ touched Access.Write target.now.var) items.old sheet.old items.new sheet.new) }
{
    add_index(alloc, items, sheet, &target.index)?;
    items.push(Item::Act(Action::Take))?;
    let indexed = target.index.is_some();
    add_use(items, sheet, Use::Write, target.var, indexed)?;
    Ok(())
}

// Adds the items of a wait on a condition variable.
fn add_wait(items: &mut List<Item>, cond: VarId, mutex: VarId) -> Result<(), NoMemory>
    ensures { OnOk result (items.new ≡ items.old ++ (item.Act (action.Sleep cond mutex) ∷ item.Act (action.Wake cond mutex) ∷ [])) }
{
    items.push(Item::Act(Action::Sleep { cond, mutex }))?;
    items.push(Item::Act(Action::Wake { cond, mutex }))?;
    Ok(())
}

/// Adds the items of a simple statement or a step, which declares the local with this number if it
/// is a declaration.
#[tactic(auto, using(crate::proofs::Adding::adds_two))]
pub fn add_act(
    alloc: Global,
    items: &mut List<Item>,
    sheet: &mut Sheet,
    local: u32,
    act: &Act,
) -> Result<(), NoMemory>
    requires { length sheet.old.variables + length (act_accesses act.now) < 2 ^ 32 }
    ensures { OnOk result (Adds (act_part local act.now) (act_accesses act.now) items.old sheet.old items.new sheet.new) }
{
    match act {
        Act::Declare { value, .. } => add_declared(alloc, items, sheet, local, value)?,
        Act::Assign { target, how, value } => {
            add_assignment(alloc, items, sheet, target, *how, value)?
        }
        Act::Up(target) => add_step(alloc, items, sheet, target, Binary::Add)?,
        Act::Down(target) => add_step(alloc, items, sheet, target, Binary::Sub)?,
        Act::Call(call) => add_call(alloc, items, sheet, call)?,
        Act::Create { target, of, arg } => {
            add_index(alloc, items, sheet, &target.index)?;
            add_expr(alloc, items, sheet, arg)?;
            items.push(Item::Act(Action::Create {
                target: handle_site(target),
                of: *of,
            }))?;
        }
        Act::Join(target) => {
            add_index(alloc, items, sheet, &target.index)?;
            items.push(Item::Act(Action::Join(handle_site(target))))?;
        }
        Act::Lock(mutex) => items.push(Item::Act(Action::Lock(*mutex)))?,
        Act::Unlock(mutex) => items.push(Item::Act(Action::Unlock(*mutex)))?,
        Act::Print { args, .. } => add_print(alloc, items, sheet, args.as_slice())?,
        Act::Scan(target) => add_scan(alloc, items, sheet, target)?,
        Act::Wait { cond, mutex } => add_wait(items, *cond, *mutex)?,
        Act::Signal(cond) => items.push(Item::Act(Action::Signal(*cond)))?,
        Act::Broadcast(cond) => items.push(Item::Act(Action::Broadcast(*cond)))?,
    }
    Ok(())
}
