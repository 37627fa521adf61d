ghost use Rattle.std.specs.Prelude.{◌≡◌, ◌∷◌, ◌++◌, ◌+◌, ◌<◌, ◌^◌, [], length, IfOk, OnOk};
ghost use Rattle.step_state.specs.declared.item.Item.TheVariants.{Reduce};
ghost use Rattle.step_tables.specs.Adds.{Adds};
ghost use Rattle.step_tables.specs.Uses.{decision, global_action, local_reduction, use_part, use_touches};

use crate::uses::{Early, Use, decision};
use c_prog::Var;
use cfix_base::{AccessId, List, NoMemory, NodeId, VarId};
use std::alloc::Global;
use step_state::{Action, GlobalSite, Item, LocalSite, Operand, Reduction};

/// What is known of a node while its items are built: the variables of its accesses and the items
/// of its right operands so far.
#[derive(Drop)]
pub struct Sheet {
    pub node: NodeId,
    pub variables: List<VarId>,
    pub operands: List<List<Item>>,
}

// The number of the next access of the node, which is to this variable.
fn next_access(sheet: &mut Sheet, var: VarId) -> Result<AccessId, NoMemory>
    requires { length sheet.old.variables < 2 ^ 32 }
    ensures id { IfOk result (λ id. id ≡ record { node = sheet.old.node; index = length sheet.old.variables }) }
    ensures added { OnOk result (sheet.new ≡ record sheet.old { variables = sheet.old.variables ++ var ∷ [] }) }
{
    let index = sheet.variables.len() as u32;
    sheet.variables.push(var)?;
    Ok(AccessId {
        node: sheet.node,
        index,
    })
}

fn global_action(how: Use, site: GlobalSite) -> Action
    ensures { result ≡ global_action how site }
{
    match how {
        Use::Read => Action::Get(site),
        Use::Keep => Action::GetKeep(site),
        Use::Write => Action::Put(site),
    }
}

fn local_reduction(how: Use, site: LocalSite) -> Reduction
    ensures { result ≡ local_reduction how site }
{
    match how {
        Use::Read => Reduction::Local(site),
        Use::Keep => Reduction::LocalKeep(site),
        Use::Write => Reduction::Put(site),
    }
}

/// Adds the item that reads or writes a variable, behind its index.
pub fn add_use(
    items: &mut List<Item>,
    sheet: &mut Sheet,
    how: Use,
    var: Var,
    indexed: bool,
) -> Result<(), NoMemory>
    requires { length sheet.old.variables + length (use_touches how var) < 2 ^ 32 }
    ensures { OnOk result (Adds (use_part how var indexed) (use_touches how var) items.old sheet.old items.new sheet.new) }
{
    match var {
        Var::Global(var) => {
            let access = next_access(sheet, var)?;
            let site = GlobalSite {
                access,
                var,
                indexed,
            };
            items.push(Item::Act(global_action(how, site)))?;
        }
        Var::Local(local) => {
            let site = LocalSite { local, indexed };
            items.push(Item::Reduce(local_reduction(how, site)))?;
        }
    }
    Ok(())
}

/// Adds the item that decides whether a right operand is evaluated, and keeps a place for the items
/// of that operand.
pub fn begin_operand(
    alloc: Global,
    items: &mut List<Item>,
    sheet: &mut Sheet,
    op: Early,
) -> Result<usize, NoMemory>
    ensures number { IfOk result (λ number. number ≡ length sheet.old.operands) }
    ensures items { OnOk result (items.new ≡ items.old ++ Reduce (decision op (record { node = sheet.old.node; number = length sheet.old.operands })) ∷ []) }
    ensures sheet { OnOk result (sheet.new ≡ record sheet.old { operands = sheet.old.operands ++ [] ∷ [] }) }
{
    let number = sheet.operands.len();
    let right = Operand {
        node: sheet.node,
        number,
    };
    items.push(Item::Reduce(decision(op, right)))?;
    sheet.operands.push(List::new(alloc))?;
    Ok(number)
}
