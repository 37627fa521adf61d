ghost use Rattle.std.specs.Prelude.{◌≡◌, ◌+◌, ◌<◌, ◌^◌, ◌∷◌, [], length, OnOk, IfOk};
ghost use Rattle.c_prog.specs.Accesses.{jump_accesses, touches};
ghost use Rattle.c_prog.specs.View.{seen};
ghost use Rattle.step_state.specs.Items.{jump_part, node_part};
ghost use Rattle.step_tables.specs.Adds.{Adds};
ghost use Rattle.step_tables.specs.Kept.{Grows, HaveRoom, kept, kept_of, listed, node_locals};

use crate::acts::{add_act, add_value};
use crate::expressions::add_expr;
use crate::row::Row;
use crate::sheet::Sheet;
use c_prog::{Act, Jump, LocalKind, NodeView};
use cfix_base::{FnId, List, NoMemory, NodeId};
use std::alloc::Global;
use step_state::{Item, Move};

fn add_jump(
    alloc: Global,
    items: &mut List<Item>,
    sheet: &mut Sheet,
    jump: &Jump,
) -> Result<(), NoMemory>
    requires { length sheet.old.variables + length (jump_accesses jump.now) < 2 ^ 32 }
    ensures { OnOk result (Adds (jump_part jump.now) (jump_accesses jump.now) items.old sheet.old items.new sheet.new) }
{
    match jump {
        Jump::ReturnValue(value) => add_value(alloc, items, sheet, value),
        _ => Ok(()),
    }
}

// Adds the items of a node, which declares the local with this number if it is a declaration.
fn add_node(
    alloc: Global,
    items: &mut List<Item>,
    sheet: &mut Sheet,
    local: u32,
    node: NodeView<'_>,
) -> Result<(), NoMemory>
    requires { length sheet.old.variables + length (touches (seen node)) < 2 ^ 32 }
    ensures { OnOk result (Adds (node_part local (seen node.entry)) (touches (seen node.entry)) items.old sheet.old items.new sheet.new) }
{
    match node {
        NodeView::Act { act, .. } => add_act(alloc, items, sheet, local, act)?,
        NodeView::Cond(cond) => {
            add_expr(alloc, items, sheet, &cond.test)?;
            items.push(Item::Go(Move::Branch(sheet.node)))?;
            return Ok(());
        }
        NodeView::Step(step) => add_act(alloc, items, sheet, local, &step.act)?,
        NodeView::Jump { jump, .. } => add_jump(alloc, items, sheet, jump)?,
    }
    items.push(Item::Go(Move::Edge(sheet.node)))?;
    Ok(())
}

// What is kept of a node, which declares the local with this number if it is a declaration.
fn row_of<'a>(
    alloc: Global,
    of: FnId,
    number: NodeId,
    local: u32,
    node: NodeView<'a>,
) -> Result<Row<'a>, NoMemory>
    requires { length (touches (seen node)) < 2 ^ 32 }
    ensures { IfOk result (λ row. kept row ≡ kept_of of.number number.number local (seen node.entry)) }
{
    let mut items = List::new(alloc);
    let mut sheet = Sheet {
        node: number,
        variables: List::new(alloc),
        operands: List::new(alloc),
    };
    add_node(alloc, &mut items, &mut sheet, local, node)?;
    Ok(Row {
        of,
        node,
        items,
        operands: sheet.operands,
        variables: sheet.variables,
    })
}

// The kind of the local that a node declares, if it does.
fn declared_kind(node: NodeView<'_>) -> Option<LocalKind>
    ensures { listed result ≡ node_locals (seen node.entry) }
{
    match node {
        NodeView::Act { act, .. } => match act {
            Act::Declare { kind, .. } => Some(*kind),
            _ => None,
        },
        _ => None,
    }
}

/// The function whose nodes are kept, and how many parameters it has.
#[derive(Clone, Copy)]
pub struct Within {
    pub of: FnId,
    pub params: u32,
}

/// Keeps the next node of a function, and the local that it declares.
pub fn keep_node<'a>(
    alloc: Global,
    rows: &mut List<Row<'a>>,
    locals: &mut List<LocalKind>,
    within: Within,
    node: NodeView<'a>,
) -> Result<(), NoMemory>
    requires { HaveRoom (length rows.old) (within.params + length locals.old) (seen node ∷ []) }
    ensures { OnOk result (Grows within.of.number within.params (seen node.entry ∷ []) rows.old locals.old rows.new locals.new) }
{
    let number = NodeId {
        number: rows.len() as u32,
    };
    let local = within.params + locals.len() as u32;
    let row = row_of(alloc, within.of, number, local, node)?;
    rows.push(row)?;
    match declared_kind(node) {
        None => Ok(()),
        Some(kind) => locals.push(kind),
    }
}
