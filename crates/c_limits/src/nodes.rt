ghost use Rattle.std.specs.Prelude.{◌≡◌, ◌++◌, map, option_map, OnOk};
ghost use Rattle.c_raw.specs.Decls.{more_local_ints_view, more_holds_view, more_loop_ints_view, decl_view};
ghost use Rattle.c_raw.specs.Stmts.{first_part_view, cond_part_view, step_part_view, else_from, stmt_view, else_view, item_view, items_view};
ghost use Rattle.c_names.specs.Limits.{local_int_spot, hold_spot, loop_int_spot, decl_nodes, first_nodes, step_nodes, for_nodes, stmt_nodes, else_nodes, item_nodes, items_nodes};

use crate::spots::{
    cond_spot, hold_spot, jump_spot, local_int_spot, loop_int_spot, plain_spot, simple_spot,
};
use c_raw::{Cond, Decl, Else, First, Hold, Item, LocalInt, LoopInt, LoopStep, Stmt};
use cfix_base::{List, NoMemory, Spot};

fn push_ints(spots: &mut List<Spot>, more: &[(Spot, LocalInt)]) -> Result<(), NoMemory>
    ensures { OnOk result (spots.new ≡ spots.old ++ map local_int_spot (map (λ y. y.1) (more_local_ints_view more.now))) }
{
    for next in more {
        spots.push(local_int_spot(&next.1))?;
    }
    Ok(())
}

fn push_holds(spots: &mut List<Spot>, more: &[(Spot, Hold)]) -> Result<(), NoMemory>
    ensures { OnOk result (spots.new ≡ spots.old ++ map hold_spot (map (λ y. y.1) (more_holds_view more.now))) }
{
    for next in more {
        spots.push(hold_spot(&next.1))?;
    }
    Ok(())
}

fn push_loop_ints(spots: &mut List<Spot>, more: &[(Spot, LoopInt)]) -> Result<(), NoMemory>
    ensures { OnOk result (spots.new ≡ spots.old ++ map loop_int_spot (map (λ y. y.1) (more_loop_ints_view more.now))) }
{
    for next in more {
        spots.push(loop_int_spot(&next.1))?;
    }
    Ok(())
}

fn push_decl(spots: &mut List<Spot>, raw: &Decl) -> Result<(), NoMemory>
    ensures { OnOk result (spots.new ≡ spots.old ++ decl_nodes (decl_view raw.now)) }
{
    match raw {
        Decl::Ints { first, more, .. } => {
            spots.push(local_int_spot(first))?;
            push_ints(spots, more.as_slice())
        }
        Decl::Holds { first, more, .. } => {
            spots.push(hold_spot(first))?;
            push_holds(spots, more.as_slice())
        }
    }
}

fn push_first(spots: &mut List<Spot>, raw: &Option<First>) -> Result<(), NoMemory>
    ensures { OnOk result (spots.new ≡ spots.old ++ first_nodes (first_part_view raw.now)) }
{
    match raw {
        None => Ok(()),
        Some(First::Ints { first, more, .. }) => {
            spots.push(loop_int_spot(first))?;
            push_loop_ints(spots, more.as_slice())
        }
        Some(First::Plain(plain)) => spots.push(plain_spot(plain)),
    }
}

// An absent condition stands at the `for`, and so before the first part.
fn push_for(
    spots: &mut List<Spot>,
    at: Spot,
    first: &Option<First>,
    cond: &Option<Cond>,
) -> Result<(), NoMemory>
    ensures { OnOk result (spots.new ≡ spots.old ++ for_nodes at (first_part_view first.now) (cond_part_view cond.now)) }
{
    match cond {
        None => {
            spots.push(at)?;
            push_first(spots, first)
        }
        Some(cond) => {
            push_first(spots, first)?;
            spots.push(cond_spot(cond))
        }
    }
}

fn push_step(spots: &mut List<Spot>, raw: &Option<LoopStep>) -> Result<(), NoMemory>
    ensures { OnOk result (spots.new ≡ spots.old ++ step_nodes (step_part_view raw.now)) }
{
    match raw {
        None => Ok(()),
        Some(step) => spots.push(plain_spot(&step.plain)),
    }
}

#[cycle(nodes)]
#[tactic(auto, using(c_raw::proofs::Equations::stmts))]
fn push_stmt(spots: &mut List<Spot>, raw: &Stmt) -> Result<(), NoMemory>
    ensures { OnOk result (spots.new ≡ spots.old ++ stmt_nodes (stmt_view raw.now)) }
{
    match raw {
        Stmt::Block { items, .. } => push_nodes(spots, items.as_slice()),
        Stmt::Nothing(_) => Ok(()),
        Stmt::Simply { simple, .. } => spots.push(simple_spot(simple.get())),
        Stmt::Jumps(jump) => spots.push(jump_spot(jump.get())),
        Stmt::If {
            test,
            then,
            otherwise,
        } => {
            spots.push(cond_spot(&test.get().cond))?;
            push_stmt(spots, then.get())?;
            push_else(spots, otherwise)
        }
        Stmt::While { test, body } => {
            spots.push(cond_spot(&test.get().cond))?;
            push_stmt(spots, body.get())
        }
        Stmt::For { head, body } => {
            let head = head.get();
            push_for(spots, head.at, &head.first, &head.cond)?;
            push_step(spots, &head.step)?;
            push_stmt(spots, body.get())
        }
    }
}

#[cycle(nodes)]
#[tactic(auto, using(c_raw::proofs::Equations::stmts))]
fn push_else(spots: &mut List<Spot>, raw: &Option<Else>) -> Result<(), NoMemory>
    ensures { OnOk result (spots.new ≡ spots.old ++ else_nodes (else_from (option_map else_view raw.now))) }
{
    match raw {
        None => Ok(()),
        Some(other) => push_stmt(spots, other.body.get()),
    }
}

#[cycle(nodes)]
#[tactic(auto, using(c_raw::proofs::Equations::stmts))]
fn push_item(spots: &mut List<Spot>, raw: &Item) -> Result<(), NoMemory>
    ensures { OnOk result (spots.new ≡ spots.old ++ item_nodes (item_view raw.now)) }
{
    match raw {
        Item::Declares { decl, .. } => push_decl(spots, decl.get()),
        Item::Does(stmt) => push_stmt(spots, stmt),
    }
}

/// Adds the token at which each node of a body stands, in the order of the text.
#[cycle(nodes)]
pub fn push_nodes(spots: &mut List<Spot>, list: &[Item]) -> Result<(), NoMemory>
    ensures { OnOk result (spots.new ≡ spots.old ++ items_nodes (items_view list.now)) }
{
    for raw in list {
        push_item(spots, raw)?;
    }
    Ok(())
}
