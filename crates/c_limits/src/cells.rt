ghost use Rattle.std.specs.Prelude.{◌≡◌, ◌++◌, map, option_map, OnOk};
ghost use Rattle.c_raw.specs.Decls.{local_int_view, hold_view, loop_int_view, more_local_ints_view, more_holds_view, more_loop_ints_view, decl_view};
ghost use Rattle.c_raw.specs.Stmts.{first_part_view, else_from, stmt_view, else_view, item_view, items_view};
ghost use Rattle.c_names.specs.Limits.{local_int_cells, hold_cells, loop_int_cells, decl_cells, first_cells, stmt_cells, else_cells, item_cells, items_cells};
ghost use Rattle.c_scope.specs.Tables.{names_from};

use crate::spots::loop_int_spot;
use c_raw::{Decl, Else, First, Hold, Item, LocalInt, LoopInt, Stmt};
use c_scope::{Table, size_length};
use cfix_base::{List, NoMemory, Spot};

fn local_int_cells(names: &Table, raw: &LocalInt) -> (Spot, u32)
    ensures { result ≡ local_int_cells (names_from names.now) (local_int_view raw.now) }
{
    match raw {
        LocalInt::OneLocal(name) | LocalInt::SetLocal { name, .. } => (name.spot, 1),
        LocalInt::LocalArray { name, size, .. } => (name.spot, size_length(names, size)),
    }
}

/// A declared thread variable, and how many cells it has.
pub fn hold_cells(names: &Table, raw: &Hold) -> (Spot, u32)
    ensures { result ≡ hold_cells (names_from names.now) (hold_view raw.now) }
{
    match raw {
        Hold::OneThread(name) => (name.spot, 1),
        Hold::Threads { name, size, .. } => (name.spot, size_length(names, size)),
    }
}

fn loop_int_cells(raw: &LoopInt) -> (Spot, u32)
    ensures { result ≡ loop_int_cells (loop_int_view raw.now) }
{
    (loop_int_spot(raw), 1)
}

fn push_ints(
    cells: &mut List<(Spot, u32)>,
    names: &Table,
    more: &[(Spot, LocalInt)],
) -> Result<(), NoMemory>
    ensures { OnOk result (cells.new ≡ cells.old ++ map (local_int_cells (names_from names.now)) (map (λ y. y.1) (more_local_ints_view more.now))) }
{
    for next in more {
        cells.push(local_int_cells(names, &next.1))?;
    }
    Ok(())
}

fn push_holds(
    cells: &mut List<(Spot, u32)>,
    names: &Table,
    more: &[(Spot, Hold)],
) -> Result<(), NoMemory>
    ensures { OnOk result (cells.new ≡ cells.old ++ map (hold_cells (names_from names.now)) (map (λ y. y.1) (more_holds_view more.now))) }
{
    for next in more {
        cells.push(hold_cells(names, &next.1))?;
    }
    Ok(())
}

fn push_loop_ints(cells: &mut List<(Spot, u32)>, more: &[(Spot, LoopInt)]) -> Result<(), NoMemory>
    ensures { OnOk result (cells.new ≡ cells.old ++ map loop_int_cells (map (λ y. y.1) (more_loop_ints_view more.now))) }
{
    for next in more {
        cells.push(loop_int_cells(&next.1))?;
    }
    Ok(())
}

fn push_decl(cells: &mut List<(Spot, u32)>, names: &Table, raw: &Decl) -> Result<(), NoMemory>
    ensures { OnOk result (cells.new ≡ cells.old ++ decl_cells (names_from names.now) (decl_view raw.now)) }
{
    match raw {
        Decl::Ints { first, more, .. } => {
            cells.push(local_int_cells(names, first))?;
            push_ints(cells, names, more.as_slice())
        }
        Decl::Holds { first, more, .. } => {
            cells.push(hold_cells(names, first))?;
            push_holds(cells, names, more.as_slice())
        }
    }
}

fn push_first(cells: &mut List<(Spot, u32)>, raw: &Option<First>) -> Result<(), NoMemory>
    ensures { OnOk result (cells.new ≡ cells.old ++ first_cells (first_part_view raw.now)) }
{
    match raw {
        None => Ok(()),
        Some(First::Ints { first, more, .. }) => {
            cells.push(loop_int_cells(first))?;
            push_loop_ints(cells, more.as_slice())
        }
        Some(First::Plain(_)) => Ok(()),
    }
}

#[cycle(cells)]
#[tactic(auto, using(c_raw::proofs::Equations::stmts))]
fn push_stmt(cells: &mut List<(Spot, u32)>, names: &Table, raw: &Stmt) -> Result<(), NoMemory>
    ensures { OnOk result (cells.new ≡ cells.old ++ stmt_cells (names_from names.now) (stmt_view raw.now)) }
{
    match raw {
        Stmt::Block { items, .. } => push_cells(cells, names, items.as_slice()),
        Stmt::Nothing(_) | Stmt::Simply { .. } | Stmt::Jumps(_) => Ok(()),
        Stmt::If {
            then,
            otherwise,
            ..
        } => {
            push_stmt(cells, names, then.get())?;
            push_else(cells, names, otherwise)
        }
        Stmt::While { body, .. } => push_stmt(cells, names, body.get()),
        Stmt::For { head, body } => {
            push_first(cells, &head.get().first)?;
            push_stmt(cells, names, body.get())
        }
    }
}

#[cycle(cells)]
#[tactic(auto, using(c_raw::proofs::Equations::stmts))]
fn push_else(
    cells: &mut List<(Spot, u32)>,
    names: &Table,
    raw: &Option<Else>,
) -> Result<(), NoMemory>
    ensures { OnOk result (cells.new ≡ cells.old ++ else_cells (names_from names.now) (else_from (option_map else_view raw.now))) }
{
    match raw {
        None => Ok(()),
        Some(other) => push_stmt(cells, names, other.body.get()),
    }
}

#[cycle(cells)]
#[tactic(auto, using(c_raw::proofs::Equations::stmts))]
fn push_item(cells: &mut List<(Spot, u32)>, names: &Table, raw: &Item) -> Result<(), NoMemory>
    ensures { OnOk result (cells.new ≡ cells.old ++ item_cells (names_from names.now) (item_view raw.now)) }
{
    match raw {
        Item::Declares { decl, .. } => push_decl(cells, names, decl.get()),
        Item::Does(stmt) => push_stmt(cells, names, stmt),
    }
}

/// Adds each local that a body declares, and how many cells it has, in the order of the text.
#[cycle(cells)]
pub fn push_cells(
    cells: &mut List<(Spot, u32)>,
    names: &Table,
    list: &[Item],
) -> Result<(), NoMemory>
    ensures { OnOk result (cells.new ≡ cells.old ++ items_cells (names_from names.now) (items_view list.now)) }
{
    for raw in list {
        push_item(cells, names, raw)?;
    }
    Ok(())
}
