ghost use Rattle.std.specs.Prelude.{◌≡◌, ◌<◌, [], ◌∷◌, IfOk, length, map, true, false, Some};
ghost use Rattle.c_prog.specs.declared.stmt.Stmt.TheVariants.{Simple};
ghost use Rattle.c_prog.specs.Valid.{IsValid};
ghost use Rattle.first_form.specs.Straight.{with_ops, crossing, inside, behind, main_with, guarded};
ghost use Rattle.first_form.specs.Form.{act_of, acts_of, is_first_form, plains_of};

use crate::plain::{Plain, act_of};
use crate::region::{Region, is_inside};
use c_prog::{FnKind, Function, Global as Variable, Program, Stmt, Tree};
use cfix_base::{List, LockId, NoMemory, Op};
use sqlite_items::Items;
use std::alloc::Global;

/// The list of one item.
fn one<T: Drop>(alloc: Global, item: T) -> Result<List<T>, NoMemory>
    ensures { IfOk result (λ list. list ≡ item ∷ []) }
{
    let mut list = List::new(alloc);
    list.push(item)?;
    Ok(list)
}

/// The operations on the way from one node to the next, by whether each is in the region.
fn crossing(alloc: Global, from: bool, to: bool) -> Result<List<Op>, NoMemory>
    ensures { IfOk result (λ ops. ops ≡ crossing from to) }
{
    match (from, to) {
        (true, false) => one(alloc, Op::Leave(LockId { number: 0 })),
        (false, true) => one(alloc, Op::Enter(LockId { number: 0 })),
        _ => Ok(List::new(alloc)),
    }
}

fn statement(alloc: Global, plain: Plain, from: bool, to: bool) -> Result<Stmt, NoMemory>
    ensures { IfOk result (λ stmt. stmt ≡ Simple (act_of plain) (crossing from to)) }
{
    let after = crossing(alloc, from, to)?;
    Ok(Stmt::Simple {
        act: act_of(plain),
        after,
    })
}

fn body(alloc: Global, plains: &[Plain], region: Option<Region>) -> Result<Items<Stmt>, NoMemory>
    ensures { IfOk result (λ body. body ≡ with_ops (behind region) 0 (acts_of plains.now)) }
{
    let mut body = Items::new(alloc);
    for (node, plain) in plains.iter().enumerate() {
        let from = is_inside(region, node);
        let to = is_inside(region, node + 1);
        body.push(statement(alloc, *plain, from, to)?)?;
    }
    Ok(body)
}

/// The bytes, as a list.
fn bytes(alloc: Global, text: &[u8]) -> Result<List<u8>, NoMemory>
    ensures { IfOk result (λ list. list ≡ text.now) }
{
    Ok(List::from_vec(text.to_vec(alloc)?))
}

fn main_of(alloc: Global, plains: &[Plain], region: Option<Region>) -> Result<Function, NoMemory>
    ensures { IfOk result (λ function. function ≡ main_with (crossing false (inside region 0)) (with_ops (behind region) 0 (acts_of plains.now))) }
{
    let name = bytes(alloc, b"main")?;
    let start = crossing(alloc, false, is_inside(region, 0))?;
    let body = body(alloc, plains, region)?;
    Ok(Function {
        name,
        kind: FnKind::Int,
        params: List::new(alloc),
        start,
        body,
    })
}

/// The program of these globals and statements, with the operations of lock 0 round a region.
fn straight(
    alloc: Global,
    globals: List<Variable>,
    plains: &[Plain],
    region: Option<Region>,
) -> Result<Tree, NoMemory>
    ensures { IfOk result (λ tree. tree ≡ guarded globals (acts_of plains.now) region) }
{
    let main = main_of(alloc, plains, region)?;
    let functions = one(alloc, main)?;
    Ok(Tree {
        globals,
        functions,
        starts: List::new(alloc),
    })
}

fn copy_globals(alloc: Global, globals: &[Variable]) -> Result<List<Variable>, NoMemory>
    ensures { IfOk result (λ copy. copy ≡ globals.now) }
{
    let mut copy = List::new(alloc);
    for global in globals {
        let name = bytes(alloc, global.name.as_slice())?;
        let kind = global.kind;
        copy.push(Variable { name, kind })?;
    }
    Ok(copy)
}

/// A program of the first form, whose statements these are, with the operations of lock 0 round a
/// critical region.
pub fn guarded(
    alloc: Global,
    program: &Program,
    plains: &[Plain],
    region: Region,
) -> Result<Program, NoMemory>
    requires form { is_first_form program.now ≡ true }
    requires statements { plains.now ≡ plains_of program.now }
    ensures { IfOk result (λ patched. patched ≡ guarded program.now.globals (acts_of plains.now) (Some region)) }
{
    let globals = copy_globals(alloc, program.tree().globals.as_slice())?;
    let tree = straight(alloc, globals, plains, Some(region))?;
    Ok(Program::of(tree))
}
