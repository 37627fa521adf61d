ghost use Rattle.std.specs.Prelude.{◌≡◌, zip, map, IfOk};
ghost use Rattle.c_prog.specs.Lines.{IsLined, tree_accesses, tree_calls};
ghost use Rattle.c_names.specs.Sources.{line_table};

use c_access::{tree_accesses, tree_calls};
use c_prog::{AccessItem, Program};
use c_source::Lines;
use cfix_base::{AccessId, List, NoMemory, NodeId};
use std::alloc::Global;

fn access_lines(
    alloc: Global,
    items: &[AccessItem],
    lines: &[u32],
) -> Result<List<(AccessId, u32)>, NoMemory>
    ensures { IfOk result (λ list. list ≡ zip (map (λ item. item.id) items.now) lines.now) }
{
    let mut list = List::new(alloc);
    let mut rest = lines;
    for item in items {
        match rest.split_first() {
            None => return Ok(list),
            Some((line, behind)) => {
                list.push((item.id, *line))?;
                rest = behind;
            }
        }
    }
    Ok(list)
}

fn call_lines(
    alloc: Global,
    nodes: &[NodeId],
    lines: &[u32],
) -> Result<List<(NodeId, u32)>, NoMemory>
    ensures { IfOk result (λ list. list ≡ zip nodes.now lines.now) }
{
    let mut list = List::new(alloc);
    let mut rest = lines;
    for node in nodes {
        match rest.split_first() {
            None => return Ok(list),
            Some((line, behind)) => {
                list.push((*node, *line))?;
                rest = behind;
            }
        }
    }
    Ok(list)
}

// Lines of this program, which rise since the accesses and the calls of a program do.
fn lines_with(
    program: &Program,
    accesses: List<(AccessId, u32)>,
    calls: List<(NodeId, u32)>,
) -> Lines
    requires { IsLined program.now (record { accesses = accesses; calls = calls }) }
    ensures { result ≡ record { accesses = accesses; calls = calls } }
{
    let _program = program;
    Lines::of(accesses, calls)
}

/// The lines of a program: those of its accesses and those of its calls, each in their order.
pub fn lines_of(
    alloc: Global,
    program: &Program,
    accesses: &[u32],
    calls: &[u32],
) -> Result<Lines, NoMemory>
    requires { IsLined program.now (line_table program.now accesses.now calls.now) }
    ensures { IfOk result (λ lines. lines ≡ line_table program.now accesses.now calls.now) }
{
    let items = tree_accesses(alloc, program)?;
    let nodes = tree_calls(alloc, program)?;
    let accesses = access_lines(alloc, items.as_slice(), accesses)?;
    let calls = call_lines(alloc, nodes.as_slice(), calls)?;
    Ok(lines_with(program, accesses, calls))
}
