ghost use Rattle.std.specs.Prelude.{◌≡◌, ◌+◌, ◌++◌, length, map, IfOk, OnOk};
ghost use Rattle.c_prog.specs.Order.{function_order};
ghost use Rattle.c_prog.specs.Valid.Locals.{locals_of};
ghost use Rattle.c_prog.specs.View.{seen};
ghost use Rattle.step_tables.specs.Kept.{Grows, HaveRoom, kept, kept_from};

use crate::nodes::{Within, keep_node};
use crate::row::Row;
use crate::walk::nodes_of;
use c_prog::{Function, LocalKind, NodeView};
use cfix_base::{FnId, List, NoMemory};
use std::alloc::Global;

fn keep_nodes<'a>(
    alloc: Global,
    rows: &mut List<Row<'a>>,
    locals: &mut List<LocalKind>,
    within: Within,
    nodes: &[NodeView<'a>],
) -> Result<(), NoMemory>
    requires { HaveRoom (length rows.old) (within.params + length locals.old) (map seen nodes.now) }
    ensures { OnOk result (Grows within.of.number within.params (map seen nodes.now) rows.old locals.old rows.new locals.new) }
{
    for node in nodes {
        keep_node(alloc, rows, locals, within, *node)?;
    }
    Ok(())
}

/// Keeps the nodes of a function, and gives what it declares.
pub fn keep_function<'a>(
    alloc: Global,
    rows: &mut List<Row<'a>>,
    of: FnId,
    function: &'a Function,
) -> Result<List<LocalKind>, NoMemory>
    requires { HaveRoom (length rows.old) (length function.now.params) (function_order function.now) }
    ensures rows { OnOk result (map kept rows.new ≡ map kept rows.old ++ kept_from of.number (length rows.old) (length function.now.params) (function_order function.now)) }
    ensures locals { IfOk result (λ locals. locals ≡ locals_of function.now.body) }
{
    let nodes = nodes_of(alloc, function)?;
    let mut locals = List::new(alloc);
    let within = Within {
        of,
        params: function.params.len() as u32,
    };
    keep_nodes(alloc, rows, &mut locals, within, nodes.as_slice())?;
    Ok(locals)
}
