ghost use Rattle.std.specs.Prelude.{◌≡◌, ◌+◌, ◌++◌, [], OnOk};
ghost use Rattle.std.specs.Option.{option_copied};
ghost use Rattle.flow_graph.specs.Table.{table_ways, table_end, out_ways, out_at};

use cfix_base::{List, NoMemory};

/// One way out of a condition.
#[derive(Clone, Copy, Debug, PartialEq, Eq)]
pub struct Side {
    /// The number of the node that control meets next; none is the exit.
    pub next: Option<u32>,
    /// Whether control never goes this way, since the condition is a number.
    pub is_dead: bool,
}

/// What is behind a node.
#[derive(Clone, Copy, Debug, PartialEq, Eq)]
pub enum Out {
    After(Option<u32>),
    Branch { on_true: Side, on_false: Side },
}

/// What is behind each of some nodes, whose numbers begin at `first`.
#[derive(Debug, Drop)]
pub struct Table {
    pub first: u32,
    pub outs: List<Out>,
}

/// Adds what is behind the next node.
pub fn add(table: &mut Table, out: Out) -> Result<(), NoMemory>
    ensures ways { OnOk result (table_ways table.new ≡ table_ways table.old ++ out_ways (table_end table.old) out) }
    ensures last { OnOk result (table_end table.new ≡ table_end table.old + 1) }
    ensures first { OnOk result (table.new.first ≡ table.old.first) }
{
    table.outs.push(out)?;
    Ok(())
}

/// What is behind the node with this number, if the table has it.
pub fn out_at(table: &Table, number: u32) -> Option<Out>
    ensures { result ≡ out_at table.now number }
{
    if number < table.first {
        return None;
    }
    let place = (number - table.first) as usize;
    table.outs.as_slice().get(place).copied()
}
