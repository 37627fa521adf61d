ghost use Rattle.std.specs.Prelude.{◌≡◌, ◌++◌, [], IfOk, OnOk, OnErr};
ghost use Rattle.step_tables.specs.TreeCode.{variable_of};
ghost use Rattle.trace_text.specs.Events.{accessed, event_line, line_text};

use crate::events::add_event;
use crate::pieces::{add, add_number};
use c_access::accesses;
use c_prog::{Program, Tree};
use cfix_base::{AccessId, NoMemory, VarId};
use std::alloc::Global;
use step_state::Event;
use step_tables::Tables;

// Adds the line of a step. `id` is the variable of the access that it made, if it made one.
pub(crate) fn add_line(
    line: &mut Vec<u8>,
    tree: &Tree,
    id: Option<VarId>,
    step: u32,
    thread: u32,
    event: &Event,
) -> Result<(), NoMemory>
    ensures { OnOk result (line.new.items ≡ line.old.items ++ line_text tree.now id step thread event.now) }
{
    add_number(line, step)?;
    add(line, b" ")?;
    add_number(line, thread)?;
    add(line, b" ")?;
    add_event(line, tree, id, event)?;
    add(line, b"\n")
}

#[tactic(auto, using(crate::proofs::Numbered::same_variable))]
fn variable(alloc: Global, program: &Program, site: AccessId) -> Result<Option<VarId>, NoMemory>
    ensures { IfOk result (λ id. id ≡ variable_of program.now site) }
{
    let list = accesses(alloc, program, site.node)?;
    let place = site.index as usize;
    if place < list.len() {
        Ok(Some(list.at(place).var))
    } else {
        Ok(None)
    }
}

fn accessed(alloc: Global, program: &Program, event: &Event) -> Result<Option<VarId>, NoMemory>
    ensures { IfOk result (λ id. id ≡ accessed program.now event.now) }
{
    match event {
        Event::Read { site, .. } | Event::Write { site, .. } => variable(alloc, program, *site),
        _ => Ok(None),
    }
}

/// The line of a step of a thread, with its line feed. Steps count from 1. It looks the accessed
/// variable up in the program's tree.
pub fn event_line(
    alloc: Global,
    program: &Program,
    step: u32,
    thread: u32,
    event: &Event,
) -> Result<Vec<u8>, NoMemory>
    ensures { IfOk result (λ line. line.items ≡ event_line program.now step thread event.now) }
{
    let id = accessed(alloc, program, event)?;
    let mut line = Vec::new(alloc);
    add_line(&mut line, program.tree(), id, step, thread, event)?;
    Ok(line)
}

fn accessed_by_table(tables: &Tables, event: &Event) -> Option<VarId>
    ensures { result ≡ accessed tables.now event.now }
{
    match event {
        Event::Read { site, .. } | Event::Write { site, .. } => tables.variable(*site),
        _ => None,
    }
}

/// Writes the same line in place of what `line` holds. It looks everything up in the tables of the
/// program, in time that does not grow with the program. After an error `line` is empty.
pub fn event_line_into(
    tables: &Tables,
    step: u32,
    thread: u32,
    event: &Event,
    line: &mut Vec<u8>,
) -> Result<(), NoMemory>
    ensures ok { OnOk result (line.new.items ≡ event_line tables.now step thread event.now) }
    ensures err { OnErr result (line.new.items ≡ []) }
{
    line.clear();
    let id = accessed_by_table(tables, event);
    let tree = tables.program().tree();
    match add_line(line, tree, id, step, thread, event) {
        Ok(()) => Ok(()),
        Err(NoMemory) => {
            line.clear();
            Err(NoMemory)
        }
    }
}
