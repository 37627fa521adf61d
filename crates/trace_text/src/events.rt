ghost use Rattle.std.specs.Prelude.{◌≡◌, ◌++◌, codes, decimal, slice_get, OnOk};
ghost use Rattle.std.specs.Option.{option_copied};
ghost use Rattle.std.specs.Fmt.{signed_decimal};
ghost use Rattle.trace_text.specs.Events.{access_text, cell_text, event_text, function_name, global_of, index_text, variable_name, waiting_text};

use crate::pieces::{add, add_number, add_quoted, add_value};
use c_prog::{Function, Global as Variable, GlobalKind, Tree};
use cfix_base::{FnId, NoMemory, VarId};
use step_state::Event;

fn add_numbered(text: &mut Vec<u8>, word: &[u8], number: u32) -> Result<(), NoMemory>
    ensures { OnOk result (text.new.items ≡ text.old.items ++ (word.now ++ decimal number)) }
{
    add(text, word)?;
    add_number(text, number)
}

fn add_missed(text: &mut Vec<u8>, word: &[u8], number: u32) -> Result<(), NoMemory>
    ensures { OnOk result (text.new.items ≡ text.old.items ++ (word.now ++ decimal number ++ codes " missed")) }
{
    add_numbered(text, word, number)?;
    add(text, b" missed")
}

fn add_valued(text: &mut Vec<u8>, word: &[u8], value: i32) -> Result<(), NoMemory>
    ensures { OnOk result (text.new.items ≡ text.old.items ++ (word.now ++ signed_decimal value)) }
{
    add(text, word)?;
    add_value(text, value)
}

fn variable(tree: &Tree, id: VarId) -> Option<&Variable>
    ensures { option_copied result ≡ slice_get tree.now.globals id.number }
{
    tree.globals.as_slice().get(id.number as usize)
}

fn add_variable(text: &mut Vec<u8>, word: &[u8], tree: &Tree, id: VarId) -> Result<(), NoMemory>
    ensures { OnOk result (text.new.items ≡ text.old.items ++ (word.now ++ variable_name (slice_get tree.now.globals id.number))) }
{
    add(text, word)?;
    match variable(tree, id) {
        None => Ok(()),
        Some(variable) => add(text, variable.name.as_slice()),
    }
}

// Adds a condition variable and a mutex, behind the word for what was done with them.
fn add_waiting(
    text: &mut Vec<u8>,
    word: &[u8],
    tree: &Tree,
    cond: VarId,
    mutex: VarId,
) -> Result<(), NoMemory>
    ensures { OnOk result (text.new.items ≡ text.old.items ++ waiting_text word.now tree.now cond mutex) }
{
    add_variable(text, word, tree, cond)?;
    add_variable(text, b" ", tree, mutex)
}

fn function(tree: &Tree, id: FnId) -> Option<&Function>
    ensures { option_copied result ≡ slice_get tree.now.functions id.number }
{
    tree.functions.as_slice().get(id.number as usize)
}

fn add_call(text: &mut Vec<u8>, tree: &Tree, id: FnId) -> Result<(), NoMemory>
    ensures { OnOk result (text.new.items ≡ text.old.items ++ (codes "call " ++ function_name (slice_get tree.now.functions id.number))) }
{
    add(text, b"call ")?;
    match function(tree, id) {
        None => Ok(()),
        Some(function) => add(text, function.name.as_slice()),
    }
}

fn add_index(text: &mut Vec<u8>, kind: GlobalKind, cell: u32) -> Result<(), NoMemory>
    ensures { OnOk result (text.new.items ≡ text.old.items ++ index_text kind cell) }
{
    match kind {
        GlobalKind::IntArray(_) | GlobalKind::ThreadArray(_) => {
            add_numbered(text, b"[", cell)?;
            add(text, b"]")
        }
        GlobalKind::Int(_) | GlobalKind::Thread | GlobalKind::Mutex | GlobalKind::Cond => Ok(()),
    }
}

fn accessed_variable(tree: &Tree, id: Option<VarId>) -> Option<&Variable>
    ensures { option_copied result ≡ global_of tree.now id }
{
    match id {
        None => None,
        Some(id) => variable(tree, id),
    }
}

fn add_cell(text: &mut Vec<u8>, tree: &Tree, id: Option<VarId>, cell: u32) -> Result<(), NoMemory>
    ensures { OnOk result (text.new.items ≡ text.old.items ++ cell_text (global_of tree.now id) cell) }
{
    match accessed_variable(tree, id) {
        None => Ok(()),
        Some(variable) => {
            add(text, variable.name.as_slice())?;
            add_index(text, variable.kind, cell)
        }
    }
}

// Adds what was read or written, behind the word for it.
fn add_access(
    text: &mut Vec<u8>,
    word: &[u8],
    tree: &Tree,
    id: Option<VarId>,
    cell: u32,
    value: i32,
) -> Result<(), NoMemory>
    ensures { OnOk result (text.new.items ≡ text.old.items ++ access_text word.now tree.now id cell (signed_decimal value)) }
{
    add(text, word)?;
    add_cell(text, tree, id, cell)?;
    add_valued(text, b" ", value)
}

/// Adds what a step did. `id` is the variable of the access that it made, if it made one.
pub fn add_event(
    text: &mut Vec<u8>,
    tree: &Tree,
    id: Option<VarId>,
    event: &Event,
) -> Result<(), NoMemory>
    ensures { OnOk result (text.new.items ≡ text.old.items ++ event_text tree.now id event.now) }
{
    match event {
        Event::Begin(node) => add_numbered(text, b"begin ", node.number),
        Event::Silent => add(text, b"silent"),
        Event::Read { cell, value, .. } => add_access(text, b"read ", tree, id, *cell, *value),
        Event::Write { cell, value, .. } => add_access(text, b"write ", tree, id, *cell, *value),
        Event::Lock(mutex) => add_variable(text, b"lock ", tree, *mutex),
        Event::Unlock(mutex) => add_variable(text, b"unlock ", tree, *mutex),
        Event::Create(thread) => add_numbered(text, b"create ", *thread),
        Event::Join(thread) => add_numbered(text, b"join ", *thread),
        Event::Print(bytes) => {
            add(text, b"print ")?;
            add_quoted(text, bytes.as_slice())
        }
        Event::Take(value) => add_valued(text, b"take ", *value),
        Event::Call(function) => add_call(text, tree, *function),
        Event::Return(value) => add_valued(text, b"return ", *value),
        Event::Exit => add(text, b"exit"),
        Event::Trap(_) => add(text, b"trap"),
        Event::Sleep { cond, mutex } => add_waiting(text, b"sleep ", tree, *cond, *mutex),
        Event::Wake { cond, mutex } => add_waiting(text, b"wake ", tree, *cond, *mutex),
        Event::Signal(cond) => add_variable(text, b"signal ", tree, *cond),
        Event::Broadcast(cond) => add_variable(text, b"broadcast ", tree, *cond),
        Event::Enter(lock) => add_numbered(text, b"enter ", lock.number),
        Event::EnterMissed(lock) => add_missed(text, b"enter ", lock.number),
        Event::Leave(lock) => add_numbered(text, b"leave ", lock.number),
        Event::First(order) => add_numbered(text, b"first ", order.number),
        Event::Done(order) => add_numbered(text, b"done ", order.number),
        Event::Wait(order) => add_numbered(text, b"wait ", order.number),
        Event::WaitMissed(order) => add_missed(text, b"wait ", order.number),
        Event::Add(order) => add_numbered(text, b"add ", order.number),
    }
}
