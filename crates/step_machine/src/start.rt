ghost use Rattle.std.specs.Prelude.{◌≡◌, [], ◌∷◌, map, IfOk};
ghost use Rattle.step_state.specs.Changes.{frame_of, thread_of};
ghost use Rattle.step_state.specs.Start.{all_awake, initial_cells, initial_handles, initial_tokens, start};
ghost use Rattle.step_tables.specs.TreeCode.{tree_code};

use crate::frames::{cells, frame_of, thread_of};
use crate::machine_of::Machine;
use c_prog::{Global as Variable, GlobalKind};
use cfix_base::{List, NoMemory, OrderId};
use std::alloc::Global;
use step_state::{Configuration, Counted, Ending, Stack, State, Table, Thread};
use step_tables::Tables;

/// The cells of a global: its initial value, or 0.
fn initial_cells(alloc: Global, kind: GlobalKind) -> Result<Table<i32>, NoMemory>
    ensures { IfOk result (λ cells. cells ≡ initial_cells kind) }
{
    match kind {
        GlobalKind::Int(value) => cells(alloc, 1, value),
        GlobalKind::IntArray(len) => cells(alloc, len as usize, 0),
        GlobalKind::Thread | GlobalKind::ThreadArray(_) | GlobalKind::Mutex | GlobalKind::Cond =>
            Ok(Table::new(alloc)),
    }
}

/// The thread numbers in a global: none.
fn initial_handles(alloc: Global, kind: GlobalKind) -> Result<Table<u32>, NoMemory>
    ensures { IfOk result (λ handles. handles ≡ initial_handles kind) }
{
    match kind {
        GlobalKind::Thread => cells(alloc, 1, 0),
        GlobalKind::ThreadArray(len) => cells(alloc, len as usize, 0),
        GlobalKind::Int(_) | GlobalKind::IntArray(_) | GlobalKind::Mutex | GlobalKind::Cond => Ok(
            Table::new(alloc),
        ),
    }
}

/// The cells of all globals.
#[tactic(auto, using(crate::proofs::Maps::mapped_on, crate::proofs::Maps::mapped_end))]
fn all_cells(alloc: Global, globals: &[Variable]) -> Result<Table<Table<i32>>, NoMemory>
    ensures { IfOk result (λ table. table ≡ map initial_cells (map (λ global. global.kind) globals.now)) }
{
    let mut table = Table::new(alloc);
    for global in globals {
        table.push(initial_cells(alloc, global.kind)?)?;
    }
    Ok(table)
}

/// The thread numbers in all globals.
#[tactic(auto, using(crate::proofs::Maps::mapped_on, crate::proofs::Maps::mapped_end))]
fn all_handles(alloc: Global, globals: &[Variable]) -> Result<Table<Table<u32>>, NoMemory>
    ensures { IfOk result (λ table. table ≡ map initial_handles (map (λ global. global.kind) globals.now)) }
{
    let mut table = Table::new(alloc);
    for global in globals {
        table.push(initial_handles(alloc, global.kind)?)?;
    }
    Ok(table)
}

/// The threads that sleep on each global: none.
#[tactic(auto, using(crate::proofs::Maps::awake_more, crate::proofs::Maps::awake_end))]
fn all_awake(alloc: Global, globals: &[Variable]) -> Result<Table<Table<u32>>, NoMemory>
    ensures { IfOk result (λ table. table ≡ all_awake (map (λ global. global.kind) globals.now)) }
{
    let mut table = Table::new(alloc);
    for _global in globals {
        table.push(Table::new(alloc))?;
    }
    Ok(table)
}

/// One token for each of these orders, of so many.
#[tactic(auto, using(crate::proofs::Works::drop_at, crate::proofs::Works::mapped_all))]
fn tokens(alloc: Global, count: usize, orders: &[OrderId]) -> Result<Table<u32>, NoMemory>
    ensures { IfOk result (λ tokens. tokens ≡ initial_tokens count orders.now) }
{
    let mut tokens = cells(alloc, count, 0)?;
    let mut left = orders.len();
    while left > 0 {
        left -= 1;
        tokens.set(orders[left].number as usize, 1);
    }
    Ok(tokens)
}

/// The input as a stack, whose first number is on top.
#[tactic(auto, using(crate::proofs::Works::and_nothing))]
fn stacked(alloc: Global, input: &[i32]) -> Result<Stack<i32>, NoMemory>
    ensures { IfOk result (λ stack. stack ≡ input.now) }
{
    let mut stack = Stack::new(alloc);
    stack.push_all(input)?;
    Ok(stack)
}

/// Thread 0, at the start of main.
fn main_thread(alloc: Global, tables: &Tables) -> Result<Table<Thread>, NoMemory>
    ensures { IfOk result (λ threads. threads ≡ thread_of (tree_code tables.now) (frame_of (tree_code tables.now) 0 (tree_code tables.now).main []) ∷ []) }
{
    let frame = frame_of(alloc, tables, 0, tables.main(), &[])?;
    let mut threads = Table::new(alloc);
    threads.push(thread_of(alloc, tables, frame)?)?;
    Ok(threads)
}

impl Machine<'_> {
    /// The configuration in which a run begins.
    fn at_start(&self, alloc: Global, input: &[i32]) -> Result<Configuration, NoMemory>
        ensures { IfOk result (λ state. state ≡ start (tree_code self.now) input.now) }
    {
        let globals = self.tables.globals();
        Ok(Configuration {
            globals: all_cells(alloc, globals)?,
            handles: all_handles(alloc, globals)?,
            owners: cells(alloc, globals.len(), None)?,
            sleepers: all_awake(alloc, globals)?,
            input: stacked(alloc, input)?,
            output: List::new(alloc),
            threads: main_thread(alloc, &self.tables)?,
            made: 1,
            locks: cells(alloc, self.tables.locks(), None)?,
            tokens: tokens(alloc, self.tables.orders(), self.tables.starts())?,
            flags: cells(alloc, self.tables.orders(), false)?,
            ending: Ending::Running,
        })
    }

    /// The state in which a run begins: thread 0 stands at the start of main.
    pub fn start(&self, alloc: Global, input: &[i32]) -> Result<State, NoMemory>
        ensures { IfOk result (λ state. state ≡ record { configuration = start (tree_code self.now) input.now; steps = 0 }) }
    {
        let configuration = self.at_start(alloc, input)?;
        Ok(State::of(Counted {
            configuration,
            steps: 0,
        }))
    }
}
