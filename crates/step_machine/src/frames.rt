ghost use Rattle.std.specs.Prelude.{◌≡◌, ◌++◌, [], ◌∷◌, pos, map, replicate, IfOk, OnOk};
ghost use Rattle.step_state.specs.Changes.{frame_of, handle_cells, int_cells, new_handles, new_locals, thread_of};
ghost use Rattle.step_tables.specs.TreeCode.{tree_code};

use crate::work::work_after;
use c_prog::LocalKind;
use cfix_base::{FnId, NoMemory, Place};
use std::alloc::Global;
use step_state::{Depths, Frame, Stack, Table, Thread};
use step_tables::Tables;

/// So many cells with one value.
pub fn cells<T: Copy + Drop>(alloc: Global, count: usize, value: T) -> Result<Table<T>, NoMemory>
    ensures { IfOk result (λ cells. cells ≡ replicate count value) }
{
    let mut cells = Table::new(alloc);
    cells.fill_to(count, value)?;
    Ok(cells)
}

/// How many cells a local has for numbers.
fn int_cells(kind: LocalKind) -> usize
    ensures { result ≡ int_cells kind }
{
    match kind {
        LocalKind::Int => 1,
        LocalKind::IntArray(len) => len as usize,
        LocalKind::Thread | LocalKind::ThreadArray(_) => 0,
    }
}

/// How many cells a local has for thread numbers.
fn handle_cells(kind: LocalKind) -> usize
    ensures { result ≡ handle_cells kind }
{
    match kind {
        LocalKind::Thread => 1,
        LocalKind::ThreadArray(len) => len as usize,
        LocalKind::Int | LocalKind::IntArray(_) => 0,
    }
}

/// Adds a parameter for each of these values.
#[tactic(auto, using(crate::proofs::Maps::mapped_more, crate::proofs::Maps::mapped_all))]
fn push_params(alloc: Global, locals: &mut Table<Table<i32>>, args: &[i32]) -> Result<(), NoMemory>
    ensures { OnOk result (locals.new ≡ locals.old ++ map (λ v. v ∷ []) args.now) }
{
    for arg in args {
        locals.push(cells(alloc, 1, *arg)?)?;
    }
    Ok(())
}

/// Adds the cells for numbers of what a function declares.
#[tactic(auto, using(crate::proofs::Maps::mapped_more, crate::proofs::Maps::mapped_all))]
fn push_locals(
    alloc: Global,
    locals: &mut Table<Table<i32>>,
    kinds: &[LocalKind],
) -> Result<(), NoMemory>
    ensures { OnOk result (locals.new ≡ locals.old ++ map (λ k. replicate (int_cells k) (pos 0)) kinds.now) }
{
    for kind in kinds {
        locals.push(cells(alloc, int_cells(*kind), 0)?)?;
    }
    Ok(())
}

/// Adds the cells for thread numbers of so many parameters: none.
#[tactic(auto, using(crate::proofs::Maps::empty_more, crate::proofs::Maps::mapped_all))]
fn push_no_handles(
    alloc: Global,
    handles: &mut Table<Table<u32>>,
    args: &[i32],
) -> Result<(), NoMemory>
    ensures { OnOk result (handles.new ≡ handles.old ++ map (λ v. []) args.now) }
{
    for _arg in args {
        handles.push(Table::new(alloc))?;
    }
    Ok(())
}

/// Adds the cells for thread numbers of what a function declares.
#[tactic(auto, using(crate::proofs::Maps::mapped_more, crate::proofs::Maps::mapped_all))]
fn push_handles(
    alloc: Global,
    handles: &mut Table<Table<u32>>,
    kinds: &[LocalKind],
) -> Result<(), NoMemory>
    ensures { OnOk result (handles.new ≡ handles.old ++ map (λ k. replicate (handle_cells k) 0) kinds.now) }
{
    for kind in kinds {
        handles.push(cells(alloc, handle_cells(*kind), 0)?)?;
    }
    Ok(())
}

/// The locals of a function that begins with these arguments.
fn new_locals(
    alloc: Global,
    kinds: &[LocalKind],
    args: &[i32],
) -> Result<Table<Table<i32>>, NoMemory>
    ensures { IfOk result (λ locals. locals ≡ new_locals kinds.now args.now) }
{
    let mut locals = Table::new(alloc);
    push_params(alloc, &mut locals, args)?;
    push_locals(alloc, &mut locals, kinds)?;
    Ok(locals)
}

/// Its thread numbers.
fn new_handles(
    alloc: Global,
    kinds: &[LocalKind],
    args: &[i32],
) -> Result<Table<Table<u32>>, NoMemory>
    ensures { IfOk result (λ handles. handles ≡ new_handles kinds.now args.now) }
{
    let mut handles = Table::new(alloc);
    push_no_handles(alloc, &mut handles, args)?;
    push_handles(alloc, &mut handles, kinds)?;
    Ok(handles)
}

/// A frame of a function that begins with these arguments.
pub fn frame_of(
    alloc: Global,
    tables: &Tables,
    serial: u32,
    function: FnId,
    args: &[i32],
) -> Result<Frame, NoMemory>
    ensures { IfOk result (λ frame. frame ≡ frame_of (tree_code tables.now) serial function.number args.now) }
{
    let kinds = tables.locals(function);
    let last = Place::Start(function);
    Ok(Frame {
        serial,
        of: function,
        visit: None,
        last,
        locals: new_locals(alloc, kinds, args)?,
        handles: new_handles(alloc, kinds, args)?,
        values: Stack::new(alloc),
        work: work_after(alloc, tables, last)?,
    })
}

/// A thread that begins with this frame, in no lock.
pub fn thread_of(alloc: Global, tables: &Tables, frame: Frame) -> Result<Thread, NoMemory>
    ensures { IfOk result (λ thread. thread ≡ thread_of (tree_code tables.now) frame) }
{
    let mut frames = Stack::new(alloc);
    frames.push(frame)?;
    Ok(Thread {
        frames,
        joined: false,
        held: Depths::new(alloc, tables.locks()),
        missed: Depths::new(alloc, tables.locks()),
    })
}
