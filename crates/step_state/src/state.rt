ghost use Rattle.std.specs.Prelude.{◌≡◌, ◌<◌, [], length, Some, IsSome, slice_get};
ghost use Rattle.step_state.specs.Counts.{IsCounted};
ghost use Rattle.step_state.specs.declared.frame.Frame.{Frame};
ghost use Rattle.step_state.specs.Reads.{frame_from_bottom, frames_of, leading_ops, op_at, pending, view_of};

use crate::event::Ending;
use crate::frame::{Frame, FrameView};
use crate::item::Item;
use crate::stack::Stack;
use crate::table::Table;
use crate::thread::Thread;
use cfix_base::{List, NodeId};
use std::alloc::Global;
use std::marker::Model;

/// What a state is but for its count of steps. By the number of a global variable: the cells of an
/// `int` variable, the thread numbers in a `pthread_t` variable (0 is none), the owner of a mutex,
/// the threads that sleep on a condition variable, by rising numbers. By the number of an inserted
/// lock its owner, and by the number of an order its tokens and its flag, for all locks and orders
/// below the program's marks. `input` is what is left of the input, and `made` the number of frames
/// made so far.
#[derive(Drop)]
pub struct Configuration {
    pub globals: Table<Table<i32>>,
    pub handles: Table<Table<u32>>,
    pub owners: Table<Option<u32>>,
    pub sleepers: Table<Table<u32>>,
    pub input: Stack<i32>,
    pub output: List<u8>,
    pub threads: Table<Thread>,
    pub made: u32,
    pub locks: Table<Option<u32>>,
    pub tokens: Table<u32>,
    pub flags: Table<bool>,
    pub ending: Ending,
}

/// A configuration and the number of steps that were made.
#[derive(Drop)]
pub struct Counted {
    pub configuration: Configuration,
    pub steps: u32,
}

/// The state of a run. The number of steps bounds its other counts.
#[derive(Drop)]
pub struct State {
    counted: Counted,
}

impl Model for State {
    ghost use Rattle.step_state.specs.declared.state.Counted.{Counted};

    ghost Value = { Counted };

    ghost view = { λ s. s.counted };

    ghost use Rattle.step_state.specs.Counts.{IsCounted};

    ghost invariant = { λ s. IsCounted s.counted };
}

/// A configuration with nothing in it.
fn blank(alloc: Global) -> Configuration
    ensures made { result.made ≡ 0 }
    ensures threads { result.threads ≡ [] }
    ensures tokens { result.tokens ≡ [] }
{
    Configuration {
        globals: Table::new(alloc),
        handles: Table::new(alloc),
        owners: Table::new(alloc),
        sleepers: Table::new(alloc),
        input: Stack::new(alloc),
        output: List::new(alloc),
        threads: Table::new(alloc),
        made: 0,
        locks: Table::new(alloc),
        tokens: Table::new(alloc),
        flags: Table::new(alloc),
        ending: Ending::Running,
    }
}

/// Whether the item that lies so many below the top is an operation.
fn is_op(work: &Stack<Item>, place: usize) -> bool
    ensures { result ≡ op_at (slice_get work.now place) }
{
    match work.from_top(place) {
        Some(Item::Op(_)) => true,
        _ => false,
    }
}

#[tactic(auto, using(crate::proofs::Leads::leads_next, crate::proofs::Leads::leads_end, crate::proofs::Leads::leads_out))]
/// How many operations the work begins with.
fn count_ops(work: &Stack<Item>) -> usize
    ensures { result ≡ leading_ops work.now }
{
    let len = work.len();
    let mut count = 0;
    while count < len && is_op(work, count) {
        count += 1;
    }
    count
}

fn pending(visit: Option<NodeId>, work: &Stack<Item>) -> usize
    ensures { result ≡ pending visit work.now }
{
    match visit {
        None => count_ops(work),
        Some(_) => 0,
    }
}

fn view_of(frame: &Frame) -> FrameView
    ensures { result ≡ view_of frame.now }
{
    FrameView {
        serial: frame.serial,
        of: frame.of,
        visit: frame.visit,
        place: frame.last,
        pending: pending(frame.visit, &frame.work),
    }
}

impl State {
    /// A state with nothing in it, which can stand in the place of one that was taken out. It takes
    /// no memory.
    pub fn blank(alloc: Global) -> State {
        State {
            counted: Counted {
                configuration: blank(alloc),
                steps: 0,
            },
        }
    }

    /// The state that this is. It takes no memory.
    pub fn of(counted: Counted) -> State
        requires { IsCounted counted }
        ensures { result ≡ counted }
    {
        State { counted }
    }

    /// The configuration and the number of steps.
    pub fn counted(&self) -> &Counted
        ensures same { result.now ≡ self.now }
        ensures counts { IsCounted result.now }
    {
        &self.counted
    }

    /// The same, to be changed and made a state again. It takes no memory.
    pub fn into_counted(self) -> Counted
        ensures same { result ≡ self }
        ensures counts { IsCounted result }
    {
        self.counted
    }

    /// How the run stands.
    pub fn ending(&self) -> Ending
        ensures { result ≡ self.now.configuration.ending }
    {
        self.counted.configuration.ending
    }

    /// How many threads were made, main included.
    pub fn threads(&self) -> u32
        ensures { result ≡ length self.now.configuration.threads }
    {
        self.counted.configuration.threads.len() as u32
    }

    /// How many steps were made.
    pub fn steps(&self) -> u32
        ensures { result ≡ self.now.steps }
    {
        self.counted.steps
    }

    /// What was printed.
    pub fn output(&self) -> &[u8]
        ensures { result.now ≡ self.now.configuration.output }
    {
        self.counted.configuration.output.as_slice()
    }

    /// How many frames a thread has; none where it has ended.
    pub fn frames(&self, thread: u32) -> u32
        requires { thread < length self.now.configuration.threads }
        ensures { result ≡ length (frames_of self.now.configuration thread) }
    {
        self.counted
            .configuration
            .threads
            .at(thread as usize)
            .frames
            .len() as u32
    }

    /// What can be read of a thread's frame; the bottom frame is 0.
    pub fn frame(&self, thread: u32, at: u32) -> FrameView
        requires { IsSome (frame_from_bottom self.now.configuration thread at) }
        ensures { (f : Frame) → frame_from_bottom self.now.configuration thread at ≡ Some f → result ≡ view_of f }
    {
        let thread = self.counted.configuration.threads.at(thread as usize);
        view_of(thread.frames.from_bottom(at as usize))
    }
}
