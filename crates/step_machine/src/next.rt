ghost use Rattle.std.specs.Prelude.{◌≡◌, ◌<◌, length, MatchOption, IsSome};
ghost use Rattle.step_state.specs.Code.{Code};
ghost use Rattle.step_machine.specs.Next.{popped_thread, IsNext, IsOver};
ghost use Rattle.step_machine.specs.Tops.{top_of};

use step_state::{Configuration, Frame, Item, Thread};

/// What the thread does next, if it is not over.
pub fn next_item(state: &Configuration, thread: u32) -> Option<Item>
    ensures { MatchOption result ((c : Code) → IsOver c state.now thread) (λ item. IsNext state.now thread item) }
{
    let thread = state.threads.get(thread as usize)?;
    let frame = thread.frames.top()?;
    match frame.work.top() {
        None => None,
        Some(item) => Some(*item),
    }
}

/// Takes the first item off the work of the thread's top frame.
#[tactic(auto, using(crate::proofs::Lookups::popped_is))]
pub fn pop_next(thread: &mut Thread)
    requires { 0 < length thread.old.frames }
    ensures { thread.new ≡ popped_thread thread.old }
{
    thread.frames.top_mut().work.pop();
}

/// The top frame of a thread that has one.
pub fn top_frame(state: &Configuration, thread: u32) -> &Frame
    requires { IsSome (top_of state.now thread) }
    ensures { top_of state.now thread ≡ Some result.now }
{
    state.threads.at(thread as usize).frames.first()
}
