ghost use Rattle.std.specs.Prelude.{◌≡◌, slice_index_or, IsSome, Option};
ghost use Rattle.step_state.specs.declared.item.Item.TheVariants as item;
ghost use Rattle.step_state.specs.declared.item.Action.TheVariants as action;
ghost use Rattle.step_machine.specs.Goes.{is_free, may_act, may_do, may_operate};
ghost use Rattle.step_machine.specs.Next.{IsNext};
ghost use Rattle.step_machine.specs.Tops.{top_of};

use crate::locks::may_enter;
use crate::mutexes::owner_of;
use crate::next::top_frame;
use crate::orders::is_ready;
use crate::sleepers::{sleepers_of, sleeps};
use crate::threads::may_join;
use cfix_base::{Op, VarId};
use step_state::{Action, Configuration, Item};

/// Whether an operation makes a step.
fn may_operate(state: &Configuration, thread: u32, timeout: bool, op: Op) -> bool
    ensures { result ≡ may_operate state.now thread timeout op }
{
    match op {
        Op::Enter(lock) => may_enter(&state.locks, lock, thread) != timeout,
        Op::Wait(order) => is_ready(state, order) != timeout,
        Op::Leave(_) | Op::First(_) | Op::Done(_) | Op::Add(_) => !timeout,
    }
}

/// Whether a mutex has no owner.
fn is_free(state: &Configuration, mutex: VarId) -> bool
    ensures { result ≡ is_free (slice_index_or state.now.owners mutex.number Option.None) }
{
    owner_of(&state.owners, mutex).is_none()
}

/// Whether an item that reads or changes what is outside its frame makes a step.
fn may_act(state: &Configuration, thread: u32, action: Action) -> bool
    requires { IsSome (top_of state.now thread) }
    ensures { result ≡ may_act state.now thread action }
{
    match action {
        Action::Lock(mutex) => is_free(state, mutex),
        Action::Join(target) => may_join(state, top_frame(state, thread), target),
        Action::Wake { cond, mutex } => {
            !sleeps(thread, sleepers_of(&state.sleepers, cond)) && is_free(state, mutex)
        }
        Action::Get(_)
        | Action::GetKeep(_)
        | Action::Put(_)
        | Action::Take
        | Action::Unlock(_)
        | Action::Create { target: _, of: _ }
        | Action::Print { node: _, args: _ }
        | Action::Call(_)
        | Action::Sleep { cond: _, mutex: _ }
        | Action::Signal(_)
        | Action::Broadcast(_) => true,
    }
}

/// Whether the next item of the thread makes a step.
pub fn may_do(state: &Configuration, thread: u32, timeout: bool, next: Item) -> bool
    requires { IsNext state.now thread next }
    ensures { result ≡ may_do state.now thread timeout next }
{
    match next {
        Item::Op(op) => may_operate(state, thread, timeout, op),
        Item::Act(action) => !timeout && may_act(state, thread, action),
        Item::Reduce(_) | Item::Go(_) => !timeout,
    }
}
