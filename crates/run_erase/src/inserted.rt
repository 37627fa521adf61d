ghost use Rattle.std.specs.Prelude.{◌≡◌};
ghost use Rattle.step_state.specs.Erase.{is_inserted};

use cfix_base::Marks;
use step_state::Event;

/// Whether the event is that of a new operation, which has a number from the marks on.
pub fn is_inserted(marks: Marks, event: &Event) -> bool
    ensures { result ≡ is_inserted marks event.now }
{
    match event {
        Event::Enter(lock) => marks.lock <= lock.number,
        Event::EnterMissed(lock) => marks.lock <= lock.number,
        Event::Leave(lock) => marks.lock <= lock.number,
        Event::First(order) => marks.order <= order.number,
        Event::Done(order) => marks.order <= order.number,
        Event::Wait(order) => marks.order <= order.number,
        Event::WaitMissed(order) => marks.order <= order.number,
        Event::Add(order) => marks.order <= order.number,
        _ => false,
    }
}
