ghost use Rattle.std.specs.Prelude.{◌≡◌, true, false, IfOk, OnErr};
ghost use Rattle.step_state.specs.declared.item.Item.TheVariants as item;
ghost use Rattle.step_tables.specs.TreeCode.{tree_code};
ghost use Rattle.step_machine.specs.Goes.{may_act, may_do, may_operate};
ghost use Rattle.step_machine.specs.Next.{IsNext, Steps};
ghost use Rattle.step_machine.specs.Rooms.{HasRoom};

use crate::machine_of::Machine;
use cfix_base::{NoMemory, Op};
use std::alloc::Global;
use step_state::{Action, Configuration, Ending, Event, Item, Move, Reduction};
use step_values::reduce;

impl Machine<'_> {
    /// An item of the top frame alone is done.
    #[tactic(auto, using(crate::proofs::Lookups::set_back, crate::proofs::Lookups::top_back))]
    fn reduce(
        &self,
        state: &mut Configuration,
        thread: u32,
        reduction: Reduction,
    ) -> Result<Event, NoMemory>
        requires { IsNext state.old thread (item.Reduce reduction) }
        ensures ok { IfOk result (λ event. Steps (tree_code self.now) state.old thread false state.new event) }
        ensures err { OnErr result (state.new ≡ state.old) }
    {
        let frame = state.threads.at_mut(thread as usize).frames.top_mut();
        match reduce(&self.tables, frame, reduction)? {
            None => Ok(Event::Silent),
            Some(trap) => {
                state.ending = Ending::Trap(trap);
                Ok(Event::Trap(trap))
            }
        }
    }

    /// An inserted operation is done, or times out.
    #[tactic(auto, using(crate::proofs::Modes::not_true, crate::proofs::Modes::in_normal, crate::proofs::Modes::in_timeout))]
    fn operate(
        &self,
        state: &mut Configuration,
        thread: u32,
        timeout: bool,
        op: Op,
    ) -> Result<Event, NoMemory>
        requires next { IsNext state.old thread (item.Op op) }
        requires room { HasRoom state.old }
        requires may { may_operate state.old thread timeout op ≡ true }
        ensures ok { IfOk result (λ event. Steps (tree_code self.now) state.old thread timeout state.new event) }
        ensures err { OnErr result (state.new ≡ state.old) }
    {
        match op {
            Op::Enter(lock) => {
                if timeout {
                    Ok(self.miss_enter(state, thread, lock)?)
                } else {
                    Ok(self.enter(state, thread, lock)?)
                }
            }
            Op::Wait(order) => {
                if timeout {
                    Ok(self.miss_wait(state, thread, order))
                } else {
                    Ok(self.wait(state, thread, order))
                }
            }
            Op::Leave(lock) => Ok(self.leave(state, thread, lock)),
            Op::First(order) => Ok(self.first(state, thread, order)),
            Op::Done(order) => Ok(self.done(state, thread, order)),
            Op::Add(order) => Ok(self.add(state, thread, order)),
        }
    }

    /// An item is done that reads or changes what is outside its frame.
    #[tactic(auto, using(crate::proofs::Modes::is_none, crate::proofs::Modes::not_true, crate::proofs::Modes::both_first, crate::proofs::Modes::both_second))]
    fn act(
        &self,
        alloc: Global,
        state: &mut Configuration,
        thread: u32,
        action: Action,
    ) -> Result<Event, NoMemory>
        requires next { IsNext state.old thread (item.Act action) }
        requires room { HasRoom state.old }
        requires may { may_act state.old thread action ≡ true }
        ensures ok { IfOk result (λ event. Steps (tree_code self.now) state.old thread false state.new event) }
        ensures err { OnErr result (state.new ≡ state.old) }
    {
        match action {
            Action::Get(site) => Ok(self.get(state, thread, site)?),
            Action::GetKeep(site) => Ok(self.get_keep(state, thread, site)?),
            Action::Put(site) => Ok(self.put(state, thread, site)),
            Action::Take => Ok(self.take(state, thread)?),
            Action::Lock(mutex) => Ok(self.lock(state, thread, mutex)),
            Action::Unlock(mutex) => Ok(self.unlock(state, thread, mutex)),
            Action::Create { target, of } => Ok(self.create(alloc, state, thread, target, of)?),
            Action::Join(target) => Ok(self.join(state, thread, target)),
            Action::Print { node, args } => Ok(self.print(alloc, state, thread, node, args)?),
            Action::Call(function) => Ok(self.call(alloc, state, thread, function)?),
            Action::Sleep { cond, mutex } => Ok(self.sleep(state, thread, cond, mutex)?),
            Action::Wake { cond, mutex } => Ok(self.wake(state, thread, cond, mutex)),
            Action::Signal(cond) => Ok(self.signal(state, thread, cond)),
            Action::Broadcast(cond) => Ok(self.broadcast(alloc, state, thread, cond)),
        }
    }

    /// Control goes on.
    fn go(
        &self,
        alloc: Global,
        state: &mut Configuration,
        thread: u32,
        next: Move,
    ) -> Result<Event, NoMemory>
        requires { IsNext state.old thread (item.Go next) }
        ensures ok { IfOk result (λ event. Steps (tree_code self.now) state.old thread false state.new event) }
        ensures err { OnErr result (state.new ≡ state.old) }
    {
        match next {
            Move::Node(node) => Ok(self.begin(alloc, state, thread, node)?),
            Move::Branch(node) => Ok(self.branch(alloc, state, thread, node)?),
            Move::Edge(node) => Ok(self.edge(alloc, state, thread, node)?),
            Move::Exit => Ok(self.exit(state, thread)?),
        }
    }

    /// The next item of the thread is done.
    #[tactic(auto, using(crate::proofs::Modes::not_true, crate::proofs::Modes::both_first, crate::proofs::Modes::both_second))]
    pub(crate) fn make(
        &self,
        alloc: Global,
        state: &mut Configuration,
        thread: u32,
        timeout: bool,
        next: Item,
    ) -> Result<Event, NoMemory>
        requires next { IsNext state.old thread next }
        requires room { HasRoom state.old }
        requires may { may_do state.old thread timeout next ≡ true }
        ensures ok { IfOk result (λ event. Steps (tree_code self.now) state.old thread timeout state.new event) }
        ensures err { OnErr result (state.new ≡ state.old) }
    {
        match next {
            Item::Op(op) => Ok(self.operate(state, thread, timeout, op)?),
            Item::Reduce(reduction) => Ok(self.reduce(state, thread, reduction)?),
            Item::Act(action) => Ok(self.act(alloc, state, thread, action)?),
            Item::Go(next) => Ok(self.go(alloc, state, thread, next)?),
        }
    }
}
