ghost use Rattle.std.specs.Prelude.{◌≡◌, ◌++◌, false, IfOk, OnOk, OnErr};
ghost use Rattle.step_state.specs.declared.item.Item.TheVariants as item;
ghost use Rattle.step_state.specs.declared.item.Action.TheVariants as action;
ghost use Rattle.step_tables.specs.TreeCode.{tree_code};
ghost use Rattle.step_machine.specs.Next.{IsNext, Steps};

use crate::machine_of::Machine;
use crate::next::top_frame;
use cfix_base::{List, NoMemory, NodeId};
use std::alloc::Global;
use std::mem;
use step_state::{Configuration, Event};
use step_values::{pop_item, printed};

/// Adds bytes to the output. After an error it is as before.
fn append(alloc: Global, output: &mut List<u8>, bytes: &[u8]) -> Result<(), NoMemory>
    ensures ok { OnOk result (output.new ≡ output.old ++ bytes.now) }
    ensures err { OnErr result (output.new ≡ output.old) }
{
    let mut all = mem::replace(output, List::new(alloc)).into_vec();
    let added = all.extend_from_slice(bytes);
    *output = List::from_vec(all);
    added?;
    Ok(())
}

impl Machine<'_> {
    /// A text is printed with the last values of the thread's top frame.
    #[tactic(auto, using(crate::proofs::Lookups::set_back, crate::proofs::Lookups::top_back))]
    pub(crate) fn print(
        &self,
        alloc: Global,
        state: &mut Configuration,
        thread: u32,
        node: NodeId,
        args: usize,
    ) -> Result<Event, NoMemory>
        requires { IsNext state.old thread (item.Act (action.Print node args)) }
        ensures ok { IfOk result (λ event. Steps (tree_code self.now) state.old thread false state.new event) }
        ensures err { OnErr result (state.new ≡ state.old) }
    {
        let values = top_frame(state, thread).values.last(args);
        let bytes = printed(alloc, self.tables.text(node), values)?;
        append(alloc, &mut state.output, &bytes)?;
        let frame = state.threads.at_mut(thread as usize).frames.top_mut();
        frame.values.remove(args);
        pop_item(frame);
        Ok(Event::Print(List::from_vec(bytes)))
    }
}
