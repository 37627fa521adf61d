use crate::act::Act;
use crate::stmt::{Cond, Jump, Step};
use cfix_base::Op;

/// A node, by what it is: a simple statement with the operations behind it, a condition, the step
/// of a `for`, or a jump with the operations behind it.
#[derive(Clone, Copy)]
pub enum NodeView<'a> {
    Act { act: &'a Act, after: &'a [Op] },
    Cond(&'a Cond),
    Step(&'a Step),
    Jump { jump: &'a Jump, after: &'a [Op] },
}
