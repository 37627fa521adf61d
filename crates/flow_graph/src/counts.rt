ghost use Rattle.std.specs.Prelude.{◌≡◌, ◌<◌, ◌∷◌, length};

use crate::inner_sizes::InnerSizes;
use cfix_base::List;
use std::marker::Model;

/// What is inside each of some statements, the next statement first.
#[derive(Drop)]
pub struct Counts {
    stack: Vec<InnerSizes>,
}

impl Model for Counts {
    ghost use Rattle.flow_graph.specs.declared.inner_sizes.InnerSizes.{InnerSizes};
    ghost use Rattle.std.specs.Prelude.{List, reverse};

    ghost Value = { List InnerSizes };

    ghost view = { λ counts. reverse counts.stack.items };
}

impl Counts {
    /// What is inside these statements. It takes no memory.
    pub fn of(sizes: List<InnerSizes>) -> Counts
        ensures { result ≡ sizes }
    {
        let mut stack = sizes.into_vec();
        stack.reverse();
        Counts { stack }
    }

    /// What is inside the next statement.
    pub fn next(&mut self) -> InnerSizes
        requires { 0 < length self.old }
        ensures { self.old ≡ result ∷ self.new }
    {
        self.stack.pop().unwrap()
    }
}
