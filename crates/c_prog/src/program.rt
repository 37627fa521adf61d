ghost use Rattle.std.specs.Prelude.{◌≡◌};
ghost use Rattle.c_prog.specs.Valid.{IsValid};

use crate::tree::Tree;
use std::marker::Model;

/// A valid tree.
#[derive(Drop)]
pub struct Program {
    tree: Tree,
}

impl Model for Program {
    ghost use Rattle.c_prog.specs.declared.tree.Tree.{Tree};

    ghost Value = { Tree };

    ghost use Rattle.c_prog.specs.contracts.tree.Tree as row_of;

    ghost coded = { row_of.the_row.coded };

    ghost use Rattle.c_prog.specs.Valid.{IsValid};

    ghost view = { λ p. p.tree };

    ghost invariant = { λ p. IsValid p.tree };
}

impl Program {
    /// The program that a valid tree is. It takes no memory.
    pub fn of(tree: Tree) -> Program
        requires valid { IsValid tree }
        ensures { result ≡ tree }
    {
        Program { tree }
    }

    /// The tree of the program.
    pub fn tree(&self) -> &Tree
        ensures same { result.now ≡ self.now }
        ensures valid { IsValid result.now }
    {
        &self.tree
    }
}
