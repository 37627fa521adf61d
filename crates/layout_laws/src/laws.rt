ghost use Rattle.c_prog.specs.declared.tree.Tree.{Tree};
ghost use Rattle.step_tables.specs.TreeCode.{tree_code};
ghost use Rattle.layout_laws.specs.Layout.{IsLaidOut};
ghost use Rattle.layout_laws.specs.TreeLayout.{layout_of};

/// What a machine reads of a program has the nodes and places of the program's layout.
pub fn programs_are_laid_out()
    ensures { (tree : Tree) → IsLaidOut (tree_code tree) (layout_of tree) }
{}
