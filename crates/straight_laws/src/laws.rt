ghost use Rattle.std.specs.Prelude.{◌≡◌, ◌<◌, ◌-◌, ◌^◌, true, length};
ghost use Rattle.c_prog.specs.Nodes.{tree_nodes};
ghost use Rattle.c_prog.specs.Valid.{IsValid};
ghost use Rattle.c_prog.specs.declared.tree.Tree.{Tree};
ghost use Rattle.straight_laws.specs.Straight.{is_straight};

/// A straight-line program with few enough nodes and variables is valid.
pub fn straight_programs_are_valid()
    ensures { (tree : Tree) → is_straight tree ≡ true → tree_nodes tree < 2 ^ 32 - 1 → length tree.globals < 2 ^ 32 - 1 → IsValid tree }
{}
