ghost use Rattle.std.specs.Prelude.{◌≡◌, ◌<◌, ◌↔◌, ℕ, false, slice_get, Some, IsSome};
ghost use Rattle.cfix_base.specs.declared.mark.Marks.{Marks};
ghost use Rattle.cfix_base.specs.declared.number.NodeId.{NodeId};
ghost use Rattle.c_prog.specs.Accesses.{accesses};
ghost use Rattle.c_prog.specs.Marks.{all_new};
ghost use Rattle.c_prog.specs.Nodes.{tree_nodes};
ghost use Rattle.c_prog.specs.Order.{node_at};
ghost use Rattle.c_prog.specs.Patched.{tree_patched};
ghost use Rattle.c_prog.specs.Strip.{strip_tree};
ghost use Rattle.c_prog.specs.declared.access_item.AccessItem.{AccessItem};
ghost use Rattle.c_prog.specs.declared.tree.Tree.{Tree};
ghost use Rattle.prog_laws.specs.Bare.{IsBare};

/// The numbers of nodes have no gap: those below the number of nodes are each the number of a node,
/// and no others are.
pub fn node_numbers_have_no_gap()
    ensures { (tree : Tree) (number : ℕ) → IsSome (node_at tree number) ↔ (number < tree_nodes tree) }
{}

/// The accesses of a node have its number, and count from 0 in their order.
pub fn accesses_count_from_zero()
    ensures { (tree : Tree) (node : NodeId) (place : ℕ) (item : AccessItem) → slice_get (accesses tree node) place ≡ Some item
        → item.id ≡ record { node = node; index = place } }
{}

/// To strip a program twice is to strip it once.
pub fn stripping_twice_is_stripping_once()
    ensures { (m : Marks) (tree : Tree) → strip_tree m (strip_tree m tree) ≡ strip_tree m tree }
{}

/// A program without all operations from the marks 0 and 0 on has no operation at any place, and no
/// order that begins with a token.
pub fn a_stripped_program_has_no_operation()
    ensures { (tree : Tree) → IsBare (strip_tree all_new tree) }
{}

/// A program is not patched exactly where no operation stands at any of its places, and no order
/// begins with a token.
pub fn a_program_is_patched_where_an_operation_stands()
    ensures { (tree : Tree) → (tree_patched tree ≡ false) ↔ IsBare tree }
{}

/// A stripped program has as many nodes as before.
pub fn stripping_keeps_the_nodes()
    ensures { (m : Marks) (tree : Tree) → tree_nodes (strip_tree m tree) ≡ tree_nodes tree }
{}

/// Each node of a stripped program makes the accesses that it made before.
pub fn stripping_keeps_the_accesses()
    ensures { (m : Marks) (tree : Tree) (node : NodeId) → accesses (strip_tree m tree) node ≡ accesses tree node }
{}
