ghost use Rattle.std.specs.Prelude.{◌<◌, ℕ, ℤ, Bool, List};
ghost use Rattle.lock_laws.specs.Coverage.{Covers, kept_in};
ghost use Rattle.lock_laws.specs.Guard.{Carries};
ghost use Rattle.lock_laws.specs.Inside.{OneInside};
ghost use Rattle.step_tables.specs.TreeCode.{tree_code};
ghost use Rattle.layout_laws.specs.TreeLayout.{layout_of};
ghost use Rattle.c_prog.specs.declared.tree.Tree.{Tree};
ghost use Rattle.cfix_base.specs.declared.entry.Entry.{Entry};

/// In a run without timeouts of a lock that stands on the edges into and out of a set of nodes, but
/// for covered functions, one thread at a time is at nodes of the set.
#[tactic(auto, using(crate::proofs::Inside::inside))]
pub fn one_thread_is_inside()
    ensures { (tree : Tree) (set covered : ℕ → Bool) (k : ℕ) → Carries (tree_code tree) (layout_of tree) (kept_in (layout_of tree) set covered) k → Covers (layout_of tree) set covered → k < (tree_code tree).locks → (input : List ℤ) (es : List Entry) → OneInside tree set covered k input es }
{}
