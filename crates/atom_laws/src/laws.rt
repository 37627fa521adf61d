ghost use Rattle.std.specs.Prelude.{◌≡◌, ◌<◌, ℕ, ℤ, Bool, List, true};
ghost use Rattle.lock_laws.specs.Coverage.{Covers, kept_in};
ghost use Rattle.lock_laws.specs.Guard.{Carries};
ghost use Rattle.step_tables.specs.TreeCode.{tree_code};
ghost use Rattle.layout_laws.specs.TreeLayout.{layout_of};
ghost use Rattle.c_prog.specs.declared.tree.Tree.{Tree};
ghost use Rattle.cfix_base.specs.declared.entry.Entry.{Entry};
ghost use Rattle.cfix_base.specs.declared.access.AccessId.{AccessId};
ghost use Rattle.cfix_base.specs.declared.place.Place.{Place};
ghost use Rattle.flow_graph.specs.Flow.{Edge};
ghost use Rattle.flow_graph.specs.Paths.{Link, Path, Avoids, OnPath};
ghost use Rattle.atom_laws.specs.NextVisit.{Leads};
ghost use Rattle.atom_laws.specs.Violations.{path_start, NoAtomSame, NoAtomLater};

/// In a run without timeouts of a lock that stands on the edges into and out of a set of nodes, but
/// for covered functions, no access at a node of the set is made by another thread between two
/// accesses in one visit of a node of the set.
#[tactic(auto, using(crate::proofs::AtomLaws::no_atom_same))]
pub fn no_violation_in_one_visit()
    ensures { (tree : Tree) (set covered : ℕ → Bool) (k : ℕ) → Carries (tree_code tree) (layout_of tree) (kept_in (layout_of tree) set covered) k → Covers (layout_of tree) set covered → k < (tree_code tree).locks → (np : ℕ) (p d r : AccessId) (p_path d_path : List ℕ) → set np ≡ true → set r.node.number ≡ true → path_start d_path d.node.number ≡ np → (input : List ℤ) (es : List Entry) → NoAtomSame tree np p d r p_path d_path k input es }
{}

/// In such a run, where the set has the nodes of all paths from np to nc, none is made between an
/// access in a visit of np and a later one in another visit, of nc, where neither node's visit begins
/// between the beginnings of the two.
#[tactic(auto, using(crate::proofs::ForcedOrder::no_atom_later))]
pub fn no_violation_to_next_visit()
    ensures { (tree : Tree) (set covered : ℕ → Bool) (k : ℕ) → Carries (tree_code tree) (layout_of tree) (kept_in (layout_of tree) set covered) k → Covers (layout_of tree) set covered → k < (tree_code tree).locks → (edges : List Edge) → ((place : Place) (u v : ℕ) → Leads (tree_code tree) (layout_of tree) place u v → Link edges u v) → (np nc : ℕ) (p d r : AccessId) (p_path d_path inner : List ℕ) → Path edges np inner nc → Avoids np nc inner → ((n : ℕ) → OnPath edges np nc n → set n ≡ true) → set r.node.number ≡ true → path_start d_path d.node.number ≡ nc → (input : List ℤ) (es : List Entry) → NoAtomLater tree np nc p d r p_path d_path k input es }
{}
