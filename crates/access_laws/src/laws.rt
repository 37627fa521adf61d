ghost use Rattle.std.specs.Prelude.{◌≡◌, ℤ, List, Some};
ghost use Rattle.cfix_base.specs.declared.access.AccessId.{AccessId};
ghost use Rattle.cfix_base.specs.declared.entry.Entry.{Entry};
ghost use Rattle.c_prog.specs.declared.tree.Tree.{Tree};
ghost use Rattle.step_state.specs.Run.{Seen, run};
ghost use Rattle.step_state.specs.declared.state.Configuration.{Configuration};
ghost use Rattle.step_tables.specs.TreeCode.{tree_code};
ghost use Rattle.frame_laws.specs.Trail.{Every};
ghost use Rattle.access_laws.specs.Access.{ComesIn};

/// In a run of a program each event of an access comes while the top frame of its thread visits the
/// access's node.
#[tactic(auto, using(crate::proofs::AccessVisits::program_accesses))]
pub fn accesses_come_in_visits()
    ensures { (tree : Tree) (input : List ℤ) (entries : List Entry) (steps : List Seen) (last : Configuration) → run (tree_code tree) input entries ≡ Some (steps, last) → (id : AccessId) → Every (ComesIn id) steps }
{}
