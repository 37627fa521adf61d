ghost use Rattle.std.specs.Prelude.{◌≡◌, ℤ, List};
ghost use Rattle.c_prog.specs.declared.tree.Tree.{Tree};
ghost use Rattle.c_prog.specs.Marks.{tree_marks};
ghost use Rattle.cfix_base.specs.declared.mark.Marks.{Marks};
ghost use Rattle.erase_laws.specs.Repairs.{AddsNothing};
ghost use Rattle.c_prog.specs.Strip.{strip_tree};
ghost use Rattle.cfix_base.specs.declared.entry.Entry.{Entry};
ghost use Rattle.step_state.specs.Code.{Code};
ghost use Rattle.step_state.specs.declared.state.Configuration.{Configuration};
ghost use Rattle.erase_laws.specs.Follows.{StepFollows};
ghost use Rattle.erase_laws.specs.Marked.{IsMarked};
ghost use Rattle.erase_laws.specs.Runs.{Erases};

/// A step of a new operation changes nothing that is not new, and any other step is a step of the
/// program without the new operations.
#[tactic(auto, using(crate::proofs::Strips::step_follows))]
pub fn steps_follow()
    ensures { (m : Marks) (c : Code) → IsMarked m c → (s : Configuration) (e : Entry) → StepFollows m c s e }
{}

/// A run without its new operations is a run of the program without them, and where that could go
/// on the run can go on.
#[tactic(auto, using(crate::proofs::Erased::erases))]
pub fn runs_are_erased()
    ensures { (m : Marks) (c : Code) → IsMarked m c → (input : List ℤ) (es : List Entry) → Erases m c input es }
{}

/// What a program with further operations does is what the program does, and where the program
/// could go on it can go on.
#[tactic(auto, using(crate::proofs::Adds::adds_nothing))]
pub fn operations_add_nothing()
    ensures { (p q : Tree) (m : Marks) → m ≡ tree_marks p → strip_tree m q ≡ p → (input : List ℤ) (es : List Entry) → AddsNothing p q m input es }
{}
