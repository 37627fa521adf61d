ghost use Rattle.std.specs.Prelude.{◌≡◌, ◌++◌, ℕ, ℤ, true, false, List, None, Some};
ghost use Rattle.cfix_base.specs.declared.entry.Entry.{Entry};
ghost use Rattle.c_prog.specs.declared.tree.Tree.{Tree};
ghost use Rattle.step_state.specs.Code.{Code};
ghost use Rattle.step_state.specs.Reads.{frame_from_bottom};
ghost use Rattle.step_state.specs.Run.{Seen, next_node, run, run_from};
ghost use Rattle.step_state.specs.Step.{step};
ghost use Rattle.step_state.specs.declared.event.Event.{Event};
ghost use Rattle.step_state.specs.declared.frame.Frame.{Frame};
ghost use Rattle.step_state.specs.declared.state.Configuration.{Configuration};
ghost use Rattle.step_tables.specs.TreeCode.{next_of, tree_code};
ghost use Rattle.step_laws.specs.Edges.{AreOnEdges, node_if};
ghost use Rattle.step_laws.specs.Runs.{then_run};

/// In each configuration that a run comes to, each frame is in a visit, or on the edge of the place
/// that it passed last.
pub fn frames_are_on_edges()
    ensures { (c : Code) (input : List ℤ) (entries : List Entry) (steps : List Seen) (last : Configuration) → run c input entries ≡ Some (steps, last) → AreOnEdges c last }
{}

/// In each configuration that a run of a program comes to, what a frame that is in no visit begins
/// next is what control meets after the place that it passed last.
#[tactic(auto, using(crate::proofs::Edges::goes_along))]
pub fn control_goes_along_edges()
    ensures { (tree : Tree) (input : List ℤ) (entries : List Entry) (steps : List Seen) (s : Configuration) → run (tree_code tree) input entries ≡ Some (steps, s) → (t at : ℕ) (f : Frame) → frame_from_bottom s t at ≡ Some f → f.visit ≡ None → next_node f.work ≡ node_if (next_of tree f.last) }
{}

/// A run of one schedule after another is a run of the first, and then one of the second from where
/// the first ended.
#[tactic(auto, using(crate::proofs::Appends::run_append))]
pub fn runs_follow_each_other()
    ensures { (c : Code) (s : Configuration) (first second : List Entry) → run_from c s (first ++ second) ≡ then_run (run_from c s first) (λ next. run_from c next second) }
{}

/// A thread goes on in at most one mode: its entry times out only where it makes no step without a
/// timeout.
#[tactic(auto, using(crate::proofs::Modes::one_mode))]
pub fn threads_go_in_one_mode()
    ensures { (c : Code) (s : Configuration) (t : ℕ) (next : Configuration) (event : Event) → step c s (record { thread = t; timeout = false }) ≡ Some (next, event) → step c s (record { thread = t; timeout = true }) ≡ None }
{}
