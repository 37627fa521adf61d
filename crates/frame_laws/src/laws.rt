ghost use Rattle.std.specs.Prelude.{◌≡◌, ◌++◌, List, Some};
ghost use Rattle.cfix_base.specs.declared.entry.Entry.{Entry};
ghost use Rattle.step_state.specs.Code.{Code};
ghost use Rattle.step_state.specs.Run.{Seen, run_from};
ghost use Rattle.step_state.specs.declared.state.Configuration.{Configuration};
ghost use Rattle.frame_laws.specs.Trail.{Moment, Trail, entries};

/// The steps of a run lead from the configuration that it begins with to its last one.
#[tactic(auto, using(crate::proofs::Trails::run_trail))]
pub fn runs_are_trails()
    ensures { (c : Code) (es : List Entry) (s : Configuration) (ms : List Seen) (last : Configuration) → run_from c s es ≡ Some (ms, last) → Trail c s ms last }
{}

/// Steps that lead from one configuration to another are the run of their entries.
#[tactic(auto, using(crate::proofs::Trails::trail_run))]
pub fn trails_are_runs()
    ensures { (c : Code) (ms : List Seen) (s last : Configuration) → Trail c s ms last → run_from c s (entries ms) ≡ Some (ms, last) }
{}

/// Between any two parts of a run there is a configuration to which the first part leads, and from
/// which the second part does.
#[tactic(auto, using(crate::proofs::Trails::trail_split))]
pub fn trails_split()
    ensures { (c : Code) (a b : List Seen) (s last : Configuration) → Trail c s (a ++ b) last → Moment c s a b last }
{}
