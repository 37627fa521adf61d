ghost use Rattle.std.specs.Prelude.{◌≡◌, ℕ, ℤ, Bool, List, [], Some};
ghost use Rattle.cfix_base.specs.declared.mark.Marks.{Marks};
ghost use Rattle.cfix_base.specs.declared.entry.Entry.{Entry};
ghost use Rattle.step_state.specs.Code.{Code};
ghost use Rattle.step_state.specs.declared.state.Configuration.{Configuration};
ghost use Rattle.cfix_base.specs.declared.place.Place.{Place};
ghost use Rattle.lift_laws.specs.Repeated.{Repeated, IsPatched, none_passed};
ghost use Rattle.lift_laws.specs.LiftRun.{AllClear, never};
ghost use Rattle.layout_laws.specs.Layout.{Layout};
ghost use Rattle.cfix_base.specs.declared.op.Op.{Op};
ghost use Rattle.step_state.specs.Run.{Seen, run};
ghost use Rattle.step_state.specs.Start.{start};
ghost use Rattle.step_state.specs.Erase.{strip_code};

/// A source run whose regions stay apart and whose orders are given is the run of the patched
/// program on the lifted schedule without its new operations, of which none times out.
pub fn source_runs_are_repeated()
    ensures { (m : Marks) (q : Code) (y : Layout) (posts pres : Place → List Op) (kept K : ℕ → ℕ → Bool) (al bs : ℕ → ℕ) (comes : ℕ → ℕ → Bool) (root : ℕ → Bool) → IsPatched m q y posts pres kept K al bs comes root → (input : List ℤ) (es : List Entry) (ks : List Seen) (last : Configuration) → run (strip_code m q) input es ≡ Some (ks, last) → AllClear (strip_code m q) K comes bs q.locks q.orders none_passed never [] (start (strip_code m q) input) es → Repeated m q posts pres input es last }
{}
