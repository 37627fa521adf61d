ghost use Rattle.std.specs.Prelude.{◌≡◌, ◌≤◌, ℕ, ℤ, Bool, true, List, Some};
ghost use Rattle.cfix_base.specs.declared.access.AccessId.{AccessId};
ghost use Rattle.cfix_base.specs.declared.entry.Entry.{Entry};
ghost use Rattle.cfix_base.specs.declared.place.Place.{Place};
ghost use Rattle.c_prog.specs.declared.tree.Tree.{Tree};
ghost use Rattle.step_state.specs.Code.{Code};
ghost use Rattle.step_state.specs.Run.{Seen, run};
ghost use Rattle.step_state.specs.declared.state.Configuration.{Configuration};
ghost use Rattle.step_tables.specs.TreeCode.{tree_code};
ghost use Rattle.frame_laws.specs.Trail.{Every};
ghost use Rattle.layout_laws.specs.Layout.{IsLaidOut, Layout};
ghost use Rattle.lock_laws.specs.Guard.{enters};
ghost use Rattle.order_laws.specs.Tokens.{waits};
ghost use Rattle.visit_laws.specs.Unvisited.{IsShut, NoEvent};

/// No run has an event of an access at a node of a set into which no edge leads.
#[tactic(auto, using(crate::proofs::Unvisited::no_access))]
pub fn no_access_in_a_shut_set()
    ensures { (c : Code) (y : Layout) → IsLaidOut c y → (set : ℕ → Bool) → IsShut c y set → (id : AccessId) → set id.node.number ≡ true → (input : List ℤ) (es : List Entry) (steps : List Seen) (last : Configuration) → run c input es ≡ Some (steps, last) → Every (NoEvent id) steps }
{}

/// No operation of a program enters a lock that is not one of its locks.
#[tactic(auto, using(crate::proofs::OpsBelow::no_such_lock))]
pub fn no_entry_beyond_the_locks()
    ensures { (tree : Tree) (k : ℕ) → (tree_code tree).locks ≤ k → (place : Place) → enters k ((tree_code tree).ops place) ≡ 0 }
{}

/// No operation of a program waits for an order that is not one of its orders.
#[tactic(auto, using(crate::proofs::OpsBelow::no_such_order))]
pub fn no_wait_beyond_the_orders()
    ensures { (tree : Tree) (j : ℕ) → (tree_code tree).orders ≤ j → (place : Place) → waits j ((tree_code tree).ops place) ≡ 0 }
{}
