ghost use Rattle.std.specs.Prelude.{◌≡◌, ◌+◌, ℕ, ℤ, List, Some, slice_get};
ghost use Rattle.cfix_base.specs.declared.access.AccessId.{AccessId};
ghost use Rattle.cfix_base.specs.declared.entry.Entry.{Entry};
ghost use Rattle.cfix_base.specs.declared.mark.Marks.{Marks};
ghost use Rattle.c_prog.specs.Marks.{tree_marks};
ghost use Rattle.c_prog.specs.Valid.{IsValid};
ghost use Rattle.c_prog.specs.declared.tree.Tree.{Tree};
ghost use Rattle.erase_laws.specs.Repairs.{AddsNothing};
ghost use Rattle.placed_trees.specs.Placement.{ClassPlan, OrderPlan, Plan};
ghost use Rattle.placed_trees.specs.TreeOps.{placed_tree};
ghost use Rattle.repair_laws.specs.NoViolations.{NoAtomicityViolation, NoOrderViolation};
ghost use Rattle.repair_laws.specs.Plans.{IsPlan};
ghost use Rattle.repair_laws.specs.Regions.{Region};

/// What the placed program does is what the program does, and where the program could go on it can go
/// on.
#[tactic(auto, using(crate::proofs::Placed::placed_adds_nothing))]
pub fn placed_operations_add_nothing()
    ensures { (tree : Tree) (m : Marks) (plan : Plan) → m ≡ tree_marks tree → (input : List ℤ) (es : List Entry) → AddsNothing tree (placed_tree tree m plan) m input es }
{}

/// No run of the placed program without timeouts of a class's lock has an atomicity violation of a
/// region that the class guards.
#[tactic(auto, using(crate::proofs::Placed::no_atomicity_violation))]
pub fn no_atomicity_violation()
    ensures { (tree : Tree) (m : Marks) (plan : Plan) → m ≡ tree_marks tree → IsPlan tree plan → (n : ℕ) (class : ClassPlan) → slice_get plan.classes n ≡ Some class → (g : Region) (input : List ℤ) (es : List Entry) → NoAtomicityViolation tree (placed_tree tree m plan) class (m.lock + n) g input es }
{}

/// No run of the placed program of a valid one without timeouts of an order has a violation of the
/// order.
#[tactic(auto, using(crate::proofs::Placed::no_order_violation))]
pub fn no_order_violation()
    ensures { (tree : Tree) (m : Marks) (plan : Plan) → m ≡ tree_marks tree → IsPlan tree plan → IsValid tree → (n : ℕ) (o : OrderPlan) → slice_get plan.orders n ≡ Some o → (a b : AccessId) → a.node.number ≡ o.a → b.node.number ≡ o.b → (input : List ℤ) (es : List Entry) → NoOrderViolation tree (placed_tree tree m plan) o (m.order + n) a b input es }
{}
