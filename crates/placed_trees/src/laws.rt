ghost use Rattle.std.specs.Prelude.{◌≡◌, ◌+◌, ◌<◌, ℕ, Bool, false, Some, slice_get};
ghost use Rattle.cfix_base.specs.declared.mark.Marks.{Marks};
ghost use Rattle.c_prog.specs.Marks.{tree_marks};
ghost use Rattle.c_prog.specs.Strip.{strip_tree};
ghost use Rattle.c_prog.specs.Valid.{IsValid};
ghost use Rattle.c_prog.specs.declared.tree.Tree.{Tree};
ghost use Rattle.step_tables.specs.TreeCode.{tree_code};
ghost use Rattle.layout_laws.specs.TreeLayout.{layout_of};
ghost use Rattle.lock_laws.specs.Coverage.{kept_in};
ghost use Rattle.lock_laws.specs.Guard.{Carries};
ghost use Rattle.order_laws.specs.OrderRuns.{NoFirst, Starts};
ghost use Rattle.order_laws.specs.Tokens.{CreatesOnce, Signals};
ghost use Rattle.placed_trees.specs.Coming.{IsOrder, RootsUncalled};
ghost use Rattle.placed_trees.specs.Placement.{ClassPlan, OrderPlan, Plan};
ghost use Rattle.placed_trees.specs.TreeOps.{HasNodes, placed_tree};

/// The placed program without its new operations and starts is the program.
#[tactic(auto, using(crate::proofs::StripIs::strip_is))]
pub fn placements_are_stripped()
    ensures { (tree : Tree) (m : Marks) (plan : Plan) → m ≡ tree_marks tree → strip_tree m (placed_tree tree m plan) ≡ tree }
{}

/// In the placed program the lock of each class is entered on the edges into the class and left on
/// those out of it, but for covered functions.
#[tactic(auto, using(crate::proofs::PlacedLaws::lock_placed))]
pub fn locks_are_placed()
    ensures { (tree : Tree) (m : Marks) (plan : Plan) → m ≡ tree_marks tree → HasNodes tree plan → (n : ℕ) (class : ClassPlan) → slice_get plan.classes n ≡ Some class → Carries (tree_code (placed_tree tree m plan)) (layout_of (placed_tree tree m plan)) (kept_in (layout_of (placed_tree tree m plan)) class.nodes class.covered) (m.lock + n) }
{}

/// In the placed program the operations of each order stand as signals from its one node to the other.
pub fn orders_are_placed()
    ensures { (tree : Tree) (m : Marks) (plan : Plan) → m ≡ tree_marks tree → HasNodes tree plan → (n : ℕ) (o : OrderPlan) → slice_get plan.orders n ≡ Some o → IsValid tree → IsOrder tree o → ((f : ℕ) → plan.roots f ≡ (layout_of tree).is_root f) → Signals (tree_code (placed_tree tree m plan)) (layout_of (placed_tree tree m plan)) (m.order + n) o.a o.b o.may (λ u. (layout_of (placed_tree tree m plan)).is_root ((layout_of (placed_tree tree m plan)).function u)) }
{}

/// No operation of an all-before sets its flag.
pub fn all_befores_set_no_flag()
    ensures { (tree : Tree) (m : Marks) (plan : Plan) → m ≡ tree_marks tree → HasNodes tree plan → (n : ℕ) (o : OrderPlan) → slice_get plan.orders n ≡ Some o → o.is_first ≡ false → NoFirst (tree_code (placed_tree tree m plan)) (layout_of (placed_tree tree m plan)) (m.order + n) }
{}

/// An order that the placed program has begins with a token exactly where main may come to its first
/// node.
#[tactic(auto, using(crate::proofs::PlacedLaws::order_begins))]
pub fn orders_begin_with_their_tokens()
    ensures { (tree : Tree) (m : Marks) (plan : Plan) → m ≡ tree_marks tree → HasNodes tree plan → (n : ℕ) (o : OrderPlan) → slice_get plan.orders n ≡ Some o → m.order + n < (tree_code (placed_tree tree m plan)).orders → Starts (tree_code (placed_tree tree m plan)) (m.order + n) o.may }
{}

/// A visit of a node begins with the creation that the node makes, and right operands create nothing.
#[tactic(auto, using(crate::proofs::Creating::creates_once))]
pub fn threads_are_created_once()
    ensures { (tree : Tree) (comes : ℕ → Bool) → CreatesOnce (tree_code tree) (layout_of tree) comes }
{}

/// In a valid program no node calls a function in which a thread begins.
#[tactic(auto, using(crate::proofs::Uncalled::roots_uncalled))]
pub fn no_root_is_called()
    ensures { (tree : Tree) → IsValid tree → RootsUncalled (layout_of tree) }
{}
