ghost use Rattle.std.specs.Prelude.{◌<◌, ℕ, ℤ, Bool, List};
ghost use Rattle.step_tables.specs.TreeCode.{tree_code};
ghost use Rattle.layout_laws.specs.TreeLayout.{layout_of};
ghost use Rattle.c_prog.specs.declared.tree.Tree.{Tree};
ghost use Rattle.cfix_base.specs.declared.entry.Entry.{Entry};
ghost use Rattle.cfix_base.specs.declared.access.AccessId.{AccessId};
ghost use Rattle.order_laws.specs.OrderRuns.{Starts, NoFirst, IsCertain, NoAllBefore, NoFirstBefore, FlagMeans};
ghost use Rattle.order_laws.specs.OrderEnds.{IsFirsted, EndSets};
ghost use Rattle.order_laws.specs.TokenRuns.{CountedRun};
ghost use Rattle.order_laws.specs.Tokens.{Signals, CreatesOnce};

/// In a run from the start without timeouts of an order no event of the one access comes after an event of the
/// other, where the operations of the order stand as signals from the one node to the other.
pub fn no_all_before_violation()
    ensures { (tree : Tree) (a b : AccessId) (j : ℕ) (comes root : ℕ → Bool) → Signals (tree_code tree) (layout_of tree) j a.node.number b.node.number comes root → CreatesOnce (tree_code tree) (layout_of tree) comes → Starts (tree_code tree) j comes → NoFirst (tree_code tree) (layout_of tree) j → (input : List ℤ) (es : List Entry) → NoAllBefore (tree_code tree) j a b input es }
{}

/// In a run from the start without timeouts of an order no event of the one access comes after an event of the
/// other before which none of the one stands, where each visit of its node makes the one access.
pub fn no_first_before_violation()
    ensures { (tree : Tree) (a b : AccessId) (j : ℕ) (comes root : ℕ → Bool) → Signals (tree_code tree) (layout_of tree) j a.node.number b.node.number comes root → CreatesOnce (tree_code tree) (layout_of tree) comes → Starts (tree_code tree) j comes → IsCertain (tree_code tree) a → (input : List ℤ) (es : List Entry) → NoFirstBefore (tree_code tree) j a b input es }
{}

/// After each run from the start the tokens of an order are what all frames owe, and where there
/// are none, none come.
pub fn tokens_are_counted()
    ensures { (tree : Tree) (j a b : ℕ) (comes root : ℕ → Bool) → Signals (tree_code tree) (layout_of tree) j a b comes root → CreatesOnce (tree_code tree) (layout_of tree) comes → Starts (tree_code tree) j comes → (input : List ℤ) (es : List Entry) → CountedRun (tree_code tree) (layout_of tree) j comes root input es }
{}

/// In a run from the start without timeouts of an order its flag is set only where a visit of the
/// one node has ended, and an event of its access was made before that.
pub fn flag_tells()
    ensures { (tree : Tree) (a b : AccessId) (j : ℕ) (comes root : ℕ → Bool) → Signals (tree_code tree) (layout_of tree) j a.node.number b.node.number comes root → CreatesOnce (tree_code tree) (layout_of tree) comes → Starts (tree_code tree) j comes → IsCertain (tree_code tree) a → (input : List ℤ) (es : List Entry) → FlagMeans (tree_code tree) j a input es }
{}

/// In a run from the start, once a visit of the one node has ended, the flag of the order is set,
/// or its first is pending at the top of a thread.
pub fn ended_visits_set_flags()
    ensures { (tree : Tree) (j a : ℕ) → IsFirsted (tree_code tree) (layout_of tree) j a → j < (tree_code tree).orders → (input : List ℤ) (es : List Entry) → EndSets (tree_code tree) j a input es }
{}
