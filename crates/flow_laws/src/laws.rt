ghost use Rattle.std.specs.Prelude.{◌≡◌, ℕ, List, Some, false, slice_get};
ghost use Rattle.c_prog.specs.declared.function.Function.{Function};
ghost use Rattle.c_prog.specs.declared.tree.Tree.{Tree};
ghost use Rattle.c_prog.specs.Valid.{IsValid};
ghost use Rattle.c_prog.specs.Valid.Falls.{falls_through};
ghost use Rattle.flow_graph.specs.Flow.{Edge};
ghost use Rattle.flow_graph.specs.Regions.{InRegion};
ghost use Rattle.flow_laws.specs.OwnPaths.{HasOwnPaths};
ghost use Rattle.flow_laws.specs.RegionEnds.{HasEnds};
ghost use Rattle.flow_laws.specs.Returns.{IsLeftByReturns};

/// The paths of a function are the paths of the whole program from its nodes: control stays in a
/// function but for calls.
pub fn a_function_has_its_own_paths()
    ensures { (tree : Tree) (number : ℕ) (function : Function) → slice_get tree.functions number ≡ Some function → HasOwnPaths tree number function }
{}

/// A region of paths that has a node has np and nc, and each of its nodes is on a way from np to nc.
pub fn a_region_has_its_ends()
    ensures { (edges : List Edge) (np nc n : ℕ) → InRegion false edges np nc n → HasEnds edges np nc n }
{}

/// Control leaves a function whose body does not fall through behind a `return` alone.
pub fn a_body_that_does_not_fall_through_is_left_by_returns()
    ensures { (tree : Tree) (number : ℕ) (function : Function) → IsValid tree → slice_get tree.functions number ≡ Some function → falls_through function.body ≡ false → IsLeftByReturns tree number function }
{}
