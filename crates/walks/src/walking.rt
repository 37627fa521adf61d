ghost use Rattle.std.specs.Prelude.{ℕ, ◌≡◌, ◌<◌, ◌∷◌, [], length, OnOk, IfOk};
ghost use Rattle.std.specs.List.{Contains};
ghost use Rattle.walks.specs.Walks.{Grows, IsWalk, targets_in};

use cfix_base::{List, NoMemory};
use plan_types::NumberSet;
use std::alloc::Global;

// Meets a node: finds it, and goes on from it later if it is new and not avoided.
fn meet(
    node: u32,
    avoiding: &NumberSet,
    found: &mut NumberSet,
    work: &mut Vec<u32>,
) -> Result<(), NoMemory>
    requires { node < length found.old }
    ensures { OnOk result (Grows avoiding.now (node ∷ []) found.old work.old.items found.new work.new.items) }
{
    if found.contains(node) {
        return Ok(());
    }
    found.insert(node);
    if avoiding.contains(node) {
        return Ok(());
    }
    work.push(node)?;
    Ok(())
}

fn follow(
    targets: &[u32],
    avoiding: &NumberSet,
    found: &mut NumberSet,
    work: &mut Vec<u32>,
) -> Result<(), NoMemory>
    requires { (v : ℕ) → Contains targets.now v → v < length found.old }
    ensures { OnOk result (Grows avoiding.now targets.now found.old work.old.items found.new work.new.items) }
{
    for target in targets {
        meet(*target, avoiding, found, work)?;
    }
    Ok(())
}

fn targets_in(lists: &[List<u32>], first: u32, node: u32) -> &[u32]
    ensures { result.now ≡ targets_in lists.now first node }
{
    if node < first {
        return &[];
    }
    match lists.get((node - first) as usize) {
        None => &[],
        Some(list) => list.as_slice(),
    }
}

/// The nodes at the ends of chains of links from the starts whose inner nodes are not avoided. The
/// nodes of the lists count from `first`. A node is gone on from once when it is found, and a start
/// once more.
pub fn walk(
    alloc: Global,
    lists: &[List<u32>],
    first: u32,
    size: u32,
    starts: Vec<u32>,
    avoiding: &NumberSet,
) -> Result<NumberSet, NoMemory>
    requires { (u v : ℕ) → Contains (targets_in lists.now first u) v → v < size }
    ensures { IfOk result (λ set. IsWalk (targets_in lists.now first) avoiding.now starts.items size set) }
{
    let mut found = NumberSet::empty(alloc, size)?;
    let mut work = starts;
    while let Some(node) = work.pop() {
        follow(
            targets_in(lists, first, node),
            avoiding,
            &mut found,
            &mut work,
        )?;
    }
    Ok(found)
}
