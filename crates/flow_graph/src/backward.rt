ghost use Rattle.std.specs.Prelude.{ℕ, ◌≡◌, ◌+◌, ◌<◌, ◌≤◌, ◌^◌, length, OnOk, IfOk};
ghost use Rattle.std.specs.List.{Contains};
ghost use Rattle.flow_graph.specs.Links.{with_link, listed, Gains, Turned};

use cfix_base::{List, NoMemory};
use std::alloc::Global;

fn add_link(lists: &mut Vec<List<u32>>, place: usize, from: u32) -> Result<(), NoMemory>
    requires { place < length lists.old.items }
    ensures { OnOk result (lists.new.items ≡ with_link lists.old.items place from) }
{
    lists[place].push(from)
}

fn add_links(
    lists: &mut Vec<List<u32>>,
    first: u32,
    from: u32,
    targets: &[u32],
) -> Result<(), NoMemory>
    requires { (v : ℕ) → Contains targets.now v → (first ≤ v) × (v < first + length lists.old.items) }
    ensures { OnOk result (Gains first lists.old.items lists.new.items from targets.now) }
{
    for target in targets {
        let place = (*target - first) as usize;
        add_link(lists, place, from)?;
    }
    Ok(())
}

fn empty_lists(alloc: Global, count: usize) -> Result<Vec<List<u32>>, NoMemory>
    ensures sized { IfOk result (λ lists. length lists.items ≡ count) }
    ensures empty { IfOk result (λ lists. (place u : ℕ) → Contains (listed lists.items place) u → ⊥) }
{
    let mut lists = Vec::new(alloc);
    for _ in 0..count {
        lists.push(List::new(alloc))?;
    }
    Ok(lists)
}

/// The links turned round: for each node those from which a link leads to it. The nodes of the lists
/// count from `first`.
pub fn turned(alloc: Global, lists: &[List<u32>], first: u32) -> Result<Vec<List<u32>>, NoMemory>
    requires fits { first + length lists.now < 2 ^ 32 }
    requires within { (place v : ℕ) → Contains (listed lists.now place) v → (first ≤ v) × (v < first + length lists.now) }
    ensures { IfOk result (λ turned. Turned first (length lists.now) lists.now turned.items) }
{
    let mut turned = empty_lists(alloc, lists.len())?;
    let mut from = first;
    for list in lists {
        add_links(&mut turned, first, from, list.as_slice())?;
        from += 1;
    }
    Ok(turned)
}
