ghost use Rattle.std.specs.Prelude.{◌≡◌, [], ◌+◌, ◌<◌, ◌^◌, ◌∷◌, ◌++◌, length, slice_set, OnOk, IfOk};
ghost use Rattle.flow_graph.specs.Flow.{flow, parts_of, size_of};
ghost use Rattle.flow_graph.specs.Counts.{counted, counts_of};

use crate::inner_sizes::InnerSizes;
use crate::sizes::step_size;
use c_prog::Stmt;
use cfix_base::{List, NoMemory};

// Keeps a place for what is inside a statement, and tells it.
fn keep(sizes: &mut List<InnerSizes>) -> Result<usize, NoMemory>
    ensures place { IfOk result (λ place. place ≡ length sizes.old) }
    ensures kept { OnOk result (sizes.new ≡ sizes.old ++ record { first = 0; second = 0 } ∷ []) }
{
    let place = sizes.len();
    sizes.push(InnerSizes {
        first: 0,
        second: 0,
    })?;
    Ok(place)
}

// Puts what is inside a statement at the place that was kept for it.
fn settle(sizes: &mut List<InnerSizes>, place: usize, first: u32, second: u32)
    requires { place < length sizes.old }
    ensures { sizes.new ≡ slice_set sizes.old place (record { first = first; second = second }) }
{
    sizes.set(place, InnerSizes { first, second });
}

/// Adds what is inside a statement, and inside each statement in it. The answer is the number of its
/// nodes.
#[cycle(count)]
fn count(sizes: &mut List<InnerSizes>, stmt: &Stmt) -> Result<u32, NoMemory>
    requires { (flow stmt.now).size < 2 ^ 32 }
    ensures size { IfOk result (λ size. size ≡ (flow stmt.now).size) }
    ensures counts { OnOk result (sizes.new ≡ sizes.old ++ (counted stmt.now).own ∷ (counted stmt.now).within) }
{
    let place = keep(sizes)?;
    match stmt {
        Stmt::Simple { .. } | Stmt::Jump { .. } => Ok(1),
        Stmt::If { yes, no, .. } => {
            let first = count_all(sizes, yes.as_slice())?;
            let second = count_all(sizes, no.as_slice())?;
            settle(sizes, place, first, second);
            Ok(1 + first + second)
        }
        Stmt::Loop { step, body, .. } => {
            let first = count_all(sizes, body.as_slice())?;
            settle(sizes, place, first, 0);
            Ok(1 + step_size(step) + first)
        }
        Stmt::Block(body) => {
            let first = count_all(sizes, body.as_slice())?;
            settle(sizes, place, first, 0);
            Ok(first)
        }
    }
}

/// The same of statements, one after another.
#[cycle(count)]
pub fn count_all(sizes: &mut List<InnerSizes>, list: &[Stmt]) -> Result<u32, NoMemory>
    requires { size_of (parts_of list.now) < 2 ^ 32 }
    ensures size { IfOk result (λ size. size ≡ size_of (parts_of list.now)) }
    ensures counts { OnOk result (sizes.new ≡ sizes.old ++ counts_of list.now) }
{
    let mut size = 0;
    for stmt in list {
        size += count(sizes, stmt)?;
    }
    Ok(size)
}

/// The number of nodes of a statement, from what is inside it.
pub fn whole(stmt: &Stmt, inside: InnerSizes) -> u32
    requires fits { (flow stmt.now).size < 2 ^ 32 }
    requires told { inside ≡ (counted stmt.now).own }
    ensures { result ≡ (flow stmt.now).size }
{
    match stmt {
        Stmt::Simple { .. } | Stmt::Jump { .. } => 1,
        Stmt::If { .. } => 1 + inside.first + inside.second,
        Stmt::Loop { step, .. } => 1 + step_size(step) + inside.first,
        Stmt::Block(_) => inside.first,
    }
}
