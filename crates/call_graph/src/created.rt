ghost use Rattle.std.specs.Prelude.{◌≡◌, length, IfOk};
ghost use Rattle.call_graph.specs.Kept.{HasCreated, with_created};

use crate::site::Site;
use cfix_base::{FnId, NoMemory};
use plan_types::FnSet;
use std::alloc::Global;

// Adds the function whose thread a node creates.
fn add_created(set: &mut FnSet, created: Option<FnId>)
    ensures { set.new ≡ with_created set.old created }
{
    if let Some(created) = created {
        if created.number < set.size() {
            set.insert(created);
        }
    }
}

/// The functions, of so many, whose threads nodes create.
pub fn created(alloc: Global, sites: &[Site], functions: u32) -> Result<FnSet, NoMemory>
    ensures sized { IfOk result (λ set. length set ≡ functions) }
    ensures kept { IfOk result (λ set. HasCreated sites.now set) }
{
    let mut set = FnSet::empty(alloc, functions)?;
    for site in sites {
        add_created(&mut set, site.created);
    }
    Ok(set)
}
