ghost use Rattle.std.specs.Prelude.{◌≡◌};
ghost use Rattle.first_form.specs.Straight.{in_region, inside};

/// The nodes of a critical region with its guard: one or two nodes of main.
#[derive(Clone, Copy, Debug, PartialEq, Eq)]
pub struct Region {
    pub here: u32,
    pub there: u32,
}

fn in_region(region: Region, node: usize) -> bool
    ensures { result ≡ in_region region.here region.there node }
{
    node == region.here as usize || node == region.there as usize
}

/// Whether the node is in the region, if there is one.
pub fn is_inside(region: Option<Region>, node: usize) -> bool
    ensures { result ≡ inside region node }
{
    match region {
        None => false,
        Some(region) => in_region(region, node),
    }
}
