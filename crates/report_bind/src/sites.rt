ghost use Rattle.std.specs.Prelude.{◌≡◌, ◌&&◌, Some};
ghost use Rattle.c_prog.specs.Lines.{tree_accesses};
ghost use Rattle.report_bind.specs.Sites.{variable_name, same_kind, is_line, is_of, site_of};

use c_prog::{AccessItem, Program};
use c_source::Source;
use cfix_base::{Access, VarId};
use report_json::Site;

fn variable_name(program: &Program, var: VarId) -> &[u8]
    ensures { result.now ≡ variable_name program.now var }
{
    match program.tree().globals.as_slice().get(var.number as usize) {
        Some(global) => global.name.as_slice(),
        None => &[],
    }
}

/// Whether two accesses are both reads, or both writes.
pub fn same_kind(one: Access, other: Access) -> bool
    ensures { result ≡ same_kind one other }
{
    match one {
        Access::Read => match other {
            Access::Read => true,
            Access::Write => false,
        },
        Access::Write => match other {
            Access::Read => false,
            Access::Write => true,
        },
    }
}

// Whether an access is to the variable that a site names, and of its kind.
fn is_of(program: &Program, site: &Site, item: AccessItem) -> bool
    ensures { result ≡ is_of program.now site.now item }
{
    let name = variable_name(program, item.var);
    same_kind(item.access, site.access) && name == site.var.as_slice()
}

// Whether a site means an access that stands on this line.
fn is_meant_on(program: &Program, site: &Site, item: AccessItem, line: u32) -> bool
    ensures { result ≡ (is_line (Some line) site.now.line && is_of program.now site.now item) }
{
    line == site.line && is_of(program, site, item)
}

/// The access that a site means, of all accesses of the program: one pass over them and their lines.
pub fn find_site(source: &Source, site: &Site, items: &[AccessItem]) -> Option<AccessItem>
    requires all { items.now ≡ tree_accesses source.now.tree }
    ensures { result ≡ site_of source.now site.now }
{
    let entries = source.lines().accesses();
    let mut left = site.nth;
    for (place, item) in items.iter().enumerate() {
        if is_meant_on(source.program(), site, *item, entries[place].1) {
            if left == 0 {
                return Some(*item);
            }
            left -= 1;
        }
    }
    None
}
