ghost use Rattle.std.specs.Prelude.{◌≡◌, ◌-◌, drop, IfOk};
ghost use Rattle.c_reading.specs.ReadExpr.{operators, name_from};
ghost use Rattle.c_reading.specs.ReadSimple.{target_at};
ghost use Rattle.c_raw.specs.Tokens.{ident_view};
ghost use Rattle.c_raw.specs.Exprs.{expr_view};
ghost use Rattle.c_raw.specs.Simples.{index_view, target_view};
ghost use Rattle.c_cursor.specs.Gives.{Gives};

use crate::expressions::indexed;
use c_cursor::{Cursor, ReadFault};
use c_raw::{Ident, Place, Target};
use cfix_base::{MAX_DEPTH, NoMemory};
use sqlite_items::Boxed;
use std::alloc::Global;

/// The variable or element that a name and the index behind it stand for.
pub(crate) fn target_of(
    alloc: Global,
    name: Ident,
    place: Option<Place>,
) -> Result<Target, NoMemory>
    ensures name { IfOk result (λ t. t.name ≡ name) }
    ensures index { IfOk result (λ t. t.index ≡ place) }
{
    match place {
        None => Ok(Target { name, index: None }),
        Some(place) => {
            let index = Some(Boxed::new(alloc, place)?);
            Ok(Target { name, index })
        }
    }
}

/// A variable, or an element of an array.
pub fn target(
    cursor: &Cursor<'_>,
    alloc: Global,
    depth: u32,
    at: usize,
) -> Result<(Target, usize), ReadFault>
    ensures { Gives target_view cursor.now.tokens result (target_at 200 depth (drop at cursor.now.tokens)) }
{
    let (name, at) = cursor.ident(alloc, at)?;
    let (indexed, at) = indexed(cursor, alloc, depth, MAX_DEPTH, at)?;
    Ok((target_of(alloc, name, indexed.place)?, at))
}
