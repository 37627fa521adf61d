ghost use Rattle.std.specs.Prelude.{◌≡◌, ◌≤◌, Some, None, true, false, nat_le, drop, length, map, pos, IfOk, OnOk, MatchOption};
ghost use Rattle.c_lex.specs.Meaning.{is_number, decimal};
ghost use Rattle.c_raw.specs.Tokens.{ident_view};
ghost use Rattle.c_raw.specs.Files.{top_view};
ghost use Rattle.c_names.specs.Faults.{noted_all};
ghost use Rattle.c_names.specs.Starts.{digits_number, start_number, start_faults, with_order, starts_of};
ghost use Rattle.c_types.specs.Starting.{place, top_start};

use c_lex::number_value;
use c_names::{Fault, FaultKind};
use c_raw::{Ident, Top};
use c_scope::{note_if, note_reserved};
use cfix_base::{List, MAX_OPERATION_NUMBER, NoMemory, OrderId};
use std::alloc::Global;

fn digits_number(text: &[u8]) -> Option<u32>
    ensures { result ≡ digits_number text.now }
{
    if text.is_empty() {
        return None;
    }
    match number_value(text) {
        None => None,
        Some(number) => Some(number.unsigned_abs()),
    }
}

/// The order that a name begins with a token, as `CFIX_START_3` does order 3.
fn start_number(text: &[u8]) -> Option<u32>
    ensures { result ≡ start_number text.now }
{
    if text.starts_with(b"CFIX_START_") {
        digits_number(&text[11..])
    } else {
        None
    }
}

/// Notes the faults of a defined name as the start of an order, or as a plain name.
#[tactic(auto, using(c_scope::proofs::Faults::faults))]
pub fn note_start(least: &mut Option<Fault>, name: &Ident, value: i32)
    ensures { least.new ≡ noted_all least.old (start_faults (start_number (ident_view name.now).text) (ident_view name.now) value) }
{
    match start_number(name.text.as_slice()) {
        None => note_reserved(least, name),
        Some(order) => {
            note_if(least, !(value == 1), name.spot, FaultKind::WrongUse);
            let is_over = MAX_OPERATION_NUMBER < order;
            note_if(least, is_over, name.spot, FaultKind::Limit);
        }
    }
}

// How many orders stand before the place of a number among orders that rise.
fn place_of(orders: &[OrderId], number: u32) -> usize
    ensures placed { result ≡ place number orders.now }
    ensures within { result ≤ length orders.now }
{
    for (place, order) in orders.iter().enumerate() {
        if number <= order.number {
            return place;
        }
    }
    orders.len()
}

#[tactic(auto, using(crate::proofs::Orders::orders))]
fn add_order(orders: &mut Vec<OrderId>, order: Option<u32>) -> Result<(), NoMemory>
    ensures { OnOk result (orders.new.items ≡ with_order order orders.old.items) }
{
    if let Some(number) = order {
        let place = place_of(orders.as_slice(), number);
        orders.insert(place, OrderId { number })?;
    }
    Ok(())
}

// The order that one part of a file begins with a token.
fn start_of(top: &Top) -> Option<u32>
    ensures { result ≡ top_start (top_view top.now) }
{
    match top {
        Top::Define { defined, .. } => start_number(defined.text.as_slice()),
        _ => None,
    }
}

/// The orders that a file begins with a token, rising. An accepted file has at most 1000.
#[tactic(auto, using(crate::proofs::Orders::orders))]
pub fn starts_of(alloc: Global, tops: &[Top]) -> Result<List<OrderId>, NoMemory>
    ensures { IfOk result (λ orders. orders ≡ starts_of (map top_view tops.now)) }
{
    let mut orders = Vec::new(alloc);
    let mut place = tops.len();
    while place > 0 {
        place -= 1;
        add_order(&mut orders, start_of(&tops[place]))?;
    }
    Ok(List::from_vec(orders))
}
