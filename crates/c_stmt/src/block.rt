//! What stands in braces: a block, or a jump with the operations before it.
ghost use Rattle.std.specs.Prelude.{◌≡◌, ◌∷◌, IfOk, drop};
ghost use Rattle.c_raw.specs.Stmts.{stmt_view, item_view, items_view};
ghost use Rattle.c_cursor.specs.Gives.{Gives};
ghost use Rattle.c_stmt.specs.Stmts.{item_at, items_at, other_item_at, int_item_at, ints_block_from, int_block_from, block_from, inside_from, brace_at};

use crate::decl::{Locals, boxed_decl_of, hold_of, locals_of, more_holds_of};
use crate::flat::jumps;
use crate::jump::{bare_block_of, value_block_of};
use crate::stmt::stmt_of;
use crate::test::{begins_decl, begins_item};
use c_cursor::{Cursor, ReadFault};
use c_expr::{is_verb, ops};
use c_grammar::{Sign, Word};
use c_raw::{Decl, Item, Jump, Stmt};
use cfix_base::Spot;
use sqlite_items::{Boxed, Items};
use std::alloc::{AllocError, Global};

fn first_and_more(alloc: Global, first: Item, more: Items<Item>) -> Result<Items<Item>, AllocError>
    ensures { IfOk result (λ items. items ≡ first ∷ more) }
{
    let mut items = Items::new(alloc);
    items.push(first)?;
    items.append(more)?;
    Ok(items)
}

/// An item of a block.
#[cycle(statement)]
#[tactic(auto, unfolding(crate::specs::Stmts::item_at))]
fn item_of(
    cursor: &Cursor<'_>,
    alloc: Global,
    depth: u32,
    at: usize,
) -> Result<(Item, usize), ReadFault>
    ensures { Gives item_view cursor.now.tokens result (item_at depth (drop at cursor.now.tokens)) }
{
    if !begins_decl(cursor, at) {
        let (stmt, at) = stmt_of(cursor, alloc, depth, at)?;
        return Ok((Item::Does(stmt), at));
    }
    let (decl, at) = boxed_decl_of(cursor, alloc, depth, at)?;
    let (end, at) = cursor.sign(Sign::Semicolon, at)?;
    let (ops, at) = ops(cursor, alloc, at)?;
    Ok((Item::Declares { decl, end, ops }, at))
}

/// The items of a block, as long as one begins.
#[cycle(statement)]
pub fn items_of(
    cursor: &Cursor<'_>,
    alloc: Global,
    depth: u32,
    at: usize,
) -> Result<(Items<Item>, usize), ReadFault>
    ensures { Gives items_view cursor.now.tokens result (items_at depth (drop at cursor.now.tokens)) }
{
    let mut items = Items::new(alloc);
    let mut place = at;
    'items: for _ in 0..cursor.left(at) {
        if !begins_item(cursor, place) {
            return Ok((items, place));
        }
        let (item, after) = item_of(cursor, alloc, depth, place)?;
        items.push(item)?;
        place = after;
    }
    Ok((items, place))
}

/// The first item of a block, behind its `int`.
#[tactic(auto, unfolding(crate::specs::Stmts::int_item_at))]
fn int_item_of(
    cursor: &Cursor<'_>,
    alloc: Global,
    depth: u32,
    int: Spot,
    at: usize,
) -> Result<(Item, usize), ReadFault>
    ensures { Gives item_view cursor.now.tokens result (int_item_at depth int (drop at cursor.now.tokens)) }
{
    let (Locals { first, more }, at) = locals_of(cursor, alloc, depth, at)?;
    let decl = Decl::Ints {
        at: int,
        first,
        more,
    };
    let decl = Boxed::new(alloc, decl)?;
    let (end, at) = cursor.sign(Sign::Semicolon, at)?;
    let (ops, at) = ops(cursor, alloc, at)?;
    Ok((Item::Declares { decl, end, ops }, at))
}

/// A block behind its `{` and the `int` of its first item.
#[cycle(statement)]
#[tactic(auto, unfolding(crate::specs::Stmts::ints_block_from, crate::specs::Stmts::items_at))]
fn ints_block_of(
    cursor: &Cursor<'_>,
    alloc: Global,
    depth: u32,
    before: Spot,
    int: Spot,
    at: usize,
) -> Result<(Stmt, usize), ReadFault>
    ensures { Gives stmt_view cursor.now.tokens result (ints_block_from depth before int (drop at cursor.now.tokens)) }
{
    let (first, at) = int_item_of(cursor, alloc, depth, int, at)?;
    let (more, at) = items_of(cursor, alloc, depth, at)?;
    let (after, at) = cursor.sign(Sign::CloseBrace, at)?;
    let items = first_and_more(alloc, first, more)?;
    Ok((
        Stmt::Block {
            before,
            items,
            after,
        },
        at,
    ))
}

/// The first item of a block, which declares no `int`.
#[cycle(statement)]
#[tactic(auto, unfolding(crate::specs::Stmts::other_item_at))]
fn other_item_of(
    cursor: &Cursor<'_>,
    alloc: Global,
    depth: u32,
    at: usize,
) -> Result<(Item, usize), ReadFault>
    ensures { Gives item_view cursor.now.tokens result (other_item_at depth (drop at cursor.now.tokens)) }
{
    if !cursor.is_word(Word::Thread, at) {
        let (stmt, at) = stmt_of(cursor, alloc, depth, at)?;
        return Ok((Item::Does(stmt), at));
    }
    let (thread, at) = cursor.word(Word::Thread, at)?;
    let (first, at) = hold_of(cursor, alloc, at)?;
    let (more, at) = more_holds_of(cursor, alloc, at)?;
    let decl = Boxed::new(
        alloc,
        Decl::Holds {
            at: thread,
            first,
            more,
        },
    )?;
    let (end, at) = cursor.sign(Sign::Semicolon, at)?;
    let (ops, at) = ops(cursor, alloc, at)?;
    Ok((Item::Declares { decl, end, ops }, at))
}

/// A block behind its `{`, which does not go on with an `int`.
#[cycle(statement)]
#[tactic(auto, unfolding(crate::specs::Stmts::block_from))]
fn block_of(
    cursor: &Cursor<'_>,
    alloc: Global,
    depth: u32,
    before: Spot,
    at: usize,
) -> Result<(Stmt, usize), ReadFault>
    ensures { Gives stmt_view cursor.now.tokens result (block_from depth before (drop at cursor.now.tokens)) }
{
    if cursor.is_sign(Sign::CloseBrace, at) {
        let (after, at) = cursor.sign(Sign::CloseBrace, at)?;
        let items = Items::new(alloc);
        return Ok((
            Stmt::Block {
                before,
                items,
                after,
            },
            at,
        ));
    }
    let (first, at) = other_item_of(cursor, alloc, depth, at)?;
    let (more, at) = items_of(cursor, alloc, depth, at)?;
    let (after, at) = cursor.sign(Sign::CloseBrace, at)?;
    let items = first_and_more(alloc, first, more)?;
    Ok((
        Stmt::Block {
            before,
            items,
            after,
        },
        at,
    ))
}

/// A block or a jump block behind its `{`, which goes on with an `int`.
#[cycle(statement)]
#[tactic(auto, unfolding(crate::specs::Stmts::int_block_from))]
fn int_block_of(
    cursor: &Cursor<'_>,
    alloc: Global,
    depth: u32,
    before: Spot,
    at: usize,
) -> Result<(Stmt, usize), ReadFault>
    ensures { Gives stmt_view cursor.now.tokens result (int_block_from depth before (drop at cursor.now.tokens)) }
{
    let (int, at) = cursor.word(Word::Int, at)?;
    if cursor.is_word(Word::Value, at) {
        let (block, at) = value_block_of(cursor, alloc, depth, before, int, at)?;
        let block = Boxed::new(alloc, block)?;
        return Ok((jumps(alloc, Jump::ValueBlock(block))?, at));
    }
    let (stmt, at) = ints_block_of(cursor, alloc, depth, before, int, at)?;
    Ok((stmt, at))
}

/// What stands in braces, from the `{` on.
#[cycle(statement)]
#[tactic(auto, unfolding(crate::specs::Stmts::brace_at, crate::specs::Stmts::inside_from))]
pub(crate) fn brace_of(
    cursor: &Cursor<'_>,
    alloc: Global,
    depth: u32,
    at: usize,
) -> Result<(Stmt, usize), ReadFault>
    ensures { Gives stmt_view cursor.now.tokens result (brace_at depth (drop at cursor.now.tokens)) }
{
    let (before, at) = cursor.sign(Sign::OpenBrace, at)?;
    if is_verb(cursor, at) {
        let (block, at) = bare_block_of(cursor, alloc, before, at)?;
        let block = Boxed::new(alloc, block)?;
        return Ok((jumps(alloc, Jump::BareBlock(block))?, at));
    }
    if cursor.is_word(Word::Int, at) {
        let (stmt, at) = int_block_of(cursor, alloc, depth, before, at)?;
        return Ok((stmt, at));
    }
    let (stmt, at) = block_of(cursor, alloc, depth, before, at)?;
    Ok((stmt, at))
}
