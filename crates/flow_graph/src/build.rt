ghost use Rattle.std.specs.Prelude.{◌≡◌, List, Some, ◌+◌, ◌<◌, ◌≤◌, ◌^◌, ◌++◌, OnOk, IfOk, length};
ghost use Rattle.c_prog.specs.Nodes.{step_nodes};
ghost use Rattle.flow_graph.specs.Flow.{flow, parts_of, size_of, along, first_of, followed_by, in_loop, jump_target, constant, is_zero, is_other, after_way, cond_ways, step_ways, loop_ways, body_ways, graph_of, graphs_of};
ghost use Rattle.flow_graph.specs.Table.{table_ways, table_end};
ghost use Rattle.flow_graph.specs.Counts.{counted, counts_of, Begins};
ghost use Rattle.flow_graph.specs.declared.inner_sizes.InnerSizes.{InnerSizes};

use crate::around::Around;
use crate::counting::{count_all, whole};
use crate::counts::Counts;
use crate::graph::Flow;
use crate::inner_sizes::InnerSizes;
use crate::sizes::{function_size, functions_size, step_size};
use crate::table::{Out, Side, Table, add};
use c_nodes::node_count;
use c_prog::{Cond, Expr, Function, Jump, Program, Step, Stmt};
use cfix_base::{FnId, List, NoMemory};
use std::alloc::Global;

// The first of so many nodes from here on, or what follows them.
fn first_of(count: u32, start: u32, follow: Option<u32>) -> Option<u32>
    ensures { result ≡ first_of count start follow }
{
    if count == 0 { follow } else { Some(start) }
}

fn followed_by(follow: Option<u32>, around: Around) -> Around
    ensures { result ≡ followed_by follow around }
{
    Around {
        follow,
        on_break: around.on_break,
        on_continue: around.on_continue,
    }
}

fn in_loop(again: u32, around: Around) -> Around
    ensures { result ≡ in_loop again around }
{
    Around {
        follow: Some(again),
        on_break: around.follow,
        on_continue: Some(again),
    }
}

fn jump_target(jump: &Jump, around: Around) -> Option<u32>
    ensures { result ≡ jump_target jump.now around }
{
    match jump {
        Jump::Break => around.on_break,
        Jump::Continue => around.on_continue,
        Jump::Return | Jump::ReturnNull | Jump::ReturnValue(_) => None,
    }
}

fn is_zero(cond: &Cond) -> bool
    ensures { result ≡ is_zero (constant cond.now.test) }
{
    match &cond.test {
        Expr::Number(number) => *number == 0,
        _ => false,
    }
}

fn is_other(cond: &Cond) -> bool
    ensures { result ≡ is_other (constant cond.now.test) }
{
    match &cond.test {
        Expr::Number(number) => *number != 0,
        _ => false,
    }
}

fn add_after(table: &mut Table, next: Option<u32>) -> Result<(), NoMemory>
    ensures ways { OnOk result (table_ways table.new ≡ table_ways table.old ++ after_way (table_end table.old) next) }
    ensures last { OnOk result (table_end table.new ≡ table_end table.old + 1) }
    ensures first { OnOk result (table.new.first ≡ table.old.first) }
{
    add(table, Out::After(next))
}

fn add_cond(
    table: &mut Table,
    cond: &Cond,
    on_true: Option<u32>,
    on_false: Option<u32>,
) -> Result<(), NoMemory>
    ensures ways { OnOk result (table_ways table.new ≡ table_ways table.old ++ cond_ways (table_end table.old) cond.now on_true on_false) }
    ensures last { OnOk result (table_end table.new ≡ table_end table.old + 1) }
    ensures first { OnOk result (table.new.first ≡ table.old.first) }
{
    let on_true = Side {
        next: on_true,
        is_dead: is_zero(cond),
    };
    let on_false = Side {
        next: on_false,
        is_dead: is_other(cond),
    };
    add(table, Out::Branch { on_true, on_false })
}

fn add_step(table: &mut Table, step: &Option<Step>, cond: u32) -> Result<(), NoMemory>
    requires { cond + 1 ≡ table_end table.old }
    ensures ways { OnOk result (table_ways table.new ≡ table_ways table.old ++ step_ways step.now cond) }
    ensures last { OnOk result (table_end table.new ≡ table_end table.old + step_nodes step.now) }
    ensures first { OnOk result (table.new.first ≡ table.old.first) }
{
    match step {
        None => Ok(()),
        Some(_) => add_after(table, Some(cond)),
    }
}

// Adds the condition of an `if` whose parts have so many nodes.
fn add_if(
    table: &mut Table,
    cond: &Cond,
    inside: InnerSizes,
    start: u32,
    follow: Option<u32>,
) -> Result<(), NoMemory>
    requires fits { start + 1 + inside.first + inside.second < 2 ^ 32 }
    ensures ways { OnOk result (table_ways table.new ≡ table_ways table.old ++ cond_ways (table_end table.old) cond.now (first_of inside.first (start + 1) follow) (first_of inside.second (start + 1 + inside.first) follow)) }
    ensures last { OnOk result (table_end table.new ≡ table_end table.old + 1) }
    ensures first { OnOk result (table.new.first ≡ table.old.first) }
{
    let first = start + 1;
    let other = first + inside.first;
    let on_true = first_of(inside.first, first, follow);
    let on_false = first_of(inside.second, other, follow);
    add_cond(table, cond, on_true, on_false)
}

// Adds the condition and the step of a loop whose body has so many nodes.
fn add_loop(
    table: &mut Table,
    cond: &Cond,
    step: &Option<Step>,
    count: u32,
    start: u32,
    follow: Option<u32>,
) -> Result<(), NoMemory>
    requires fits { start + 1 + step_nodes step.now + count < 2 ^ 32 }
    requires here { start ≡ table_end table.old }
    ensures ways { OnOk result (table_ways table.new ≡ table_ways table.old ++ (cond_ways start cond.now (first_of count (start + 1 + step_nodes step.now) (Some (start + step_nodes step.now))) follow ++ step_ways step.now start)) }
    ensures last { OnOk result (table_end table.new ≡ start + 1 + step_nodes step.now) }
    ensures first { OnOk result (table.new.first ≡ table.old.first) }
{
    let again = start + step_size(step);
    let on_true = first_of(count, again + 1, Some(again));
    add_cond(table, cond, on_true, follow)?;
    add_step(table, step, start)
}

// What is inside the statement was taken from the counts, which begin with what is inside those in it.
#[cycle(build)]
fn add_stmt(
    table: &mut Table,
    stmt: &Stmt,
    inside: InnerSizes,
    counts: &mut Counts,
    start: u32,
    around: Around,
) -> Result<(), NoMemory>
    requires fits { start + (flow stmt.now).size < 2 ^ 32 }
    requires here { start ≡ table_end table.old }
    requires own { inside ≡ (counted stmt.now).own }
    requires told { Begins (counted stmt.now).within counts.old }
    ensures ways { OnOk result (table_ways table.new ≡ table_ways table.old ++ (flow stmt.now).ways start around) }
    ensures last { OnOk result (table_end table.new ≡ start + (flow stmt.now).size) }
    ensures first { OnOk result (table.new.first ≡ table.old.first) }
    ensures rest { OnOk result ((rest : List InnerSizes) → counts.old ≡ (counted stmt.now).within ++ rest → counts.new ≡ rest) }
{
    match stmt {
        Stmt::Simple { .. } => add_after(table, around.follow),
        Stmt::Jump { jump, .. } => add_after(table, jump_target(jump, around)),
        Stmt::If { cond, yes, no } => {
            let (first, second) = (inside.first, inside.second);
            add_if(table, cond, inside, start, around.follow)?;
            add_all(table, yes.as_slice(), first, counts, start + 1, around)?;
            let other = start + 1 + first;
            add_all(table, no.as_slice(), second, counts, other, around)
        }
        Stmt::Loop { cond, step, body } => {
            let count = inside.first;
            add_loop(table, cond, step, count, start, around.follow)?;
            let again = start + step_size(step);
            let around = in_loop(again, around);
            add_all(table, body.as_slice(), count, counts, again + 1, around)
        }
        Stmt::Block(body) => {
            let count = inside.first;
            add_all(table, body.as_slice(), count, counts, start, around)
        }
    }
}

// The statements have `count` nodes, and the counts begin with what is inside them.
#[cycle(build)]
fn add_all(
    table: &mut Table,
    list: &[Stmt],
    count: u32,
    counts: &mut Counts,
    start: u32,
    around: Around,
) -> Result<(), NoMemory>
    requires fits { start + size_of (parts_of list.now) < 2 ^ 32 }
    requires here { start ≡ table_end table.old }
    requires own { count ≡ size_of (parts_of list.now) }
    requires told { Begins (counts_of list.now) counts.old }
    ensures ways { OnOk result (table_ways table.new ≡ table_ways table.old ++ along (parts_of list.now) start around) }
    ensures last { OnOk result (table_end table.new ≡ start + size_of (parts_of list.now)) }
    ensures first { OnOk result (table.new.first ≡ table.old.first) }
    ensures rest { OnOk result ((rest : List InnerSizes) → counts.old ≡ counts_of list.now ++ rest → counts.new ≡ rest) }
{
    let mut at = start;
    let mut left = count;
    for stmt in list {
        let inside = counts.next();
        let count = whole(stmt, inside);
        let next = at + count;
        left -= count;
        let follow = first_of(left, next, around.follow);
        add_stmt(table, stmt, inside, counts, at, followed_by(follow, around))?;
        at = next;
    }
    Ok(())
}

/// Control flow of the function with this number, from the number of its first node, in a program
/// with so many nodes.
fn function_flow(
    alloc: Global,
    function: &Function,
    number: u32,
    first: u32,
    size: u32,
) -> Result<Flow, NoMemory>
    requires { first + size_of (parts_of function.now.body) ≤ size }
    ensures { IfOk result (λ flow. flow ≡ record { function = number; ways = body_ways number first (parts_of function.now.body); size = size }) }
{
    let outs = List::new(alloc);
    let mut table = Table { first, outs };
    let around = Around {
        follow: None,
        on_break: None,
        on_continue: None,
    };
    let body = function.body.as_slice();
    let mut sizes = List::new(alloc);
    let count = count_all(&mut sizes, body)?;
    let mut counts = Counts::of(sizes);
    add_all(&mut table, body, count, &mut counts, first, around)?;
    let flow = Flow::of(alloc, number, table, size)?;
    Ok(flow)
}

/// Control flow of a function of the program.
pub fn flow(alloc: Global, program: &Program, of: FnId) -> Result<Flow, NoMemory>
    requires { of.number < length program.now.functions }
    ensures { IfOk result (λ flow. flow ≡ graph_of program.now of.number) }
{
    let functions = program.tree().functions.as_slice();
    let place = of.number as usize;
    let first = functions_size(&functions[..place]);
    let flow = function_flow(
        alloc,
        &functions[place],
        of.number,
        first,
        node_count(program),
    )?;
    Ok(flow)
}

/// Control flow of each function of the program, in order, in time linear in the program's nodes.
pub fn flows(alloc: Global, program: &Program) -> Result<List<Flow>, NoMemory>
    ensures { IfOk result (λ flows. flows ≡ graphs_of program.now) }
{
    let functions = program.tree().functions.as_slice();
    let size = node_count(program);
    let mut flows = List::new(alloc);
    let mut first = 0;
    let mut number = 0;
    for function in functions {
        let flow = function_flow(alloc, function, number, first, size)?;
        flows.push(flow)?;
        first += function_size(function);
        number += 1;
    }
    Ok(flows)
}
