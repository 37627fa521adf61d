ghost use Rattle.std.specs.Prelude.{◌≡◌, ◌++◌, ◌∷◌, [], map, OnOk, IfOk, ◌<◌, ◌^◌, length};
ghost use Rattle.c_prog.specs.Calls.{value_callee, act_callee, jump_callee, act_created};
ghost use Rattle.c_prog.specs.Order.{order, order_of, step_order, function_order};
ghost use Rattle.call_graph.specs.Sites.{site, sites_from};

use crate::site::Site;
use c_prog::{Act, Function, Jump, Step, Stmt, Value};
use cfix_base::{FnId, List, NoMemory};
use std::alloc::Global;

fn value_callee(value: &Value) -> Option<FnId>
    ensures { result ≡ value_callee value.now }
{
    match value {
        Value::Expr(_) => None,
        Value::Call(call) => Some(call.of),
    }
}

fn act_callee(act: &Act) -> Option<FnId>
    ensures { result ≡ act_callee act.now }
{
    match act {
        Act::Declare { value, .. } => value_callee(value.as_ref()?),
        Act::Assign { value, .. } => value_callee(value),
        Act::Call(call) => Some(call.of),
        Act::Up(_)
        | Act::Down(_)
        | Act::Create { .. }
        | Act::Join(_)
        | Act::Lock(_)
        | Act::Unlock(_)
        | Act::Print { .. }
        | Act::Scan(_)
        | Act::Wait { .. }
        | Act::Signal(_)
        | Act::Broadcast(_) => None,
    }
}

fn jump_callee(jump: &Jump) -> Option<FnId>
    ensures { result ≡ jump_callee jump.now }
{
    match jump {
        Jump::ReturnValue(value) => value_callee(value),
        Jump::Break | Jump::Continue | Jump::Return | Jump::ReturnNull => None,
    }
}

fn act_created(act: &Act) -> Option<FnId>
    ensures { result ≡ act_created act.now }
{
    match act {
        Act::Create { of, .. } => Some(*of),
        _ => None,
    }
}

fn add_act(sites: &mut List<Site>, of: FnId, act: &Act) -> Result<(), NoMemory>
    ensures { OnOk result (sites.new ≡ sites.old ++ record { of = of; callee = act_callee act.now; created = act_created act.now } ∷ []) }
{
    let callee = act_callee(act);
    let created = act_created(act);
    sites.push(Site {
        of,
        callee,
        created,
    })
}

fn add_call(sites: &mut List<Site>, of: FnId, callee: Option<FnId>) -> Result<(), NoMemory>
    ensures { OnOk result (sites.new ≡ sites.old ++ record { of = of; callee = callee; created = None } ∷ []) }
{
    sites.push(Site {
        of,
        callee,
        created: None,
    })
}

fn add_step(sites: &mut List<Site>, of: FnId, step: &Option<Step>) -> Result<(), NoMemory>
    ensures { OnOk result (sites.new ≡ sites.old ++ map (site of.number) (step_order step.now)) }
{
    match step {
        None => Ok(()),
        Some(step) => add_act(sites, of, &step.act),
    }
}

#[cycle(add)]
fn add_stmt(sites: &mut List<Site>, of: FnId, stmt: &Stmt) -> Result<(), NoMemory>
    ensures { OnOk result (sites.new ≡ sites.old ++ map (site of.number) (order stmt.now)) }
{
    match stmt {
        Stmt::Simple { act, .. } => add_act(sites, of, act),
        Stmt::Jump { jump, .. } => add_call(sites, of, jump_callee(jump)),
        Stmt::If { yes, no, .. } => {
            add_call(sites, of, None)?;
            add_stmts(sites, of, yes.as_slice())?;
            add_stmts(sites, of, no.as_slice())
        }
        Stmt::Loop { step, body, .. } => {
            add_call(sites, of, None)?;
            add_step(sites, of, step)?;
            add_stmts(sites, of, body.as_slice())
        }
        Stmt::Block(body) => add_stmts(sites, of, body.as_slice()),
    }
}

#[cycle(add)]
fn add_stmts(sites: &mut List<Site>, of: FnId, list: &[Stmt]) -> Result<(), NoMemory>
    ensures { OnOk result (sites.new ≡ sites.old ++ map (site of.number) (order_of list.now)) }
{
    for stmt in list {
        add_stmt(sites, of, stmt)?;
    }
    Ok(())
}

/// The nodes of functions by their numbers, function after function.
pub fn sites(alloc: Global, functions: &[Function]) -> Result<List<Site>, NoMemory>
    requires { length functions.now < 2 ^ 32 }
    ensures { IfOk result (λ sites. sites ≡ sites_from 0 functions.now) }
{
    let mut sites = List::new(alloc);
    let mut number = 0;
    for function in functions {
        add_stmts(&mut sites, FnId { number }, function.body.as_slice())?;
        number += 1;
    }
    Ok(sites)
}
