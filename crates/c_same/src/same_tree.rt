ghost use Rattle.std.specs.Prelude.{◌≡◌, ◌↔◌, IsTrue, length};

use crate::same_act::same_bytes;
use crate::same_stmt::{same_ops, same_stmts};
use c_prog::{Function, Global, Program, Tree};
use cfix_base::{List, OrderId};

fn same_names(a: &[List<u8>], b: &[List<u8>]) -> bool
    ensures { IsTrue result ↔ (a.now ≡ b.now) }
{
    if a.len() != b.len() {
        return false;
    }
    for i in 0..a.len() {
        if !same_bytes(&a[i], &b[i]) {
            return false;
        }
    }
    true
}

fn same_global(a: &Global, b: &Global) -> bool
    ensures { IsTrue result ↔ (a.now ≡ b.now) }
{
    same_bytes(&a.name, &b.name) && a.kind == b.kind
}

fn same_globals(a: &[Global], b: &[Global]) -> bool
    ensures { IsTrue result ↔ (a.now ≡ b.now) }
{
    if a.len() != b.len() {
        return false;
    }
    for i in 0..a.len() {
        if !same_global(&a[i], &b[i]) {
            return false;
        }
    }
    true
}

fn same_starts(a: &[OrderId], b: &[OrderId]) -> bool
    ensures { IsTrue result ↔ (a.now ≡ b.now) }
{
    if a.len() != b.len() {
        return false;
    }
    for i in 0..a.len() {
        if a[i] != b[i] {
            return false;
        }
    }
    true
}

fn same_function(a: &Function, b: &Function) -> bool
    ensures { IsTrue result ↔ (a.now ≡ b.now) }
{
    same_bytes(&a.name, &b.name)
        && a.kind == b.kind
        && same_names(a.params.as_slice(), b.params.as_slice())
        && same_ops(&a.start, &b.start)
        && same_stmts(a.body.as_slice(), b.body.as_slice())
}

fn same_functions(a: &[Function], b: &[Function]) -> bool
    ensures { IsTrue result ↔ (a.now ≡ b.now) }
{
    if a.len() != b.len() {
        return false;
    }
    for i in 0..a.len() {
        if !same_function(&a[i], &b[i]) {
            return false;
        }
    }
    true
}

fn same_tree(a: &Tree, b: &Tree) -> bool
    ensures { IsTrue result ↔ (a.now ≡ b.now) }
{
    same_globals(a.globals.as_slice(), b.globals.as_slice())
        && same_functions(a.functions.as_slice(), b.functions.as_slice())
        && same_starts(a.starts.as_slice(), b.starts.as_slice())
}

/// Whether two programs are equal.
pub fn same(a: &Program, b: &Program) -> bool
    ensures { IsTrue result ↔ (a.now ≡ b.now) }
{
    same_tree(a.tree(), b.tree())
}
