ghost use Rattle.std.specs.Prelude.{◌≡◌, ◌≤◌, ◌++◌, ◌+◌, codes, IsTrue, OnOk};
ghost use Rattle.c_print.specs.Table.{named};
ghost use Rattle.c_print.specs.Text.Names.{var_name};
ghost use Rattle.c_print.specs.Text.Expressions.{sign_of, binding, operand, printed, printed_target, expr_text, target_text, index_text, is_zero, thread_argument};
ghost use Rattle.c_print.specs.Written.{opening, closing, negated, combined, index_of};

use crate::names::NameTable;
use crate::pieces::{add, add_name, add_signed};
use c_prog::{BinOp, Expr, Target, Var};
use cfix_base::NoMemory;
use sqlite_items::Boxed;

fn sign(op: BinOp) -> &'static [u8]
    ensures { result.now ≡ sign_of op }
{
    match op {
        BinOp::Add => b"+",
        BinOp::Sub => b"-",
        BinOp::Mul => b"*",
        BinOp::Div => b"/",
        BinOp::Rem => b"%",
        BinOp::Lt => b"<",
        BinOp::Le => b"<=",
        BinOp::Gt => b">",
        BinOp::Ge => b">=",
        BinOp::Eq => b"==",
        BinOp::Ne => b"!=",
        BinOp::And => b"&&",
        BinOp::Or => b"||",
    }
}

/// How tightly an operator binds, from 1 to 6.
fn binding(op: BinOp) -> u32
    ensures same { result ≡ binding op }
    ensures small { result ≤ 6 }
{
    match op {
        BinOp::Or => 1,
        BinOp::And => 2,
        BinOp::Eq | BinOp::Ne => 3,
        BinOp::Lt | BinOp::Le | BinOp::Gt | BinOp::Ge => 4,
        BinOp::Add | BinOp::Sub => 5,
        BinOp::Mul | BinOp::Div | BinOp::Rem => 6,
    }
}

fn add_sign(text: &mut Vec<u8>, op: BinOp) -> Result<(), NoMemory>
    ensures { OnOk result (text.new.items ≡ text.old.items ++ (codes " " ++ sign_of op ++ codes " ")) }
{
    add(text, b" ")?;
    add(text, sign(op))?;
    add(text, b" ")
}

fn add_opening(text: &mut Vec<u8>, binds: u32, least: u32) -> Result<(), NoMemory>
    ensures { OnOk result (text.new.items ≡ text.old.items ++ opening binds least) }
{
    if binds < least {
        add(text, b"(")
    } else {
        Ok(())
    }
}

fn add_closing(text: &mut Vec<u8>, binds: u32, least: u32) -> Result<(), NoMemory>
    ensures { OnOk result (text.new.items ≡ text.old.items ++ closing binds least) }
{
    if binds < least {
        add(text, b")")
    } else {
        Ok(())
    }
}

fn add_var(text: &mut Vec<u8>, names: &NameTable, var: Var) -> Result<(), NoMemory>
    ensures { OnOk result (text.new.items ≡ text.old.items ++ var_name (named names.now) var) }
{
    match var {
        Var::Global(variable) => add_name(text, names.globals.as_slice(), variable.number),
        Var::Local(number) => add_name(text, names.locals.as_slice(), number),
    }
}

fn add_cast(text: &mut Vec<u8>, names: &NameTable, number: u32) -> Result<(), NoMemory>
    ensures { OnOk result (text.new.items
        ≡ text.old.items ++ (codes "(int)(long)" ++ var_name (named names.now) (Var.Local number))) }
{
    add(text, b"(int)(long)")?;
    add_var(text, names, Var::Local(number))
}

/// Adds an expression, in parentheses if it binds less than `least`.
#[cycle(expr)]
pub fn add_operand(
    text: &mut Vec<u8>,
    names: &NameTable,
    expr: &Expr,
    least: u32,
) -> Result<(), NoMemory>
    requires { least ≤ 8 }
    ensures { OnOk result (text.new.items ≡ text.old.items ++ operand least (printed (named names.now) expr.now)) }
{
    match expr {
        Expr::Number(number) => add_signed(text, *number),
        Expr::Read(target) => add_target(text, names, target),
        Expr::Cast(number) => add_cast(text, names, *number),
        Expr::Neg(inner) => add_negated(text, names, inner.get(), least),
        Expr::Not(inner) => add_not(text, names, inner.get()),
        Expr::Binary { op, left, right } => {
            let binds = binding(*op);
            add_opening(text, binds, least)?;
            add_operand(text, names, left.get(), binds)?;
            add_sign(text, *op)?;
            add_operand(text, names, right.get(), binds + 1)?;
            add_closing(text, binds, least)?;
            Ok(())
        }
    }
}

#[cycle(expr)]
fn add_negated(
    text: &mut Vec<u8>,
    names: &NameTable,
    inner: &Expr,
    least: u32,
) -> Result<(), NoMemory>
    ensures { OnOk result (text.new.items ≡ text.old.items ++ operand least (negated (printed (named names.now) inner.now))) }
{
    add_opening(text, 7, least)?;
    add(text, b"-")?;
    add_operand(text, names, inner, 8)?;
    add_closing(text, 7, least)?;
    Ok(())
}

#[cycle(expr)]
fn add_not(text: &mut Vec<u8>, names: &NameTable, inner: &Expr) -> Result<(), NoMemory>
    ensures { OnOk result (text.new.items ≡ text.old.items ++ (codes "!" ++ operand 7 (printed (named names.now) inner.now))) }
{
    add(text, b"!")?;
    add_operand(text, names, inner, 7)
}

/// Adds a variable, or the element of an array.
#[cycle(expr)]
pub fn add_target(text: &mut Vec<u8>, names: &NameTable, target: &Target) -> Result<(), NoMemory>
    ensures { OnOk result (text.new.items ≡ text.old.items ++ target_text (named names.now) target.now) }
{
    add_var(text, names, target.var)?;
    add_index(text, names, &target.index)
}

#[cycle(expr)]
fn add_index(
    text: &mut Vec<u8>,
    names: &NameTable,
    index: &Option<Boxed<Expr>>,
) -> Result<(), NoMemory>
    ensures { OnOk result (text.new.items ≡ text.old.items ++ index_of (named names.now) index.now) }
{
    match index {
        None => Ok(()),
        Some(index) => {
            add(text, b"[")?;
            add_operand(text, names, index.get(), 0)?;
            add(text, b"]")
        }
    }
}

/// Adds an expression.
pub fn add_expr(text: &mut Vec<u8>, names: &NameTable, expr: &Expr) -> Result<(), NoMemory>
    ensures { OnOk result (text.new.items ≡ text.old.items ++ expr_text (named names.now) expr.now) }
{
    add_operand(text, names, expr, 0)
}

fn is_zero(expr: &Expr) -> bool
    ensures { result ≡ is_zero expr.now }
{
    match expr {
        Expr::Number(number) => *number == 0,
        _ => false,
    }
}

/// Adds the argument of a thread that is created.
pub fn add_thread_argument(
    text: &mut Vec<u8>,
    names: &NameTable,
    expr: &Expr,
) -> Result<(), NoMemory>
    ensures { OnOk result (text.new.items ≡ text.old.items ++ thread_argument (named names.now) expr.now) }
{
    if is_zero(expr) {
        return add(text, b"NULL");
    }
    add(text, b"(void *)(long)")?;
    add_operand(text, names, expr, 7)
}
