ghost use Rattle.std.specs.Prelude.{◌≡◌, ◌++◌, map, IfOk, OnOk};
ghost use Rattle.c_grammar.specs.Expr.{Name, Index, Cast};
ghost use Rattle.c_raw.specs.Tokens.{ident_view};
ghost use Rattle.c_raw.specs.Exprs.{binary_view, prefix_view, cast_view, expr_view};
ghost use Rattle.c_raw.specs.Simples.{more_view};
ghost use Rattle.c_names.specs.Faults.{noted_all};
ghost use Rattle.c_names.specs.Uses.{use_of, var_of};
ghost use Rattle.c_names.specs.Names.{reserved_faults, use_faults};
ghost use Rattle.c_names.specs.Expressions.{is_element, expr_faults, exprs_faults};
ghost use Rattle.c_names.specs.SpelledExpressions.{op_of, prefixed, read_of, expr_of, exprs_of};
ghost use Rattle.c_names.specs.LinesExpressions.{touch_lines, read_lines, expr_lines, exprs_lines};
ghost use Rattle.c_scope.specs.Tables.{names_from};
ghost use Rattle.c_scope.specs.Views.{use_view};

use crate::walk::Walk;
use c_names::Fault;
use c_prog::{BinOp, Expr, Target, Var};
use c_raw::{Binary, Cast, Ident, Prefix};
use c_scope::{
    Scope, Table, Use, is_cast, is_element, is_read, local_number, note_reserved, note_use, use_of,
    var_of,
};
use cfix_base::{List, NoMemory, Spot};
use sqlite_items::Boxed;
use std::alloc::Global;

fn op_of(op: Binary) -> BinOp
    ensures { result ≡ op_of (binary_view op) }
{
    match op {
        Binary::Or => BinOp::Or,
        Binary::And => BinOp::And,
        Binary::Equal => BinOp::Eq,
        Binary::NotEqual => BinOp::Ne,
        Binary::Less => BinOp::Lt,
        Binary::LessEqual => BinOp::Le,
        Binary::Greater => BinOp::Gt,
        Binary::GreaterEqual => BinOp::Ge,
        Binary::Add => BinOp::Add,
        Binary::Subtract => BinOp::Sub,
        Binary::Multiply => BinOp::Mul,
        Binary::Divide => BinOp::Div,
        Binary::Remainder => BinOp::Rem,
    }
}

fn prefixed(op: Prefix, operand: Boxed<Expr>) -> Expr
    ensures { result ≡ prefixed (prefix_view op) operand }
{
    match op {
        Prefix::Negate => Expr::Neg(operand),
        Prefix::Invert => Expr::Not(operand),
    }
}

fn read_of(found: Use) -> Expr
    ensures { result ≡ read_of (use_view found) }
{
    match found {
        Use::Defined(value) => Expr::Number(value),
        _ => Expr::Read(Target {
            var: var_of(found),
            index: None,
        }),
    }
}

/// Adds the line of an access to the variable, unless it is a local.
pub fn touch(lines: &mut List<u32>, var: Var, spot: Spot) -> Result<(), NoMemory>
    ensures { OnOk result (lines.new ≡ lines.old ++ touch_lines var spot) }
{
    match var {
        Var::Global(_) => lines.push(spot.line),
        Var::Local(_) => Ok(()),
    }
}

fn touch_read(lines: &mut List<u32>, found: Use, spot: Spot) -> Result<(), NoMemory>
    ensures { OnOk result (lines.new ≡ lines.old ++ read_lines (use_view found) spot) }
{
    match found {
        Use::Defined(_) => Ok(()),
        _ => touch(lines, var_of(found), spot),
    }
}

// A name that is read without an index.
#[tactic(auto, using(c_scope::proofs::Faults::faults))]
fn resolve_name(
    names: &Table,
    scope: &Scope,
    walk: &mut Walk,
    name: &Ident,
) -> Result<Expr, NoMemory>
    ensures built { IfOk result (λ e. e ≡ expr_of (names_from names.now) scope.now (Name (ident_view name.now))) }
    ensures noted { OnOk result (walk.new.least ≡ noted_all walk.old.least (expr_faults (names_from names.now) scope.now (Name (ident_view name.now)))) }
    ensures lined { OnOk result (walk.new.lines ≡ walk.old.lines ++ expr_lines (names_from names.now) scope.now (Name (ident_view name.now))) }
{
    let found = use_of(names, scope, name.text.as_slice());
    note_reserved(&mut walk.least, name);
    note_use(&mut walk.least, is_read(found), found, name.spot);
    touch_read(&mut walk.lines, found, name.spot)?;
    Ok(read_of(found))
}

// A name that is read with an index.
#[tactic(auto, using(c_scope::proofs::Faults::faults))]
fn note_element(least: &mut Option<Fault>, names: &Table, scope: &Scope, name: &Ident) -> Var
    ensures var { result ≡ var_of (use_of (names_from names.now) scope.now name.now.text) }
    ensures noted { least.new ≡ noted_all least.old (reserved_faults (ident_view name.now) ++ use_faults (is_element (use_of (names_from names.now) scope.now name.now.text)) (use_of (names_from names.now) scope.now name.now.text) name.now.spot) }
{
    let found = use_of(names, scope, name.text.as_slice());
    note_reserved(least, name);
    note_use(least, is_element(found), found, name.spot);
    var_of(found)
}

#[tactic(auto, using(c_scope::proofs::Faults::faults))]
fn resolve_cast(least: &mut Option<Fault>, names: &Table, scope: &Scope, cast: &Cast) -> Expr
    ensures built { result ≡ expr_of (names_from names.now) scope.now (cast_view cast.now) }
    ensures noted { least.new ≡ noted_all least.old (expr_faults (names_from names.now) scope.now (cast_view cast.now)) }
{
    let name = &cast.name;
    let found = use_of(names, scope, name.text.as_slice());
    note_reserved(least, name);
    note_use(least, is_cast(found), found, name.spot);
    Expr::Cast(local_number(found))
}

/// The expression that a raw expression spells, with its faults and the lines of its accesses.
#[cycle(expr)]
#[tactic(auto, using(c_scope::proofs::Faults::faults))]
pub fn resolve_expr(
    alloc: Global,
    names: &Table,
    scope: &Scope,
    walk: &mut Walk,
    raw: &c_raw::Expr,
) -> Result<Expr, NoMemory>
    ensures built { IfOk result (λ e. e ≡ expr_of (names_from names.now) scope.now (expr_view raw.now)) }
    ensures noted { OnOk result (walk.new.least ≡ noted_all walk.old.least (expr_faults (names_from names.now) scope.now (expr_view raw.now))) }
    ensures lined { OnOk result (walk.new.lines ≡ walk.old.lines ++ expr_lines (names_from names.now) scope.now (expr_view raw.now)) }
{
    match raw {
        c_raw::Expr::Number(number) => Ok(Expr::Number(number.value)),
        c_raw::Expr::Name(name) => resolve_name(names, scope, walk, name),
        c_raw::Expr::Index { name, index, .. } => {
            let var = note_element(&mut walk.least, names, scope, name);
            let index = resolve_boxed(alloc, names, scope, walk, index)?;
            touch(&mut walk.lines, var, name.spot)?;
            let index = Some(index);
            Ok(Expr::Read(Target { var, index }))
        }
        c_raw::Expr::Paren { inside, .. } => resolve_expr(alloc, names, scope, walk, inside.get()),
        c_raw::Expr::Cast(cast) => Ok(resolve_cast(&mut walk.least, names, scope, cast.get())),
        c_raw::Expr::Unary { op, operand, .. } => {
            let operand = resolve_boxed(alloc, names, scope, walk, operand)?;
            Ok(prefixed(*op, operand))
        }
        c_raw::Expr::Operation {
            left,
            op,
            right,
            ..
        } => {
            let left = resolve_boxed(alloc, names, scope, walk, left)?;
            let right = resolve_boxed(alloc, names, scope, walk, right)?;
            let op = op_of(*op);
            Ok(Expr::Binary { op, left, right })
        }
    }
}

#[cycle(expr)]
#[tactic(auto, using(c_scope::proofs::Faults::faults))]
fn resolve_boxed(
    alloc: Global,
    names: &Table,
    scope: &Scope,
    walk: &mut Walk,
    raw: &Boxed<c_raw::Expr>,
) -> Result<Boxed<Expr>, NoMemory>
    ensures built { IfOk result (λ e. e ≡ expr_of (names_from names.now) scope.now (expr_view raw.now)) }
    ensures noted { OnOk result (walk.new.least ≡ noted_all walk.old.least (expr_faults (names_from names.now) scope.now (expr_view raw.now))) }
    ensures lined { OnOk result (walk.new.lines ≡ walk.old.lines ++ expr_lines (names_from names.now) scope.now (expr_view raw.now)) }
{
    let expr = resolve_expr(alloc, names, scope, walk, raw.get())?;
    Ok(Boxed::new(alloc, expr)?)
}

/// Adds expressions, each of which has its comma before it.
#[tactic(auto, using(c_scope::proofs::Faults::faults))]
pub fn push_exprs(
    alloc: Global,
    names: &Table,
    scope: &Scope,
    walk: &mut Walk,
    exprs: &mut List<Expr>,
    more: &[(Spot, c_raw::Expr)],
) -> Result<(), NoMemory>
    ensures built { OnOk result (exprs.new ≡ exprs.old ++ exprs_of (names_from names.now) scope.now (map (λ y. y.1) (more_view more.now))) }
    ensures noted { OnOk result (walk.new.least ≡ noted_all walk.old.least (exprs_faults (names_from names.now) scope.now (map (λ y. y.1) (more_view more.now)))) }
    ensures lined { OnOk result (walk.new.lines ≡ walk.old.lines ++ exprs_lines (names_from names.now) scope.now (map (λ y. y.1) (more_view more.now))) }
{
    for next in more {
        let expr = resolve_expr(alloc, names, scope, walk, &next.1)?;
        exprs.push(expr)?;
    }
    Ok(())
}
