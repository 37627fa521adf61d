ghost use Rattle.std.specs.Prelude.{◌≡◌, Some, None, true, option_map};
ghost use Rattle.c_prog.specs.Valid.Expressions.{is_int_use, is_thread_use, is_argument, is_mutex, is_cond};
ghost use Rattle.c_names.specs.Uses.{use_of, file_use, kind_of, var_of, local_number, global_number, function_number, is_defined_use, defined_number};
ghost use Rattle.c_names.specs.Expressions.{is_read, is_element, is_cast, is_void_use};
ghost use Rattle.c_names.specs.Simples.{is_thread_function_use};
ghost use Rattle.c_scope.specs.Tables.{names_from, known_of};
ghost use Rattle.c_scope.specs.Views.{kind_view, use_view};

use crate::kind::VarKind;
use crate::scope::Scope;
use crate::table::{Meaning, Row, Table};
use c_prog::{FnKind, Var};
use cfix_base::VarId;

/// What a name stands for at a place.
#[derive(Clone, Copy, Debug, PartialEq, Eq)]
pub enum Use {
    Local {
        number: u32,
        kind: VarKind,
    },
    Global {
        number: u32,
        kind: VarKind,
    },
    Function {
        number: u32,
        kind: FnKind,
        params: usize,
    },
    Defined(i32),
    Unknown,
}

fn file_use(row: Option<Row>) -> Use
    ensures { use_view result ≡ file_use (known_of row).first }
{
    match row {
        None => Use::Unknown,
        Some(row) => match row.first {
            Meaning::Variable { number, kind } => Use::Global { number, kind },
            Meaning::Function {
                number,
                kind,
                params,
            } => Use::Function {
                number,
                kind,
                params,
            },
            Meaning::Number(value) => Use::Defined(value),
        },
    }
}

/// What a name stands for here: a local counts before the names of the file.
pub fn use_of(table: &Table, scope: &Scope, text: &[u8]) -> Use
    ensures { use_view result ≡ use_of (names_from table.now) scope.now text.now }
{
    match scope.find(text) {
        Some(local) => Use::Local {
            number: local.number,
            kind: local.kind,
        },
        None => file_use(table.row(text)),
    }
}

/// The number that a name is defined as in the file.
pub fn defined_number(table: &Table, text: &[u8]) -> Option<i32>
    ensures { result ≡ defined_number (names_from table.now text.now).first }
{
    match table.row(text) {
        Some(
            Row {
                first: Meaning::Number(value),
                ..
            },
        ) => Some(value),
        _ => None,
    }
}

// The kind of the variable, where the name stands for one.
fn kind_of(found: Use) -> Option<VarKind>
    ensures { option_map kind_view result ≡ kind_of (use_view found) }
{
    match found {
        Use::Local { kind, .. } | Use::Global { kind, .. } => Some(kind),
        _ => None,
    }
}

/// An `int` that is no array.
pub fn is_int(found: Use) -> bool
    ensures { result ≡ is_int_use (kind_of (use_view found)) None }
{
    match kind_of(found) {
        Some(VarKind::Int) => true,
        _ => false,
    }
}

/// An array of `int`.
pub fn is_int_array(found: Use) -> bool
    ensures { result ≡ is_int_use (kind_of (use_view found)) (Some true) }
{
    match kind_of(found) {
        Some(VarKind::IntArray) => true,
        _ => false,
    }
}

/// A thread that is no array.
pub fn is_thread(found: Use) -> bool
    ensures { result ≡ is_thread_use (kind_of (use_view found)) None }
{
    match kind_of(found) {
        Some(VarKind::Thread) => true,
        _ => false,
    }
}

/// An array of threads.
pub fn is_thread_array(found: Use) -> bool
    ensures { result ≡ is_thread_use (kind_of (use_view found)) (Some true) }
{
    match kind_of(found) {
        Some(VarKind::ThreadArray) => true,
        _ => false,
    }
}

/// A mutex.
pub fn is_mutex(found: Use) -> bool
    ensures { result ≡ is_mutex (kind_of (use_view found)) }
{
    match kind_of(found) {
        Some(VarKind::Mutex) => true,
        _ => false,
    }
}

/// A condition variable.
pub fn is_cond(found: Use) -> bool
    ensures { result ≡ is_cond (kind_of (use_view found)) }
{
    match kind_of(found) {
        Some(VarKind::Cond) => true,
        _ => false,
    }
}

/// The parameter of a thread function.
pub fn is_cast(found: Use) -> bool
    ensures { result ≡ is_cast (use_view found) }
{
    match kind_of(found) {
        Some(VarKind::Argument) => true,
        _ => false,
    }
}

/// A name that is defined as a number.
pub fn is_defined(found: Use) -> bool
    ensures { result ≡ is_defined_use (use_view found) }
{
    match found {
        Use::Defined(_) => true,
        _ => false,
    }
}

/// What an expression reads without an index: an `int` that is no array, or a defined name.
pub fn is_read(found: Use) -> bool
    ensures { result ≡ is_read (use_view found) }
{
    is_defined(found) || is_int(found)
}

/// What an expression reads with an index.
pub fn is_element(found: Use) -> bool
    ensures { result ≡ is_element (use_view found) }
{
    is_int_array(found)
}

/// The function of a thread.
pub fn is_thread_function(found: Use) -> bool
    ensures { result ≡ is_thread_function_use (use_view found) }
{
    match found {
        Use::Function {
            kind: FnKind::Thread,
            ..
        } => true,
        _ => false,
    }
}

/// A function whose call has no value.
pub fn is_void(found: Use) -> bool
    ensures { result ≡ is_void_use (use_view found) }
{
    match found {
        Use::Function {
            kind: FnKind::Void,
            ..
        } => true,
        _ => false,
    }
}

/// The variable; where the name stands for none, the first local.
pub fn var_of(found: Use) -> Var
    ensures { result ≡ var_of (use_view found) }
{
    match found {
        Use::Local { number, .. } => Var::Local(number),
        Use::Global { number, .. } => Var::Global(VarId { number }),
        _ => Var::Local(0),
    }
}

/// The number of the local, or 0.
pub fn local_number(found: Use) -> u32
    ensures { result ≡ local_number (use_view found) }
{
    match found {
        Use::Local { number, .. } => number,
        _ => 0,
    }
}

/// The number of the global, or 0.
pub fn global_number(found: Use) -> u32
    ensures { result ≡ global_number (use_view found) }
{
    match found {
        Use::Global { number, .. } => number,
        _ => 0,
    }
}

/// The number of the function, or 0.
pub fn function_number(found: Use) -> u32
    ensures { result ≡ function_number (use_view found) }
{
    match found {
        Use::Function { number, .. } => number,
        _ => 0,
    }
}
