ghost use Rattle.std.specs.Prelude.{◌≡◌, ◌∷◌, ◌++◌, codes, map, true, OnOk};
ghost use Rattle.std.specs.Str.{bytes_eq};
ghost use Rattle.c_prog.specs.Order.{joined};
ghost use Rattle.c_prog.specs.Patched.{has_some};
ghost use Rattle.c_print.specs.Text.Canonical.{start_line, global_text, global_line, params_text, head_text, head_of, prototype_lines};
ghost use Rattle.c_print.specs.Text.Names.{name_at};
ghost use Rattle.c_print.specs.Text.Pieces.{closed, in_parentheses, text_of};
ghost use Rattle.c_print.specs.Written.{own_with, header_text, gap};

use crate::pieces::{add, add_length, add_name, add_number, add_signed};
use c_prog::{FnKind, Function, Global as Variable, GlobalKind};
use cfix_base::{List, NoMemory, OrderId};

fn add_start(text: &mut Vec<u8>, order: OrderId) -> Result<(), NoMemory>
    ensures { OnOk result (text.new.items ≡ text.old.items ++ closed (start_line order)) }
{
    add(text, b"#define CFIX_START_")?;
    add_number(text, order.number)?;
    add(text, b" 1\n")?;
    Ok(())
}

fn add_starts(text: &mut Vec<u8>, starts: &[OrderId]) -> Result<(), NoMemory>
    ensures { OnOk result (text.new.items ≡ text.old.items ++ text_of (map start_line starts.now)) }
{
    for order in starts {
        add_start(text, *order)?;
    }
    Ok(())
}

fn add_included(text: &mut Vec<u8>, starts: &[OrderId]) -> Result<(), NoMemory>
    ensures { OnOk result (text.new.items ≡ text.old.items ++ text_of (own_with true starts.now)) }
{
    add_starts(text, starts)?;
    add(text, b"#include \"cfix.h\"\n")?;
    Ok(())
}

fn add_own_lines(text: &mut Vec<u8>, patched: bool, starts: &[OrderId]) -> Result<(), NoMemory>
    ensures { OnOk result (text.new.items ≡ text.old.items ++ text_of (own_with patched starts.now)) }
{
    if patched {
        add_included(text, starts)
    } else {
        Ok(())
    }
}

/// Adds the header of a program, with what it includes where it has an operation or a start.
pub fn add_header(text: &mut Vec<u8>, patched: bool, starts: &[OrderId]) -> Result<(), NoMemory>
    ensures { OnOk result (text.new.items ≡ text.old.items ++ header_text patched starts.now) }
{
    add(text, b"#include <pthread.h>\n#include <stdio.h>\n")?;
    add_own_lines(text, patched, starts)?;
    add(text, b"\n")?;
    Ok(())
}

/// Adds a name between two texts.
fn add_around(text: &mut Vec<u8>, front: &[u8], name: &[u8], end: &[u8]) -> Result<(), NoMemory>
    ensures { OnOk result (text.new.items ≡ text.old.items ++ (front.now ++ name.now ++ end.now)) }
{
    add(text, front)?;
    add(text, name)?;
    add(text, end)
}

fn add_global_text(text: &mut Vec<u8>, name: &[u8], kind: GlobalKind) -> Result<(), NoMemory>
    ensures { OnOk result (text.new.items ≡ text.old.items ++ global_text name.now kind) }
{
    match kind {
        GlobalKind::Int(initial) => {
            add(text, b"int ")?;
            add(text, name)?;
            add(text, b" = ")?;
            add_signed(text, initial)?;
            Ok(())
        }
        GlobalKind::IntArray(length) => {
            add(text, b"int ")?;
            add(text, name)?;
            add_length(text, length)
        }
        GlobalKind::Thread => {
            add(text, b"pthread_t ")?;
            add(text, name)
        }
        GlobalKind::ThreadArray(length) => {
            add(text, b"pthread_t ")?;
            add(text, name)?;
            add_length(text, length)
        }
        GlobalKind::Mutex => add_around(
            text,
            b"pthread_mutex_t ",
            name,
            b" = PTHREAD_MUTEX_INITIALIZER",
        ),
        GlobalKind::Cond => {
            add_around(
                text,
                b"pthread_cond_t ",
                name,
                b" = PTHREAD_COND_INITIALIZER",
            )
        }
    }
}

/// Adds global variables, one a line.
pub fn add_global_lines(text: &mut Vec<u8>, globals: &[Variable]) -> Result<(), NoMemory>
    ensures { OnOk result (text.new.items ≡ text.old.items ++ text_of (map global_line globals.now)) }
{
    for global in globals {
        add_global_text(text, global.name.as_slice(), global.kind)?;
        add(text, b";\n")?;
    }
    Ok(())
}

/// Adds the empty line behind the global variables, if there are any.
pub fn add_global_gap(text: &mut Vec<u8>, globals: &[Variable]) -> Result<(), NoMemory>
    ensures { OnOk result (text.new.items ≡ text.old.items ++ gap (map global_line globals.now)) }
{
    match globals {
        [] => Ok(()),
        [_, ..] => add(text, b"\n"),
    }
}

fn add_more_params(text: &mut Vec<u8>, params: &[List<u8>]) -> Result<(), NoMemory>
    ensures { OnOk result (text.new.items
        ≡ text.old.items ++ joined (map (λ name. codes ", " ++ (codes "int " ++ name)) params.now)) }
{
    for name in params {
        add(text, b", int ")?;
        add(text, name.as_slice())?;
    }
    Ok(())
}

fn add_params(text: &mut Vec<u8>, params: &[List<u8>]) -> Result<(), NoMemory>
    ensures { OnOk result (text.new.items ≡ text.old.items ++ params_text params.now) }
{
    match params {
        [] => add(text, b"void"),
        [first, more @ ..] => {
            add(text, b"int ")?;
            add(text, first.as_slice())?;
            add_more_params(text, more)?;
            Ok(())
        }
    }
}

fn add_plain_head(
    text: &mut Vec<u8>,
    word: &[u8],
    name: &[u8],
    params: &[List<u8>],
) -> Result<(), NoMemory>
    ensures { OnOk result (text.new.items
        ≡ text.old.items ++ (word.now ++ name.now ++ in_parentheses (params_text params.now))) }
{
    add(text, word)?;
    add(text, name)?;
    add(text, b"(")?;
    add_params(text, params)?;
    add(text, b")")?;
    Ok(())
}

fn add_thread_head(text: &mut Vec<u8>, name: &[u8], params: &[List<u8>]) -> Result<(), NoMemory>
    ensures { OnOk result (text.new.items ≡ text.old.items
        ++ (codes "void *" ++ name.now ++ in_parentheses (codes "void *" ++ name_at params.now 0))) }
{
    add(text, b"void *")?;
    add(text, name)?;
    add(text, b"(void *")?;
    add_name(text, params, 0)?;
    add(text, b")")?;
    Ok(())
}

/// Adds the head of a function.
pub fn add_head(text: &mut Vec<u8>, function: &Function) -> Result<(), NoMemory>
    ensures { OnOk result (text.new.items ≡ text.old.items ++ head_of function.now) }
{
    let name = function.name.as_slice();
    let params = function.params.as_slice();
    match function.kind {
        FnKind::Int => add_plain_head(text, b"int ", name, params),
        FnKind::Void => add_plain_head(text, b"void ", name, params),
        FnKind::Thread => add_thread_head(text, name, params),
    }
}

fn is_main(function: &Function) -> bool
    ensures { result ≡ bytes_eq function.now.name (codes "main") }
{
    function.name.as_slice() == b"main".as_slice()
}

fn add_prototype(text: &mut Vec<u8>, function: &Function) -> Result<(), NoMemory>
    ensures { OnOk result (text.new.items ≡ text.old.items ++ text_of (prototype_lines function.now)) }
{
    if is_main(function) {
        return Ok(());
    }
    add_head(text, function)?;
    add(text, b";\n")?;
    Ok(())
}

/// Adds the prototypes of the functions but main.
pub fn add_prototypes(text: &mut Vec<u8>, functions: &[Function]) -> Result<(), NoMemory>
    ensures { OnOk result (text.new.items
        ≡ text.old.items ++ joined (map (λ f. text_of (prototype_lines f)) functions.now)) }
{
    for function in functions {
        add_prototype(text, function)?;
    }
    Ok(())
}

fn has_prototype(functions: &[Function]) -> bool
    ensures { result ≡ has_some (joined (map prototype_lines functions.now)) }
{
    for function in functions {
        if !is_main(function) {
            return true;
        }
    }
    false
}

/// Adds the empty line behind the prototypes, if there are any.
pub fn add_prototype_gap(text: &mut Vec<u8>, functions: &[Function]) -> Result<(), NoMemory>
    ensures { OnOk result (text.new.items ≡ text.old.items
        ++ gap (joined (map prototype_lines functions.now))) }
{
    if has_prototype(functions) {
        add(text, b"\n")
    } else {
        Ok(())
    }
}
