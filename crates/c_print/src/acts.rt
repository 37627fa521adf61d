ghost use Rattle.std.specs.Prelude.{◌≡◌, ◌∷◌, ◌++◌, codes, map, OnOk};
ghost use Rattle.c_prog.specs.Order.{joined};
ghost use Rattle.c_print.specs.Table.{named};
ghost use Rattle.c_print.specs.Text.Acts.{call_text, value_text, local_text, initial_text, how_sign, act_text};
ghost use Rattle.c_print.specs.Text.Expressions.{expr_text, target_text};
ghost use Rattle.c_print.specs.Text.Names.{name_at};
ghost use Rattle.c_print.specs.Text.Pieces.{between};
ghost use Rattle.c_print.specs.Written.{thread_text};

use crate::expressions::{add_expr, add_target, add_thread_argument};
use crate::names::NameTable;
use crate::pieces::{add, add_length, add_name, add_quoted};
use c_prog::{Act, CallForm, Expr, How, LocalKind, Target, Value};
use cfix_base::{FnId, List, NoMemory, VarId};

/// Adds each expression with a comma before it.
fn add_more(text: &mut Vec<u8>, names: &NameTable, args: &[Expr]) -> Result<(), NoMemory>
    ensures { OnOk result (text.new.items
        ≡ text.old.items ++ joined (map (λ e. codes ", " ++ expr_text (named names.now) e) args.now)) }
{
    for expr in args {
        add(text, b", ")?;
        add_expr(text, names, expr)?;
    }
    Ok(())
}

/// Adds expressions with a comma between each two.
fn add_args(text: &mut Vec<u8>, names: &NameTable, args: &[Expr]) -> Result<(), NoMemory>
    ensures { OnOk result (text.new.items
        ≡ text.old.items ++ between (codes ", ") (map (expr_text (named names.now)) args.now)) }
{
    match args {
        [] => Ok(()),
        [first, more @ ..] => {
            add_expr(text, names, first)?;
            add_more(text, names, more)?;
            Ok(())
        }
    }
}

fn add_call(text: &mut Vec<u8>, names: &NameTable, call: &CallForm) -> Result<(), NoMemory>
    ensures { OnOk result (text.new.items ≡ text.old.items ++ call_text (named names.now) call.now) }
{
    add_name(text, names.functions.as_slice(), call.of.number)?;
    add(text, b"(")?;
    add_args(text, names, call.args.as_slice())?;
    add(text, b")")?;
    Ok(())
}

/// Adds what is assigned, returned or begun with.
pub fn add_value(text: &mut Vec<u8>, names: &NameTable, value: &Value) -> Result<(), NoMemory>
    ensures { OnOk result (text.new.items ≡ text.old.items ++ value_text (named names.now) value.now) }
{
    match value {
        Value::Expr(expr) => add_expr(text, names, expr),
        Value::Call(call) => add_call(text, names, call),
    }
}

fn add_local(text: &mut Vec<u8>, name: &[u8], kind: LocalKind) -> Result<(), NoMemory>
    ensures { OnOk result (text.new.items ≡ text.old.items ++ local_text name.now kind) }
{
    match kind {
        LocalKind::Int => {
            add(text, b"int ")?;
            add(text, name)
        }
        LocalKind::IntArray(length) => {
            add(text, b"int ")?;
            add(text, name)?;
            add_length(text, length)
        }
        LocalKind::Thread => {
            add(text, b"pthread_t ")?;
            add(text, name)
        }
        LocalKind::ThreadArray(length) => {
            add(text, b"pthread_t ")?;
            add(text, name)?;
            add_length(text, length)
        }
    }
}

fn add_initial(text: &mut Vec<u8>, names: &NameTable, value: &Option<Value>) -> Result<(), NoMemory>
    ensures { OnOk result (text.new.items ≡ text.old.items ++ initial_text (named names.now) value.now) }
{
    match value {
        None => Ok(()),
        Some(value) => {
            add(text, b" = ")?;
            add_value(text, names, value)
        }
    }
}

fn add_how(text: &mut Vec<u8>, how: How) -> Result<(), NoMemory>
    ensures { OnOk result (text.new.items ≡ text.old.items ++ (codes " " ++ how_sign how ++ codes " ")) }
{
    match how {
        How::Set => add(text, b" = "),
        How::Add => add(text, b" += "),
        How::Sub => add(text, b" -= "),
        How::Mul => add(text, b" *= "),
        How::Div => add(text, b" /= "),
        How::Rem => add(text, b" %= "),
    }
}

fn add_assign(
    text: &mut Vec<u8>,
    names: &NameTable,
    target: &Target,
    how: How,
    value: &Value,
) -> Result<(), NoMemory>
    ensures { OnOk result (text.new.items ≡ text.old.items ++ act_text (named names.now) (Act.Assign target.now how value.now)) }
{
    add_target(text, names, target)?;
    add_how(text, how)?;
    add_value(text, names, value)
}

/// Adds what a created thread runs, and its argument.
fn add_thread(
    text: &mut Vec<u8>,
    names: &NameTable,
    of: FnId,
    argument: &Expr,
) -> Result<(), NoMemory>
    ensures { OnOk result (text.new.items ≡ text.old.items ++ thread_text (named names.now) of argument.now) }
{
    add(text, b", NULL, ")?;
    add_name(text, names.functions.as_slice(), of.number)?;
    add(text, b", ")?;
    add_thread_argument(text, names, argument)?;
    Ok(())
}

fn add_create(
    text: &mut Vec<u8>,
    names: &NameTable,
    target: &Target,
    of: FnId,
    argument: &Expr,
) -> Result<(), NoMemory>
    ensures { OnOk result (text.new.items ≡ text.old.items ++ act_text (named names.now) (Act.Create target.now of argument.now)) }
{
    add(text, b"pthread_create(&")?;
    add_target(text, names, target)?;
    add_thread(text, names, of, argument)?;
    add(text, b")")?;
    Ok(())
}

/// Adds a variable or element between two texts.
fn add_around(
    text: &mut Vec<u8>,
    names: &NameTable,
    front: &[u8],
    target: &Target,
    end: &[u8],
) -> Result<(), NoMemory>
    ensures { OnOk result (text.new.items ≡ text.old.items ++ (front.now ++ target_text (named names.now) target.now ++ end.now)) }
{
    add(text, front)?;
    add_target(text, names, target)?;
    add(text, end)
}

/// Adds a mutex or a condition variable behind a text, and a parenthesis.
fn add_global(
    text: &mut Vec<u8>,
    names: &NameTable,
    front: &[u8],
    var: VarId,
) -> Result<(), NoMemory>
    ensures { OnOk result (text.new.items
        ≡ text.old.items ++ (front.now ++ name_at names.now.globals var.number ++ codes ")")) }
{
    add(text, front)?;
    add_name(text, names.globals.as_slice(), var.number)?;
    add(text, b")")
}

fn add_wait(
    text: &mut Vec<u8>,
    names: &NameTable,
    cond: VarId,
    mutex: VarId,
) -> Result<(), NoMemory>
    ensures { OnOk result (text.new.items ≡ text.old.items ++ act_text (named names.now) (Act.Wait cond mutex)) }
{
    add(text, b"pthread_cond_wait(&")?;
    add_name(text, names.globals.as_slice(), cond.number)?;
    add_global(text, names, b", &", mutex)?;
    Ok(())
}

fn add_print(
    text: &mut Vec<u8>,
    names: &NameTable,
    format: &List<u8>,
    args: &List<Expr>,
) -> Result<(), NoMemory>
    ensures { OnOk result (text.new.items ≡ text.old.items ++ act_text (named names.now) (Act.Print format.now args.now)) }
{
    add(text, b"printf(")?;
    add_quoted(text, format.as_slice())?;
    add_more(text, names, args.as_slice())?;
    add(text, b")")?;
    Ok(())
}

/// Adds a simple statement or a step, without what ends it.
pub fn add_act(text: &mut Vec<u8>, names: &NameTable, act: &Act) -> Result<(), NoMemory>
    ensures { OnOk result (text.new.items ≡ text.old.items ++ act_text (named names.now) act.now) }
{
    match act {
        Act::Declare { name, kind, value } => {
            add_local(text, name.as_slice(), *kind)?;
            add_initial(text, names, value)
        }
        Act::Assign { target, how, value } => add_assign(text, names, target, *how, value),
        Act::Up(target) => {
            add_target(text, names, target)?;
            add(text, b"++")
        }
        Act::Down(target) => {
            add_target(text, names, target)?;
            add(text, b"--")
        }
        Act::Call(call) => add_call(text, names, call),
        Act::Create { target, of, arg } => add_create(text, names, target, *of, arg),
        Act::Join(target) => add_around(text, names, b"pthread_join(", target, b", NULL)"),
        Act::Lock(mutex) => add_global(text, names, b"pthread_mutex_lock(&", *mutex),
        Act::Unlock(mutex) => add_global(text, names, b"pthread_mutex_unlock(&", *mutex),
        Act::Print { text: format, args } => add_print(text, names, format, args),
        Act::Scan(target) => add_around(text, names, b"scanf(\"%d\", &", target, b")"),
        Act::Wait { cond, mutex } => add_wait(text, names, *cond, *mutex),
        Act::Signal(cond) => add_global(text, names, b"pthread_cond_signal(&", *cond),
        Act::Broadcast(cond) => add_global(text, names, b"pthread_cond_broadcast(&", *cond),
    }
}
