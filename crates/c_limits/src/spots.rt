ghost use Rattle.std.specs.Prelude.{◌≡◌};
ghost use Rattle.c_raw.specs.Exprs.{expr_view};
ghost use Rattle.c_raw.specs.Simples.{plain_view, library_view, simple_view};
ghost use Rattle.c_raw.specs.Decls.{local_int_view, hold_view, loop_int_view};
ghost use Rattle.c_raw.specs.Conds.{cond_view};
ghost use Rattle.c_raw.specs.Stmts.{bare_view, jump_view};
ghost use Rattle.c_names.specs.Returns.{bare_spot};
ghost use Rattle.c_names.specs.Limits.{expr_spot, plain_spot, library_spot, simple_spot, cond_spot, jump_spot, local_int_spot, hold_spot, loop_int_spot};

use c_raw::{Bare, Cond, Expr, Hold, Jump, Library, LocalInt, LoopInt, Plain, Simple};
use cfix_base::Spot;

// The first token of an expression.
fn expr_spot(raw: &Expr) -> Spot
    ensures { result ≡ expr_spot (expr_view raw.now) }
{
    match raw {
        Expr::Number(number) => number.spot,
        Expr::Name(name) | Expr::Index { name, .. } => name.spot,
        Expr::Paren { before, .. } => *before,
        Expr::Cast(cast) => cast.get().before,
        Expr::Unary { at, .. } => *at,
        Expr::Operation { left, .. } => expr_spot(left.get()),
    }
}

/// The token at which an assignment or a step stands.
pub fn plain_spot(raw: &Plain) -> Spot
    ensures { result ≡ plain_spot (plain_view raw.now) }
{
    match raw {
        Plain::SetTo { target, .. }
        | Plain::Changed { target, .. }
        | Plain::SteppedAfter { target, .. } => target.name.spot,
        Plain::SteppedBefore { at, .. } => *at,
    }
}

fn library_spot(raw: &Library) -> Spot
    ensures { result ≡ library_spot (library_view raw.now) }
{
    match raw {
        Library::Create(create) => create.get().at,
        Library::Join { at, .. }
        | Library::Lock { at, .. }
        | Library::Unlock { at, .. }
        | Library::Print { at, .. }
        | Library::Scan { at, .. }
        | Library::Wait { at, .. }
        | Library::Signal { at, .. }
        | Library::Broadcast { at, .. } => *at,
    }
}

/// The token at which a simple statement stands.
pub fn simple_spot(raw: &Simple) -> Spot
    ensures { result ≡ simple_spot (simple_view raw.now) }
{
    match raw {
        Simple::Plain(plain) => plain_spot(plain),
        Simple::SetCall { target, .. } => target.name.spot,
        Simple::Call(call) => call.name.spot,
        Simple::Library(library) => library_spot(library),
    }
}

/// The token at which a condition stands.
pub fn cond_spot(raw: &Cond) -> Spot
    ensures { result ≡ cond_spot (cond_view raw.now) }
{
    match raw {
        Cond::Bare(expr) => expr_spot(expr),
        Cond::OnTrue(guard) => guard.get().before,
        Cond::OnFalse(guard) => guard.get().before,
        Cond::OnBoth(guard) => guard.get().before,
    }
}

/// The word of a jump.
pub fn bare_spot(raw: Bare) -> Spot
    ensures { result ≡ bare_spot (bare_view raw) }
{
    match raw {
        Bare::Break(at) | Bare::Continue(at) | Bare::Return(at) | Bare::ReturnNull { at, .. } => at,
    }
}

/// The token at which a jump stands: a jump block stands at its `{`.
pub fn jump_spot(raw: &Jump) -> Spot
    ensures { result ≡ jump_spot (jump_view raw.now) }
{
    match raw {
        Jump::Bare { bare, .. } => bare_spot(*bare),
        Jump::ReturnValue { at, .. } => *at,
        Jump::BareBlock(block) => block.get().before,
        Jump::ValueBlock(block) => block.get().before,
    }
}

/// The name that a declarator declares.
pub fn local_int_spot(raw: &LocalInt) -> Spot
    ensures { result ≡ local_int_spot (local_int_view raw.now) }
{
    match raw {
        LocalInt::OneLocal(name)
        | LocalInt::SetLocal { name, .. }
        | LocalInt::LocalArray { name, .. } => name.spot,
    }
}

/// The name that a declarator declares.
pub fn hold_spot(raw: &Hold) -> Spot
    ensures { result ≡ hold_spot (hold_view raw.now) }
{
    match raw {
        Hold::OneThread(name) | Hold::Threads { name, .. } => name.spot,
    }
}

/// The name that a declarator declares.
pub fn loop_int_spot(raw: &LoopInt) -> Spot
    ensures { result ≡ loop_int_spot (loop_int_view raw.now) }
{
    match raw {
        LoopInt::OneLoop(name) | LoopInt::SetLoop { name, .. } => name.spot,
    }
}
