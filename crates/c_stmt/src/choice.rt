//! An `if` from its parts (6.8.4.1 of ISO/IEC 9899:2011).
ghost use Rattle.std.specs.Prelude.{◌≡◌, IfOk};
ghost use Rattle.c_grammar.specs.Stmt.{NoElse, ElseDo};
ghost use Rattle.c_raw.specs.Stmts.{stmt_view, if_view};

use c_raw::{Else, Stmt, Test};
use cfix_base::Spot;
use sqlite_items::Boxed;
use std::alloc::{AllocError, Global};

/// An `if` with no `else`.
pub(crate) fn choice(alloc: Global, test: Boxed<Test>, then: Stmt) -> Result<Stmt, AllocError>
    ensures { IfOk result (λ s. stmt_view s ≡ if_view test (stmt_view then) NoElse) }
{
    let then = Boxed::new(alloc, then)?;
    Ok(Stmt::If {
        test,
        then,
        otherwise: None,
    })
}

/// An `if` with its `else`.
pub(crate) fn choice_else(
    alloc: Global,
    test: Boxed<Test>,
    then: Stmt,
    at: Spot,
    body: Stmt,
) -> Result<Stmt, AllocError>
    ensures { IfOk result (λ s. stmt_view s ≡ if_view test (stmt_view then) (ElseDo at (stmt_view body))) }
{
    let then = Boxed::new(alloc, then)?;
    let body = Boxed::new(alloc, body)?;
    Ok(Stmt::If {
        test,
        then,
        otherwise: Some(Else { at, body }),
    })
}
