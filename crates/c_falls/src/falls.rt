ghost use Rattle.std.specs.Prelude.{◌≡◌, not, map};
ghost use Rattle.c_prog.specs.Valid.Falls.{number_of, is_not_zero, is_always, is_break, fall_of, all_fall, some_breaks, falls_through};
ghost use Rattle.c_falls.specs.Falling.{fall_view};

use c_prog::{Expr, Jump, Stmt};

/// Whether control can fall through the end of a statement, and whether the statement has a
/// `break` that belongs to the loop around it.
#[derive(Clone, Copy, Debug, PartialEq, Eq)]
pub struct Fall {
    pub falls: bool,
    pub breaks: bool,
}

// A condition that always holds is a number other than 0.
fn is_always(test: &Expr) -> bool
    ensures { result ≡ is_always test.now }
{
    match test {
        Expr::Number(number) => !(*number == 0),
        _ => false,
    }
}

fn is_break(jump: &Jump) -> bool
    ensures { result ≡ is_break jump.now }
{
    match jump {
        Jump::Break => true,
        _ => false,
    }
}

#[cycle(falls)]
fn fall_of(stmt: &Stmt) -> Fall
    ensures { fall_view result ≡ fall_of stmt.now }
{
    match stmt {
        Stmt::Simple { .. } => Fall {
            falls: true,
            breaks: false,
        },
        Stmt::Jump { jump, .. } => Fall {
            falls: false,
            breaks: is_break(jump),
        },
        Stmt::If { yes, no, .. } => {
            let yes = fall_of_all(yes.as_slice());
            let no = fall_of_all(no.as_slice());
            Fall {
                falls: yes.falls || no.falls,
                breaks: yes.breaks || no.breaks,
            }
        }
        Stmt::Loop { cond, body, .. } => {
            let body = fall_of_all(body.as_slice());
            Fall {
                falls: !(is_always(&cond.test) && !body.breaks),
                breaks: false,
            }
        }
        Stmt::Block(body) => fall_of_all(body.as_slice()),
    }
}

// A list falls through unless one of its statements does not.
#[cycle(falls)]
fn fall_of_all(list: &[Stmt]) -> Fall
    ensures falls { result.falls ≡ all_fall (map fall_of list.now) }
    ensures breaks { result.breaks ≡ some_breaks (map fall_of list.now) }
{
    let mut falls = true;
    let mut breaks = false;
    for stmt in list {
        let fall = fall_of(stmt);
        falls = falls && fall.falls;
        breaks = breaks || fall.breaks;
    }
    Fall { falls, breaks }
}

/// Whether control can fall through the end of a body.
pub fn falls_through(body: &[Stmt]) -> bool
    ensures { result ≡ falls_through body.now }
{
    fall_of_all(body).falls
}
