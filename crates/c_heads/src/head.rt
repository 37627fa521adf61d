ghost use Rattle.std.specs.Prelude.{◌≡◌, length};
ghost use Rattle.c_raw.specs.Tokens.{ident_view};
ghost use Rattle.c_raw.specs.Files.{params_view, head_view};
ghost use Rattle.c_names.specs.Declarations.{params_of, head_name, head_kind, head_params};

use c_prog::FnKind;
use c_raw::{Head, Ident, Params, Returns};

/// The name of a function.
pub fn head_name(head: &Head) -> &Ident
    ensures { ident_view result.now ≡ head_name (head_view head.now) }
{
    match head {
        Head::Plain { name, .. } => name,
        Head::Thread { name, .. } => name,
    }
}

/// What a function gives back, or that it is the function of a thread.
pub fn head_kind(head: &Head) -> FnKind
    ensures { result ≡ head_kind (head_view head.now) }
{
    match head {
        Head::Plain { returns, .. } => match returns {
            Returns::Int => FnKind::Int,
            Returns::Void => FnKind::Void,
        },
        Head::Thread { .. } => FnKind::Thread,
    }
}

#[tactic(auto, using(crate::proofs::Listed::listed))]
fn params_count(params: &Params) -> usize
    ensures { result ≡ length (params_of (params_view params.now)) }
{
    match params {
        Params::NoParams | Params::VoidParams(_) => 0,
        Params::SomeParams { more, .. } => more.as_slice().len() + 1,
    }
}

/// How many parameters a function has.
pub fn head_count(head: &Head) -> usize
    ensures { result ≡ length (head_params (head_view head.now)) }
{
    match head {
        Head::Plain { params, .. } => params_count(params),
        Head::Thread { .. } => 1,
    }
}
