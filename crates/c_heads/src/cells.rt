ghost use Rattle.std.specs.Prelude.{◌≡◌, ◌++◌, ◌∷◌, [], map, OnOk};
ghost use Rattle.c_raw.specs.Files.{name_view, more_params_view, params_view, head_view};
ghost use Rattle.c_names.specs.Declarations.{param_of, params_of, head_params};
ghost use Rattle.c_names.specs.Files.{param_cells};

use c_raw::{Head, Ident, Param, Params};
use cfix_base::{List, NoMemory, Spot};

fn param_cells(at: Spot, name: &Option<Ident>) -> (Spot, u32)
    ensures { result ≡ param_cells (at, name_view name.now) }
{
    match name {
        None => (at, 1),
        Some(name) => (name.spot, 1),
    }
}

fn push_more(cells: &mut List<(Spot, u32)>, more: &[(Spot, Param)]) -> Result<(), NoMemory>
    ensures { OnOk result (cells.new ≡ cells.old ++ map param_cells (map param_of (map (λ y. y.1) (more_params_view more.now)))) }
{
    for next in more {
        cells.push(param_cells(next.1.at, &next.1.name))?;
    }
    Ok(())
}

fn push_list(cells: &mut List<(Spot, u32)>, params: &Params) -> Result<(), NoMemory>
    ensures { OnOk result (cells.new ≡ cells.old ++ map param_cells (params_of (params_view params.now))) }
{
    match params {
        Params::NoParams | Params::VoidParams(_) => Ok(()),
        Params::SomeParams { first, more } => {
            cells.push(param_cells(first.at, &first.name))?;
            push_more(cells, more.as_slice())
        }
    }
}

/// One cell for each parameter, at its name.
pub fn push_params(cells: &mut List<(Spot, u32)>, head: &Head) -> Result<(), NoMemory>
    ensures { OnOk result (cells.new ≡ cells.old ++ map param_cells (head_params (head_view head.now))) }
{
    match head {
        Head::Plain { params, .. } => push_list(cells, params),
        Head::Thread { void, param, .. } => cells.push(param_cells(*void, param)),
    }
}
