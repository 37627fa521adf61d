ghost use Rattle.std.specs.Prelude.{◌≡◌, map, IfOk};
ghost use Rattle.call_graph.specs.Sites.{is_main_function};

use c_prog::Function;
use cfix_base::{List, NoMemory};
use std::alloc::Global;

fn is_main(function: &Function) -> bool
    ensures { result ≡ is_main_function function.now }
{
    function.name.as_slice() == b"main".as_slice()
}

/// Of each function, whether it is main.
pub fn mains(alloc: Global, functions: &[Function]) -> Result<List<bool>, NoMemory>
    ensures { IfOk result (λ mains. mains ≡ map is_main_function functions.now) }
{
    let mut mains = List::new(alloc);
    for function in functions {
        mains.push(is_main(function))?;
    }
    Ok(mains)
}
