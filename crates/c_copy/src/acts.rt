ghost use Rattle.std.specs.Prelude.{◌≡◌, IfOk};

use crate::expressions::{copy_args, copy_call, copy_expr, copy_list, copy_target, copy_value};
use c_prog::{Act, Jump, Value};
use cfix_base::NoMemory;
use std::alloc::Global;

fn copy_initial(alloc: Global, value: &Option<Value>) -> Result<Option<Value>, NoMemory>
    ensures { IfOk result (λ copy. copy ≡ value.now) }
{
    match value {
        None => Ok(None),
        Some(value) => Ok(Some(copy_value(alloc, value)?)),
    }
}

/// An equal act.
pub fn copy_act(alloc: Global, act: &Act) -> Result<Act, NoMemory>
    ensures { IfOk result (λ copy. copy ≡ act.now) }
{
    match act {
        Act::Declare { name, kind, value } => {
            let name = copy_list(alloc, name)?;
            let value = copy_initial(alloc, value)?;
            let kind = *kind;
            Ok(Act::Declare { name, kind, value })
        }
        Act::Assign { target, how, value } => {
            let target = copy_target(alloc, target)?;
            let value = copy_value(alloc, value)?;
            let how = *how;
            Ok(Act::Assign { target, how, value })
        }
        Act::Up(target) => Ok(Act::Up(copy_target(alloc, target)?)),
        Act::Down(target) => Ok(Act::Down(copy_target(alloc, target)?)),
        Act::Call(call) => Ok(Act::Call(copy_call(alloc, call)?)),
        Act::Create { target, of, arg } => {
            let target = copy_target(alloc, target)?;
            let arg = copy_expr(alloc, arg)?;
            let of = *of;
            Ok(Act::Create { target, of, arg })
        }
        Act::Join(target) => Ok(Act::Join(copy_target(alloc, target)?)),
        Act::Lock(mutex) => Ok(Act::Lock(*mutex)),
        Act::Unlock(mutex) => Ok(Act::Unlock(*mutex)),
        Act::Print { text, args } => {
            let text = copy_list(alloc, text)?;
            let args = copy_args(alloc, args)?;
            Ok(Act::Print { text, args })
        }
        Act::Scan(target) => Ok(Act::Scan(copy_target(alloc, target)?)),
        Act::Wait { cond, mutex } => {
            let cond = *cond;
            let mutex = *mutex;
            Ok(Act::Wait { cond, mutex })
        }
        Act::Signal(cond) => Ok(Act::Signal(*cond)),
        Act::Broadcast(cond) => Ok(Act::Broadcast(*cond)),
    }
}

/// An equal jump.
pub fn copy_jump(alloc: Global, jump: &Jump) -> Result<Jump, NoMemory>
    ensures { IfOk result (λ copy. copy ≡ jump.now) }
{
    match jump {
        Jump::Break => Ok(Jump::Break),
        Jump::Continue => Ok(Jump::Continue),
        Jump::Return => Ok(Jump::Return),
        Jump::ReturnNull => Ok(Jump::ReturnNull),
        Jump::ReturnValue(value) => Ok(Jump::ReturnValue(copy_value(alloc, value)?)),
    }
}
