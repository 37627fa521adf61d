ghost use Rattle.std.specs.Prelude.{◌≡◌, ◌↔◌, IsTrue};

use crate::same_expr::{same_args, same_call, same_expr, same_target, same_value};
use c_prog::{Act, Expr, How, Jump, LocalKind, Target, Value};
use cfix_base::{FnId, List};

/// Whether two texts are equal.
pub fn same_bytes(a: &List<u8>, b: &List<u8>) -> bool
    ensures { IsTrue result ↔ (a.now ≡ b.now) }
{
    a.as_slice() == b.as_slice()
}

fn same_initial(a: &Option<Value>, b: &Option<Value>) -> bool
    ensures { IsTrue result ↔ (a.now ≡ b.now) }
{
    match (a, b) {
        (None, None) => true,
        (Some(v), Some(w)) => same_value(v, w),
        _ => false,
    }
}

/// Whether two acts are equal.
pub fn same_act(a: &Act, b: &Act) -> bool
    ensures { IsTrue result ↔ (a.now ≡ b.now) }
{
    match (a, b) {
        (
            Act::Declare { name, kind, value },
            Act::Declare {
                name: m,
                kind: k,
                value: v,
            },
        ) => same_bytes(name, m) && *kind == *k && same_initial(value, v),
        (
            Act::Assign { target, how, value },
            Act::Assign {
                target: t,
                how: h,
                value: v,
            },
        ) => same_target(target, t) && *how == *h && same_value(value, v),
        (Act::Up(s), Act::Up(t)) => same_target(s, t),
        (Act::Down(s), Act::Down(t)) => same_target(s, t),
        (Act::Call(c), Act::Call(d)) => same_call(c, d),
        (
            Act::Create { target, of, arg },
            Act::Create {
                target: t,
                of: f,
                arg: e,
            },
        ) => same_target(target, t) && *of == *f && same_expr(arg, e),
        (Act::Join(s), Act::Join(t)) => same_target(s, t),
        (Act::Lock(m), Act::Lock(n)) => *m == *n,
        (Act::Unlock(m), Act::Unlock(n)) => *m == *n,
        (Act::Print { text, args }, Act::Print { text: t, args: v }) => {
            same_bytes(text, t) && same_args(args.as_slice(), v.as_slice())
        }
        (Act::Scan(s), Act::Scan(t)) => same_target(s, t),
        (Act::Wait { cond, mutex }, Act::Wait { cond: c, mutex: m }) => *cond == *c && *mutex == *m,
        (Act::Signal(c), Act::Signal(d)) => *c == *d,
        (Act::Broadcast(c), Act::Broadcast(d)) => *c == *d,
        _ => false,
    }
}

/// Whether two jumps are equal.
pub fn same_jump(a: &Jump, b: &Jump) -> bool
    ensures { IsTrue result ↔ (a.now ≡ b.now) }
{
    match (a, b) {
        (Jump::Break, Jump::Break) => true,
        (Jump::Continue, Jump::Continue) => true,
        (Jump::Return, Jump::Return) => true,
        (Jump::ReturnNull, Jump::ReturnNull) => true,
        (Jump::ReturnValue(v), Jump::ReturnValue(w)) => same_value(v, w),
        _ => false,
    }
}
