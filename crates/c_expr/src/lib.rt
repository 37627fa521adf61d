//! Reading what stands in expressions and simple statements. Each reader answers what the
//! grammar's reader of the same name answers at that place: `depth` is how many constructs more may
//! be nested there, and `budget` how many binary operators more the chain may have.
#![tactic(auto)]

mod arguments;
mod assignments;
mod expressions;
mod grouping;
mod headers;
mod operand;
mod operations;
mod signs;
mod statements;
mod targets;
mod values;

pub use arguments::{CallTail, args, call_of, call_tail};
pub use assignments::plain;
pub use expressions::{cast, chain, expr, expr_within, indexed, inside, unary};
pub use headers::library;
pub use operand::{Indexed, Operand};
pub use operations::{more_ops, op, ops};
pub use signs::{begins_expr, binary, change, is_prefix, is_step, is_verb, prefix, step, verb};
pub use statements::simple;
pub use targets::target;
pub use values::value;
