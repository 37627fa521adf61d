ghost use Rattle.std.specs.Prelude.{◌≡◌};
ghost use Rattle.step_state.specs.Parts.{Part, binary_part};
ghost use Rattle.step_tables.specs.Uses.{decision, operator_part};

use c_prog::BinOp;
use step_state::{Binary, Operand, Reduction};

/// What an item does with a variable. `Keep` reads it and leaves the index among the values.
#[derive(Clone, Copy)]
pub enum Use {
    Read,
    Keep,
    Write,
}

/// An operator whose right operand is evaluated only at some values of the left one.
#[derive(Clone, Copy)]
pub enum Early {
    And,
    Or,
}

/// An operator, by whether both operands are always evaluated.
#[derive(Clone, Copy)]
pub enum Operator {
    Strict(Binary),
    Early(Early),
}

/// The item that decides whether the right operand is evaluated.
pub fn decision(op: Early, right: Operand) -> Reduction
    ensures { result ≡ decision op right }
{
    match op {
        Early::And => Reduction::And(right),
        Early::Or => Reduction::Or(right),
    }
}

/// What an operator of the tree does with its operands.
pub fn operator_of(op: BinOp) -> Operator
    ensures { (left right : Part) → binary_part op left right ≡ operator_part result left right }
{
    match op {
        BinOp::Add => Operator::Strict(Binary::Add),
        BinOp::Sub => Operator::Strict(Binary::Sub),
        BinOp::Mul => Operator::Strict(Binary::Mul),
        BinOp::Div => Operator::Strict(Binary::Div),
        BinOp::Rem => Operator::Strict(Binary::Rem),
        BinOp::Lt => Operator::Strict(Binary::Lt),
        BinOp::Le => Operator::Strict(Binary::Le),
        BinOp::Gt => Operator::Strict(Binary::Gt),
        BinOp::Ge => Operator::Strict(Binary::Ge),
        BinOp::Eq => Operator::Strict(Binary::Eq),
        BinOp::Ne => Operator::Strict(Binary::Ne),
        BinOp::And => Operator::Early(Early::And),
        BinOp::Or => Operator::Early(Early::Or),
    }
}
