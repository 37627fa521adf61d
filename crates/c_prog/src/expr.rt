use cfix_base::VarId;
use sqlite_items::Boxed;

/// A binary operator (6.5.5, 6.5.6, 6.5.8, 6.5.9, 6.5.13 and 6.5.14 of ISO/IEC 9899:2011).
#[derive(Clone, Copy, Debug, PartialEq, Eq)]
pub enum BinOp {
    Add,
    Sub,
    Mul,
    Div,
    Rem,
    Lt,
    Le,
    Gt,
    Ge,
    Eq,
    Ne,
    And,
    Or,
}

/// A variable. The locals of a function are numbered from 0: first the parameters, then the
/// declarations in the order of the text.
#[derive(Clone, Copy, Debug, PartialEq, Eq)]
pub enum Var {
    Global(VarId),
    Local(u32),
}

/// A variable, or the element of an array at an index.
#[cycle(expr)]
#[derive(Drop)]
pub struct Target {
    pub var: Var,
    pub index: Option<Boxed<Expr>>,
}

/// An expression. A number is not negative; `Cast` is the cast of the parameter with this local
/// number to `int`.
#[cycle(expr)]
#[derive(Drop)]
pub enum Expr {
    Number(i32),
    Read(Target),
    Cast(u32),
    Neg(Boxed<Expr>),
    Not(Boxed<Expr>),
    Binary {
        op: BinOp,
        left: Boxed<Expr>,
        right: Boxed<Expr>,
    },
}
