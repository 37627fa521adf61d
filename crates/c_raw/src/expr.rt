use crate::token::{Ident, Numeral};
use cfix_base::Spot;
use sqlite_items::Boxed;

/// A unary operator (6.5.3.3 of ISO/IEC 9899:2011).
#[derive(Clone, Copy, Debug, PartialEq, Eq)]
pub enum Prefix {
    /// `-`
    Negate,
    /// `!`
    Invert,
}

/// A binary operator (6.5.5 to 6.5.14 of ISO/IEC 9899:2011).
#[derive(Clone, Copy, Debug, PartialEq, Eq)]
pub enum Binary {
    /// `||`
    Or,
    /// `&&`
    And,
    /// `==`
    Equal,
    /// `!=`
    NotEqual,
    /// `<`
    Less,
    /// `<=`
    LessEqual,
    /// `>`
    Greater,
    /// `>=`
    GreaterEqual,
    /// `+`
    Add,
    /// `-`
    Subtract,
    /// `*`
    Multiply,
    /// `/`
    Divide,
    /// `%`
    Remainder,
}

/// `(long)`
#[derive(Clone, Copy, Debug, PartialEq, Eq)]
pub struct Long {
    pub before: Spot,
    pub word: Spot,
    pub after: Spot,
}

/// `(int)(long)name`, with or without `(long)`
#[derive(Drop)]
pub struct Cast {
    pub before: Spot,
    pub int: Spot,
    pub after: Spot,
    pub long: Option<Long>,
    pub name: Ident,
}

/// An expression. Binary operators are grouped by how tightly they bind, and to the left.
#[derive(Drop)]
pub enum Expr {
    Number(Numeral),
    Name(Ident),
    /// `name[index]`
    Index {
        name: Ident,
        before: Spot,
        index: Boxed<Expr>,
        after: Spot,
    },
    /// `(inside)`
    Paren {
        before: Spot,
        inside: Boxed<Expr>,
        after: Spot,
    },
    Cast(Boxed<Cast>),
    Unary {
        op: Prefix,
        at: Spot,
        operand: Boxed<Expr>,
    },
    /// A binary operator and its operands.
    Operation {
        left: Boxed<Expr>,
        op: Binary,
        at: Spot,
        right: Boxed<Expr>,
    },
}
