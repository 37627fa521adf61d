use cfix_base::{Access, AccessId, VarId};

/// An access to a global `int` variable, or to an element of an array of them. It is certain if it
/// stands under no right operand of `&&` or `||`, so that it is made in each visit of its node that
/// is not cut short (6.5.13 and 6.5.14 of ISO/IEC 9899:2011).
#[derive(Clone, Copy, Debug, PartialEq, Eq)]
pub struct AccessItem {
    pub id: AccessId,
    pub var: VarId,
    pub access: Access,
    pub certain: bool,
}

/// An access before it has its number.
#[derive(Clone, Copy, Debug, PartialEq, Eq)]
pub struct Touch {
    pub var: VarId,
    pub access: Access,
    pub certain: bool,
}
