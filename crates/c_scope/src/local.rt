use crate::kind::VarKind;
use cfix_base::List;

/// A parameter or a local of a function, with its number in its function.
#[derive(Debug, Drop)]
pub struct Local {
    pub name: List<u8>,
    pub kind: VarKind,
    pub number: u32,
}
