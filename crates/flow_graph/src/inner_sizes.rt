/// The numbers of nodes of the lists of statements inside one statement: of both parts of an `if`, of
/// the body of a loop, of a block. Where there is no such list, the number is 0.
#[derive(Clone, Copy, Debug, PartialEq, Eq)]
pub struct InnerSizes {
    pub first: u32,
    pub second: u32,
}
