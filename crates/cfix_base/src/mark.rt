/// The numbers from which on operations are new: of locks, and of orders. The marks of a program
/// are above all of its own numbers.
#[derive(Clone, Copy, Debug, PartialEq, Eq)]
pub struct Marks {
    pub lock: u32,
    pub order: u32,
}
