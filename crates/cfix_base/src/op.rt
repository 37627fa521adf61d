use crate::number::{LockId, OrderId};

/// An inserted operation. The variants stand in the order in which operations stand at one place;
/// within a kind the numbers rise.
#[derive(Clone, Copy, Debug, PartialEq, Eq)]
pub enum Op {
    Leave(LockId),
    First(OrderId),
    Done(OrderId),
    Wait(OrderId),
    Enter(LockId),
    Add(OrderId),
}
