use cfix_base::{AccessId, FnId, List, LockId, NodeId, OrderId, VarId};

/// Bytes that were printed.
pub type Bytes = List<u8>;

/// Why a run ended early: a result that is no 32-bit number, a zero divisor, an index outside its
/// array, an unlock by a thread that does not hold the mutex, a join of no thread or of one that
/// was joined.
#[derive(Clone, Copy, Debug, PartialEq, Eq)]
pub enum Trap {
    Overflow,
    Zero,
    Index,
    Unlock,
    Join,
}

/// Whether a run goes on, main has ended, or a trap has ended it.
#[derive(Clone, Copy, Debug, PartialEq, Eq)]
pub enum Ending {
    Running,
    End,
    Trap(Trap),
}

/// What one step did. `cell` is the index within the variable, and 0 for a scalar. `Create` and
/// `Join` name the other thread; `Sleep`, `Wake`, `Signal` and `Broadcast` the condition variable.
#[derive(Debug, Drop)]
pub enum Event {
    Begin(NodeId),
    Silent,
    Read {
        site: AccessId,
        cell: u32,
        value: i32,
    },
    Write {
        site: AccessId,
        cell: u32,
        value: i32,
    },
    Lock(VarId),
    Unlock(VarId),
    Create(u32),
    Join(u32),
    Print(Bytes),
    Take(i32),
    Call(FnId),
    Return(i32),
    Exit,
    Trap(Trap),
    Enter(LockId),
    EnterMissed(LockId),
    Leave(LockId),
    First(OrderId),
    Done(OrderId),
    Wait(OrderId),
    WaitMissed(OrderId),
    Add(OrderId),
    Sleep {
        cond: VarId,
        mutex: VarId,
    },
    Wake {
        cond: VarId,
        mutex: VarId,
    },
    Signal(VarId),
    Broadcast(VarId),
}
