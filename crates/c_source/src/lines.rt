ghost use Rattle.std.specs.Prelude.{◌≡◌, IsSome, Some};

use crate::search::{access_line, call_line};
use cfix_base::{AccessId, List, NodeId};
use std::marker::Model;

/// The line of each access and of the called name of each call, in rising order. A line is 1 plus
/// the number of line feeds before a place.
#[derive(Drop)]
pub struct Lines {
    accesses: List<(AccessId, u32)>,
    calls: List<(NodeId, u32)>,
}

impl Model for Lines {
    ghost use Rattle.c_prog.specs.Lines.{LineTable, InOrder};

    ghost Value = { LineTable };

    ghost view = { λ l. record { accesses = l.accesses; calls = l.calls } };

    ghost invariant = { λ l. InOrder (record { accesses = l.accesses; calls = l.calls }) };
}

impl Lines {
    ghost use Rattle.c_prog.specs.Lines.{LineTable, InOrder, access_line, call_line};

    /// These lines.
    pub fn of(accesses: List<(AccessId, u32)>, calls: List<(NodeId, u32)>) -> Lines
        requires { InOrder (record { accesses = accesses; calls = calls }) }
        ensures { result ≡ record { accesses = accesses; calls = calls } }
    {
        Lines { accesses, calls }
    }

    /// The accesses with their lines.
    pub fn accesses(&self) -> &[(AccessId, u32)]
        ensures same { result.now ≡ self.now.accesses }
        ensures rising { InOrder self.now }
    {
        self.accesses.as_slice()
    }

    /// The calls with their lines.
    pub fn calls(&self) -> &[(NodeId, u32)]
        ensures same { result.now ≡ self.now.calls }
        ensures rising { InOrder self.now }
    {
        self.calls.as_slice()
    }

    /// The line of an access.
    pub fn access(&self, id: AccessId) -> u32
        requires { IsSome (access_line self.now id) }
        ensures { access_line self.now id ≡ Some result }
    {
        access_line(self.accesses.as_slice(), id).unwrap()
    }

    /// The line of the called name of a call.
    pub fn call(&self, node: NodeId) -> u32
        requires { IsSome (call_line self.now node) }
        ensures { call_line self.now node ≡ Some result }
    {
        call_line(self.calls.as_slice(), node).unwrap()
    }
}
