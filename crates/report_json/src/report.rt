use cfix_base::{Access, List};

/// A call in a stack: of the function `of`, on a line, the `nth` of its kind there, from 0.
#[derive(Debug, Drop)]
pub struct CallSite {
    pub of: List<u8>,
    pub line: u32,
    pub nth: u32,
}

/// An access to the variable `var` on a line, the `nth` of its kind there, from 0, and the calls
/// through which it was reached, the outermost first.
#[derive(Debug, Drop)]
pub struct Site {
    pub line: u32,
    pub var: List<u8>,
    pub access: Access,
    pub nth: u32,
    pub stack: List<CallSite>,
}

/// A bug report.
#[derive(Debug, Drop)]
pub enum Report {
    /// `r` came between `p` and `c`, which belong together.
    Atomicity { p: Site, c: Site, r: Site },
    /// Each `a` should come before each `b`.
    AllBefore { a: Site, b: Site },
    /// The first `a` should come before each `b`.
    FirstBefore { a: Site, b: Site },
}
