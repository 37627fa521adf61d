use cfix_base::Spot;

/// Why a name, or what is done with it, is refused. Of two faults at one token the one whose kind
/// stands first here counts.
#[derive(Clone, Copy, Debug, PartialEq, Eq)]
pub enum FaultKind {
    /// A name has no declaration.
    Unknown,
    /// A name is declared again.
    Twice,
    /// The number of arguments is another than that of the parameters.
    Arity,
    /// A name or statement stands where it does not fit.
    WrongUse,
    /// Control can fall through the end of an `int` function.
    NoReturn,
    /// main or the function of a thread is called.
    RootCalled,
    /// A name has a beginning that is reserved.
    Reserved,
    /// A limit is passed.
    Limit,
}

/// A fault and the token at which it stands.
#[derive(Clone, Copy, Debug, PartialEq, Eq)]
pub struct Fault {
    pub kind: FaultKind,
    pub spot: Spot,
}
