use c_prog::FnKind;

/// What a statement stands in: a function of this kind, and a loop or not.
#[derive(Clone, Copy, Debug, PartialEq, Eq)]
pub struct Around {
    pub kind: FnKind,
    pub in_loop: bool,
}

impl Around {
    ghost use Rattle.std.specs.Prelude.{◌≡◌};
    ghost use Rattle.c_prog.specs.Valid.Statements.{looped};
    ghost use Rattle.c_body.specs.Views.{around_view};

    /// The same within a loop.
    pub fn looped(self) -> Around
        ensures { around_view result ≡ looped (around_view self) }
    {
        Around {
            kind: self.kind,
            in_loop: true,
        }
    }
}
