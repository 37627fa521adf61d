ghost use Rattle.std.specs.Prelude.{◌≡◌};

use crate::lines::Lines;
use c_prog::Program;
use std::marker::Model;

/// A program with the lines of its accesses and calls, one for each.
#[derive(Drop)]
pub struct Source {
    program: Program,
    lines: Lines,
}

impl Model for Source {
    ghost use Rattle.c_prog.specs.Lines.{SourceTree, IsLined};

    ghost Value = { SourceTree };

    ghost use Rattle.c_source.specs.SourceCode.{source_code};

    ghost coded = { source_code };

    ghost view = { λ s. record { tree = s.program; lines = s.lines } };

    ghost invariant = { λ s. IsLined s.program s.lines };
}

impl Source {
    ghost use Rattle.c_prog.specs.Lines.{SourceTree, IsLined};
    ghost use Rattle.c_prog.specs.Valid.{IsValid};

    /// A program with its lines.
    pub fn of(program: Program, lines: Lines) -> Source
        requires { IsLined program lines }
        ensures { result ≡ record { tree = program; lines = lines } }
    {
        Source { program, lines }
    }

    /// The program.
    pub fn program(&self) -> &Program
        ensures { result.now ≡ self.now.tree }
    {
        &self.program
    }

    /// The lines of the program.
    pub fn lines(&self) -> &Lines
        ensures same { result.now ≡ self.now.lines }
        ensures lined { IsLined self.now.tree self.now.lines }
    {
        &self.lines
    }
}
