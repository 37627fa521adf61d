ghost use Rattle.std.specs.Prelude.{◌≡◌, Bool, true, List, IfOk};
ghost use Rattle.c_names.specs.declared.fault.Fault as f;
ghost use Rattle.c_prog.specs.declared.global.Global as p;
ghost use Rattle.c_raw.specs.Tokens.{ident_view};
ghost use Rattle.c_names.specs.Declarations.{Variable};
ghost use Rattle.c_names.specs.Faults.{noted_all};
ghost use Rattle.c_names.specs.Limits.{Cells};
ghost use Rattle.c_names.specs.Uses.{Names};
ghost use Rattle.c_scope.specs.Tables.{names_from};
ghost use Rattle.c_declare.specs.Declaring.{kind_kept};

use c_names::Fault;
use c_raw::Ident;
use c_scope::{Table, VarKind};
use cfix_base::{NoMemory, Spot};
use std::alloc::Global;

/// A declarator of a global variable.
pub trait Declarator: Drop {
    /// What it declares.
    ghost variable: { Self → Variable };

    /// The faults of its names.
    ghost faults: { Names → Self → List f.Fault };

    /// The variable that it spells.
    ghost spelled: { Names → Self → p.Global };

    /// Its name's place, and how many cells the variable has.
    ghost cells: { Names → Self → Cells };

    /// Its number is one that a text spells.
    ghost fits: { Names → Self → Bool };

    /// The name of the variable.
    fn name(&self) -> &Ident
        ensures { ident_view result.now ≡ (variable self.now).0 };

    /// The kind of the variable.
    fn kind(&self) -> VarKind
        ensures { result ≡ kind_kept (variable self.now).1 };

    /// Its name's place, and how many cells the variable has: a scalar one, an array its length.
    fn cells_at(&self, names: &Table) -> (Spot, u32)
        ensures { result ≡ cells (names_from names.now) self.now };

    /// Notes the faults of its names.
    fn note(&self, alloc: Global, least: &mut Option<Fault>, names: &Table)
        ensures { least.new ≡ noted_all least.old (faults (names_from names.now) self.now) };

    /// The variable.
    fn spell(&self, alloc: Global, names: &Table) -> Result<c_prog::Global, NoMemory>
        requires { fits (names_from names.now) self.now ≡ true }
        ensures { IfOk result (λ global. global ≡ spelled (names_from names.now) self.now) };
}
