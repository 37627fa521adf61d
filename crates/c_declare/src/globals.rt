ghost use Rattle.std.specs.Prelude.{◌≡◌, ◌++◌, pos, ◌≤ℤ◌, IfOk};
ghost use Rattle.c_prog.specs.Valid.Expressions.{is_main_name};
ghost use Rattle.c_raw.specs.Tokens.{ident_view};
ghost use Rattle.c_names.specs.Faults.{noted_all};
ghost use Rattle.c_names.specs.Files.{no_main_faults, variable_faults, number_faults};
ghost use Rattle.c_names.specs.Names.{length_faults, size_length};
ghost use Rattle.c_names.specs.Sources.{signed};
ghost use Rattle.c_raw.specs.Decls.{size_view};
ghost use Rattle.c_scope.specs.Tables.{names_from};

use crate::declarator::Declarator;
use c_names::{Fault, FaultKind};
use c_prog::GlobalKind;
use c_raw::{GlobalCond, GlobalInt, GlobalMutex, Hold, Ident, Size};
use c_scope::{
    Scope, Table, VarKind, note_if, note_length, note_reserved, note_size, size_length, size_number,
};
use cfix_base::{List, NoMemory, Spot};
use std::alloc::Global;

/// Whether the name is that of the function in which a run begins.
pub fn is_main(name: &Ident) -> bool
    ensures { result ≡ is_main_name (ident_view name.now).text }
{
    name.text.as_slice() == b"main".as_slice()
}

/// A variable or defined name is not named main.
pub fn note_no_main(least: &mut Option<Fault>, name: &Ident)
    ensures { least.new ≡ noted_all least.old (no_main_faults (ident_view name.now)) }
{
    note_if(least, is_main(name), name.spot, FaultKind::WrongUse);
}

#[tactic(auto, using(c_scope::proofs::Faults::faults))]
fn note_variable(least: &mut Option<Fault>, name: &Ident)
    ensures { least.new ≡ noted_all least.old (variable_faults (ident_view name.now)) }
{
    note_reserved(least, name);
    note_no_main(least, name);
}

// A number in a declarator sees the names of the file alone.
fn note_number(alloc: Global, least: &mut Option<Fault>, names: &Table, size: &Size)
    ensures { least.new ≡ noted_all least.old (number_faults (names_from names.now) (size_view size.now)) }
{
    note_size(least, names, &Scope::new(alloc), size);
}

#[tactic(auto, using(c_scope::proofs::Faults::faults))]
fn note_array(alloc: Global, least: &mut Option<Fault>, names: &Table, name: &Ident, size: &Size)
    ensures { least.new ≡ noted_all least.old (variable_faults (ident_view name.now) ++ (length_faults (size_length (names_from names.now) (size_view size.now)) (ident_view name.now).spot ++ number_faults (names_from names.now) (size_view size.now))) }
{
    note_variable(least, name);
    note_length(least, size_length(names, size), name.spot);
    note_number(alloc, least, names, size);
}

fn global_of(alloc: Global, name: &Ident, kind: GlobalKind) -> Result<c_prog::Global, NoMemory>
    ensures { IfOk result (λ global. global ≡ record { name = (ident_view name.now).text; kind = kind }) }
{
    let name = List::from_vec(name.text.as_slice().to_vec(alloc)?);
    Ok(c_prog::Global { name, kind })
}

fn signed(minus: Option<Spot>, number: i32) -> i32
    requires { pos 0 ≤ℤ number }
    ensures { result ≡ signed minus number }
{
    match minus {
        None => number,
        Some(_) => -number,
    }
}

impl Declarator for GlobalInt {
    ghost use Rattle.c_raw.specs.Decls.{global_int_view};
    ghost use Rattle.c_names.specs.Declarations.{global_int_variable};
    ghost use Rattle.c_names.specs.Files.{global_int_faults, global_int_cells};
    ghost use Rattle.c_names.specs.Sources.{global_int_of};
    ghost use Rattle.c_declare.specs.Counting.{has_value};

    ghost variable = { λ x. global_int_variable (global_int_view x) };

    ghost faults = { λ names x. global_int_faults names (global_int_view x) };

    ghost spelled = { λ names x. global_int_of names (global_int_view x) };

    ghost cells = { λ names x. global_int_cells names (global_int_view x) };

    ghost fits = { λ names x. has_value names (global_int_view x) };

    fn name(&self) -> &Ident {
        match self {
            GlobalInt::OneGlobal(name) => name,
            GlobalInt::SetGlobal { name, .. } => name,
            GlobalInt::GlobalArray { name, .. } => name,
        }
    }

    fn kind(&self) -> VarKind {
        match self {
            GlobalInt::OneGlobal(_) | GlobalInt::SetGlobal { .. } => VarKind::Int,
            GlobalInt::GlobalArray { .. } => VarKind::IntArray,
        }
    }

    fn cells_at(&self, names: &Table) -> (Spot, u32) {
        match self {
            GlobalInt::OneGlobal(name) => (name.spot, 1),
            GlobalInt::SetGlobal { name, .. } => (name.spot, 1),
            GlobalInt::GlobalArray { name, size, .. } => (name.spot, size_length(names, size)),
        }
    }

    #[tactic(auto, using(c_scope::proofs::Faults::faults))]
    fn note(&self, alloc: Global, least: &mut Option<Fault>, names: &Table) {
        match self {
            GlobalInt::OneGlobal(name) => note_variable(least, name),
            GlobalInt::SetGlobal { name, value, .. } => {
                note_variable(least, name);
                note_number(alloc, least, names, value);
            }
            GlobalInt::GlobalArray { name, size, .. } => {
                note_array(alloc, least, names, name, size);
            }
        }
    }

    fn spell(&self, alloc: Global, names: &Table) -> Result<c_prog::Global, NoMemory> {
        match self {
            GlobalInt::OneGlobal(name) => global_of(alloc, name, GlobalKind::Int(0)),
            GlobalInt::SetGlobal {
                name,
                minus,
                value,
                ..
            } => {
                let number = signed(*minus, size_number(names, value));
                global_of(alloc, name, GlobalKind::Int(number))
            }
            GlobalInt::GlobalArray { name, size, .. } => {
                global_of(alloc, name, GlobalKind::IntArray(size_length(names, size)))
            }
        }
    }
}

impl Declarator for Hold {
    ghost use Rattle.std.specs.Prelude.{true};
    ghost use Rattle.c_raw.specs.Decls.{hold_view};
    ghost use Rattle.c_names.specs.Declarations.{hold_variable};
    ghost use Rattle.c_names.specs.Files.{global_hold_faults, global_hold_cells};
    ghost use Rattle.c_names.specs.Sources.{global_hold_of};

    ghost variable = { λ x. hold_variable (hold_view x) };

    ghost faults = { λ names x. global_hold_faults names (hold_view x) };

    ghost spelled = { λ names x. global_hold_of names (hold_view x) };

    ghost cells = { λ names x. global_hold_cells names (hold_view x) };

    ghost fits = { λ names x. true };

    fn name(&self) -> &Ident {
        match self {
            Hold::OneThread(name) => name,
            Hold::Threads { name, .. } => name,
        }
    }

    fn kind(&self) -> VarKind {
        match self {
            Hold::OneThread(_) => VarKind::Thread,
            Hold::Threads { .. } => VarKind::ThreadArray,
        }
    }

    fn cells_at(&self, names: &Table) -> (Spot, u32) {
        match self {
            Hold::OneThread(name) => (name.spot, 1),
            Hold::Threads { name, size, .. } => (name.spot, size_length(names, size)),
        }
    }

    #[tactic(auto, using(c_scope::proofs::Faults::faults))]
    fn note(&self, alloc: Global, least: &mut Option<Fault>, names: &Table) {
        match self {
            Hold::OneThread(name) => note_variable(least, name),
            Hold::Threads { name, size, .. } => note_array(alloc, least, names, name, size),
        }
    }

    fn spell(&self, alloc: Global, names: &Table) -> Result<c_prog::Global, NoMemory> {
        match self {
            Hold::OneThread(name) => global_of(alloc, name, GlobalKind::Thread),
            Hold::Threads { name, size, .. } => {
                global_of(
                    alloc,
                    name,
                    GlobalKind::ThreadArray(size_length(names, size)),
                )
            }
        }
    }
}

impl Declarator for GlobalMutex {
    ghost use Rattle.std.specs.Prelude.{true};
    ghost use Rattle.c_raw.specs.Decls.{global_mutex_view};
    ghost use Rattle.c_names.specs.Declarations.{mutex_variable};
    ghost use Rattle.c_names.specs.Files.{global_mutex_faults, global_mutex_cells};
    ghost use Rattle.c_names.specs.Sources.{global_mutex_of};

    ghost variable = { λ x. mutex_variable (global_mutex_view x) };

    ghost faults = { λ names x. global_mutex_faults (global_mutex_view x) };

    ghost spelled = { λ names x. global_mutex_of (global_mutex_view x) };

    ghost cells = { λ names x. global_mutex_cells (global_mutex_view x) };

    ghost fits = { λ names x. true };

    fn name(&self) -> &Ident {
        match self {
            GlobalMutex::OneMutex(name) => name,
            GlobalMutex::SetMutex { name, .. } => name,
        }
    }

    fn kind(&self) -> VarKind {
        VarKind::Mutex
    }

    fn cells_at(&self, _names: &Table) -> (Spot, u32) {
        match self {
            GlobalMutex::OneMutex(name) => (name.spot, 1),
            GlobalMutex::SetMutex { name, .. } => (name.spot, 1),
        }
    }

    fn note(&self, _alloc: Global, least: &mut Option<Fault>, _names: &Table) {
        note_variable(least, self.name());
    }

    fn spell(&self, alloc: Global, _names: &Table) -> Result<c_prog::Global, NoMemory> {
        global_of(alloc, self.name(), GlobalKind::Mutex)
    }
}

impl Declarator for GlobalCond {
    ghost use Rattle.std.specs.Prelude.{true};
    ghost use Rattle.c_raw.specs.Decls.{global_cond_view};
    ghost use Rattle.c_names.specs.Declarations.{cond_variable};
    ghost use Rattle.c_names.specs.Files.{global_cond_faults, global_cond_cells};
    ghost use Rattle.c_names.specs.Sources.{global_cond_of};

    ghost variable = { λ x. cond_variable (global_cond_view x) };

    ghost faults = { λ names x. global_cond_faults (global_cond_view x) };

    ghost spelled = { λ names x. global_cond_of (global_cond_view x) };

    ghost cells = { λ names x. global_cond_cells (global_cond_view x) };

    ghost fits = { λ names x. true };

    fn name(&self) -> &Ident {
        match self {
            GlobalCond::OneCond(name) => name,
            GlobalCond::SetCond { name, .. } => name,
        }
    }

    fn kind(&self) -> VarKind {
        VarKind::Cond
    }

    fn cells_at(&self, _names: &Table) -> (Spot, u32) {
        match self {
            GlobalCond::OneCond(name) => (name.spot, 1),
            GlobalCond::SetCond { name, .. } => (name.spot, 1),
        }
    }

    fn note(&self, _alloc: Global, least: &mut Option<Fault>, _names: &Table) {
        note_variable(least, self.name());
    }

    fn spell(&self, alloc: Global, _names: &Table) -> Result<c_prog::Global, NoMemory> {
        global_of(alloc, self.name(), GlobalKind::Cond)
    }
}
