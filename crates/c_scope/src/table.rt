ghost use Rattle.std.specs.Prelude.{◌≡◌, [], OnOk};
ghost use Rattle.c_scope.specs.Tables.{fresh, form_or, joined};

use crate::kind::VarKind;
use c_prog::FnKind;
use cfix_base::NoMemory;
use indexmap::IndexMap;
use std::alloc::Global;
use std::marker::Model;

/// What a declaration of the file declares: a variable with its number, a function with its number
/// and how many parameters it has, or the number that a name is defined as. Variables and functions
/// are counted from 0, each on their own.
#[derive(Clone, Copy, Debug, PartialEq, Eq, Drop)]
pub enum Meaning {
    Variable {
        number: u32,
        kind: VarKind,
    },
    Function {
        number: u32,
        kind: FnKind,
        params: usize,
    },
    Number(i32),
}

/// What a file says of a name that it declares: what the first declaration declares, the kind and
/// the number of parameters of the first function with this name, and whether some `#define`
/// defines it.
#[derive(Clone, Copy, Debug, PartialEq, Eq, Drop)]
pub struct Row {
    pub first: Meaning,
    pub form: Option<(FnKind, usize)>,
    pub is_defined: bool,
}

/// The names that a file declares, in the order of their first declarations.
#[derive(Drop)]
pub struct Table {
    map: IndexMap<Vec<u8>, Row>,
}

impl Model for Table {
    ghost use Rattle.c_scope.specs.Tables.{Rows, rows_of};

    ghost Value = { Rows };

    ghost view = { λ t. rows_of t.map.entries };
}

// What a declaration says of its name alone.
fn fresh(meaning: Meaning) -> Row
    ensures { result ≡ fresh meaning }
{
    match meaning {
        Meaning::Variable { .. } => Row {
            first: meaning,
            form: None,
            is_defined: false,
        },
        Meaning::Function { kind, params, .. } => Row {
            first: meaning,
            form: Some((kind, params)),
            is_defined: false,
        },
        Meaning::Number(_) => Row {
            first: meaning,
            form: None,
            is_defined: true,
        },
    }
}

fn form_or(form: Option<(FnKind, usize)>, other: Option<(FnKind, usize)>) -> Option<(FnKind, usize)>
    ensures { result ≡ form_or form other }
{
    match form {
        Some(form) => Some(form),
        None => other,
    }
}

// What a declaration adds to what is said of its name before it.
fn joined(before: Option<Row>, meaning: Meaning) -> Row
    ensures { result ≡ joined before meaning }
{
    let own = fresh(meaning);
    match before {
        None => own,
        Some(row) => Row {
            first: row.first,
            form: form_or(row.form, own.form),
            is_defined: row.is_defined || own.is_defined,
        },
    }
}

impl Table {
    ghost use Rattle.c_scope.specs.Tables.{row_of, joined, with_row};

    /// The table of a file that declares nothing. It takes no memory.
    pub fn new(alloc: Global) -> Table
        ensures { result ≡ [] }
    {
        Table {
            map: IndexMap::new(alloc),
        }
    }

    /// What the file says of a name, if it declares it. It takes the same time in every table.
    pub fn row(&self, text: &[u8]) -> Option<Row>
        ensures { result ≡ row_of text.now self.now }
    {
        self.map.get(text).copied()
    }

    /// Adds a declaration of a name.
    pub fn declare(&mut self, text: Vec<u8>, meaning: Meaning) -> Result<(), NoMemory>
        ensures { OnOk result (self.new ≡ with_row text.items (joined (row_of text.items self.old) meaning) self.old) }
    {
        let row = joined(self.row(text.as_slice()), meaning);
        self.map.insert(text, row)?;
        Ok(())
    }
}
