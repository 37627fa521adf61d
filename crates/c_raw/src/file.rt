use crate::decl::{Globals, Qualifier};
use crate::op::Op;
use crate::stmt::Item;
use crate::token::{Ident, Numeral, Text, Token};
use cfix_base::{List, Spot};
use sqlite_items::{Boxed, Items};

/// What an include names (6.10.2 of ISO/IEC 9899:2011): `<tokens>` or a string.
#[derive(Drop)]
pub enum Header {
    Angled {
        before: Spot,
        inside: List<Token>,
        after: Spot,
    },
    Quoted(Text),
}

/// What a define stands for: a number, or one in parentheses.
#[derive(Clone, Copy, Debug, PartialEq, Eq)]
pub enum Replacement {
    Plainly(Numeral),
    InParens {
        before: Spot,
        number: Numeral,
        after: Spot,
    },
}

/// `int` or `void` before a function's name
#[derive(Clone, Copy, Debug, PartialEq, Eq)]
pub enum Returns {
    Int,
    Void,
}

/// `int name`; a prototype's parameter may have no name
#[derive(Drop)]
pub struct Param {
    pub at: Spot,
    pub name: Option<Ident>,
}

/// What stands in the parentheses of a head; each parameter but the first has its comma before it.
#[derive(Drop)]
pub enum Params {
    NoParams,
    /// `void`
    VoidParams(Spot),
    SomeParams {
        first: Param,
        more: List<(Spot, Param)>,
    },
}

/// The head of a function, with its `static` where it has one.
#[derive(Drop)]
pub enum Head {
    Plain {
        internal: Option<Spot>,
        returns: Returns,
        at: Spot,
        name: Ident,
        before: Spot,
        params: Params,
        after: Spot,
    },
    /// `void *name(void *param)`
    Thread {
        internal: Option<Spot>,
        at: Spot,
        star: Spot,
        name: Ident,
        before: Spot,
        void: Spot,
        param_star: Spot,
        param: Option<Ident>,
        after: Spot,
    },
}

/// A function with its body; each operation at its start has its semicolon behind it.
#[derive(Drop)]
pub struct Function {
    pub head: Head,
    pub before: Spot,
    pub ops: List<(Op, Spot)>,
    pub items: Items<Item>,
    pub after: Spot,
}

/// What a file is made of.
#[derive(Drop)]
pub enum Top {
    /// `#include header`, with the places of `#` and `include`
    Include {
        at: Spot,
        name: Spot,
        header: Header,
    },
    /// `#define defined value`, with the places of `#` and `define`
    Define {
        at: Spot,
        name: Spot,
        defined: Ident,
        value: Replacement,
    },
    /// Global variables, with each `static` and `volatile` before them.
    Variables {
        qualifiers: List<(Qualifier, Spot)>,
        globals: Boxed<Globals>,
        end: Spot,
    },
    Prototype {
        head: Boxed<Head>,
        end: Spot,
    },
    Function(Boxed<Function>),
}

/// A file, and where its text ends.
#[derive(Drop)]
pub struct Raw {
    pub tops: List<Top>,
    pub end: Spot,
}
