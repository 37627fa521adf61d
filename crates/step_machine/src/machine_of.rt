use std::marker::Model;
use step_tables::Tables;

/// A program with the tables that its steps look things up in. Contracts see it as the program's
/// tree.
#[derive(Drop)]
pub struct Machine<'a> {
    pub(crate) tables: Tables<'a>,
}

impl<'a> Model for Machine<'a> {
    ghost use Rattle.c_prog.specs.declared.tree.Tree.{Tree};

    ghost Value = { Tree };

    ghost use Rattle.c_prog.specs.contracts.tree.Tree as row_of;

    ghost coded = { row_of.the_row.coded };

    ghost view = { λ m. m.tables };
}
