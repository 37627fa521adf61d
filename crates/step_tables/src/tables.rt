ghost use Rattle.std.specs.Prelude.{◌≡◌, ◌<◌, length, map, IfOk, MatchOption, slice_get, Option, Some, None};
ghost use Rattle.cfix_base.specs.declared.place.Place.TheVariants.{Start};
ghost use Rattle.flow_graph.specs.Flow.{graph_of, number_of};
ghost use Rattle.step_state.specs.Items.{kinds_of, params_of, some_ops};
ghost use Rattle.c_prog.specs.Places.{start_ops};
ghost use Rattle.step_tables.specs.Rows.{IsAbsent, IsBehind, IsRow};
ghost use Rattle.step_tables.specs.TreeCode.{next_of, tree_code, variable_of};

use crate::functions::{keep_tree, main_number};
use crate::row::Row;
use crate::views::{after_ops, false_ops, is_condition, node_gives, node_text, true_ops};
use c_marks::marks;
use c_prog::{Function, Global as Variable, LocalKind, Program};
use cfix_base::{AccessId, FnId, List, Marks, NoMemory, NodeId, Op, OrderId, Place, VarId};
use flow_graph::{Flow, flows};
use std::alloc::Global;
use std::marker::Model;
use step_state::{Item, Operand};

/// What a machine reads of its program, by number. Contracts see it as the program's tree. No
/// look-up takes memory, and each takes constant time.
#[derive(Drop)]
pub struct Tables<'a> {
    program: &'a Program,
    rows: List<Row<'a>>,
    locals: List<List<LocalKind>>,
    flows: List<Flow>,
    main: FnId,
    marks: Marks,
}

impl<'a> Model for Tables<'a> {
    ghost use Rattle.c_prog.specs.declared.tree.Tree.{Tree};

    ghost Value = { Tree };

    ghost use Rattle.c_prog.specs.contracts.tree.Tree as row_of;

    ghost coded = { row_of.the_row.coded };

    ghost view = { λ t. t.program.now };

    ghost use Rattle.step_tables.specs.Kept.{AreTables};

    ghost invariant = { λ t. AreTables t.program.now t.rows t.locals t.flows t.main t.marks };
}

impl<'a> Tables<'a> {
    /// The tables of a program, made in one walk over its tree.
    pub fn of(alloc: Global, program: &'a Program) -> Result<Tables<'a>, NoMemory>
        ensures { IfOk result (λ tables. tables ≡ program.now) }
    {
        let tree = program.tree();
        let nodes = keep_tree(alloc, tree)?;
        let flows = flows(alloc, program)?;
        let main = FnId {
            number: main_number(tree.functions.as_slice()),
        };
        Ok(Tables {
            program,
            rows: nodes.rows,
            locals: nodes.locals,
            flows,
            main,
            marks: marks(program),
        })
    }

    /// The program.
    pub fn program(&self) -> &'a Program
        ensures { result.now ≡ self.now }
    {
        self.program
    }

    fn row(&self, node: NodeId) -> Option<&Row<'a>>
        ensures { MatchOption result (IsAbsent self.now node.number) (λ row. IsRow self.now node.number row.now) }
    {
        self.rows.as_slice().get(node.number as usize)
    }

    fn function(&self, function: FnId) -> Option<&Function>
        ensures { MatchOption result (slice_get self.now.functions function.number ≡ None) (λ f. slice_get self.now.functions function.number ≡ Some f.now) }
    {
        let functions = self.program.tree().functions.as_slice();
        functions.get(function.number as usize)
    }

    /// The items of a node; none where the program has no such node.
    #[tactic(auto, unfolding(crate::specs::TreeCode::tree_code))]
    pub fn items(&self, node: NodeId) -> &[Item]
        ensures { result.now ≡ (tree_code self.now).items node.number }
    {
        match self.row(node) {
            None => &[],
            Some(row) => row.items.as_slice(),
        }
    }

    /// The items of the right operand of an `&&` or `||`; none where there is no such operand.
    #[tactic(auto, unfolding(crate::specs::TreeCode::tree_code))]
    pub fn operand(&self, operand: Operand) -> &[Item]
        ensures { result.now ≡ (tree_code self.now).operand operand }
    {
        match self.row(operand.node) {
            None => &[],
            Some(row) => match row.operands.as_slice().get(operand.number) {
                None => &[],
                Some(items) => items.as_slice(),
            },
        }
    }

    fn start_ops(&self, function: FnId) -> &[Op]
        ensures { result.now ≡ some_ops (start_ops (slice_get self.now.functions function.number)) }
    {
        match self.function(function) {
            None => &[],
            Some(function) => function.start.as_slice(),
        }
    }

    /// The operations at a place; none where the program has no such place.
    #[tactic(auto, unfolding(crate::specs::TreeCode::tree_code))]
    pub fn ops(&self, place: Place) -> &[Op]
        ensures { result.now ≡ (tree_code self.now).ops place }
    {
        match place {
            Place::Start(function) => self.start_ops(function),
            Place::After(node) => match self.row(node) {
                None => &[],
                Some(row) => after_ops(row.node),
            },
            Place::True(node) => match self.row(node) {
                None => &[],
                Some(row) => true_ops(row.node),
            },
            Place::False(node) => match self.row(node) {
                None => &[],
                Some(row) => false_ops(row.node),
            },
        }
    }

    // The flow of the function with this number.
    fn flow(&self, function: FnId) -> &Flow
        requires { function.number < length self.now.functions }
        ensures { result.now ≡ graph_of self.now function.number }
    {
        self.flows.at(function.number as usize)
    }

    // The node that control meets first in a function.
    fn first(&self, function: FnId) -> Option<NodeId>
        ensures { number_of result ≡ next_of self.now (Start function) }
    {
        match self.function(function) {
            None => None,
            Some(_) => self.flow(function).first(),
        }
    }

    // The node that control meets after a place behind this node, which is of a condition or not.
    fn onward(&self, node: NodeId, of_condition: bool, place: Place) -> Option<NodeId>
        requires { IsBehind place node.number of_condition }
        ensures { number_of result ≡ next_of self.now place }
    {
        match self.row(node) {
            None => None,
            Some(row) => {
                if is_condition(row.node) == of_condition {
                    self.flow(row.of).next(place)
                } else {
                    None
                }
            }
        }
    }

    /// The node that control meets after a place. None is the exit, and comes where the program has
    /// no such place.
    #[tactic(auto, unfolding(crate::specs::TreeCode::tree_code))]
    pub fn next(&self, place: Place) -> Option<NodeId>
        ensures { number_of result ≡ (tree_code self.now).next place }
    {
        match place {
            Place::Start(function) => self.first(function),
            Place::After(node) => self.onward(node, false, place),
            Place::True(node) | Place::False(node) => self.onward(node, true, place),
        }
    }

    /// The string of a printf; empty where the node is none.
    #[tactic(auto, unfolding(crate::specs::TreeCode::tree_code))]
    pub fn text(&self, node: NodeId) -> &[u8]
        ensures { result.now ≡ (tree_code self.now).text node.number }
    {
        match self.row(node) {
            None => &[],
            Some(row) => node_text(row.node),
        }
    }

    /// Whether a node is a `return` with a value.
    #[tactic(auto, unfolding(crate::specs::TreeCode::tree_code))]
    pub fn gives(&self, node: NodeId) -> bool
        ensures { result ≡ (tree_code self.now).gives node.number }
    {
        match self.row(node) {
            None => false,
            Some(row) => node_gives(row.node),
        }
    }

    /// How many parameters a function has; none where the program has no such function.
    #[tactic(auto, unfolding(crate::specs::TreeCode::tree_code))]
    pub fn params(&self, function: FnId) -> usize
        ensures { result ≡ (tree_code self.now).params function.number }
    {
        match self.function(function) {
            None => 0,
            Some(function) => function.params.len(),
        }
    }

    /// What a function declares, in the order of the text; nothing where the program has no such
    /// function.
    #[tactic(auto, unfolding(crate::specs::TreeCode::tree_code))]
    pub fn locals(&self, function: FnId) -> &[LocalKind]
        ensures { result.now ≡ (tree_code self.now).locals function.number }
    {
        match self.locals.as_slice().get(function.number as usize) {
            None => &[],
            Some(locals) => locals.as_slice(),
        }
    }

    /// The global variables.
    #[tactic(auto, unfolding(crate::specs::TreeCode::tree_code))]
    pub fn globals(&self) -> &[Variable]
        ensures { map (λ global. global.kind) result.now ≡ (tree_code self.now).globals }
    {
        self.program.tree().globals.as_slice()
    }

    /// The function main.
    #[tactic(auto, unfolding(crate::specs::TreeCode::tree_code))]
    pub fn main(&self) -> FnId
        ensures { result.number ≡ (tree_code self.now).main }
    {
        self.main
    }

    /// The orders that begin with a token.
    #[tactic(auto, unfolding(crate::specs::TreeCode::tree_code))]
    pub fn starts(&self) -> &[OrderId]
        ensures { result.now ≡ (tree_code self.now).starts }
    {
        self.program.tree().starts.as_slice()
    }

    /// How many inserted locks there are: those below the program's mark.
    #[tactic(auto, unfolding(crate::specs::TreeCode::tree_code))]
    pub fn locks(&self) -> usize
        ensures { result ≡ (tree_code self.now).locks }
    {
        self.marks.lock as usize
    }

    /// How many orders there are: those below the program's mark.
    #[tactic(auto, unfolding(crate::specs::TreeCode::tree_code))]
    pub fn orders(&self) -> usize
        ensures { result ≡ (tree_code self.now).orders }
    {
        self.marks.order as usize
    }

    /// The variable of an access, if the program has the access.
    pub fn variable(&self, site: AccessId) -> Option<VarId>
        ensures { result ≡ variable_of self.now site }
    {
        match self.row(site.node) {
            None => None,
            Some(row) => row.variables.as_slice().get(site.index as usize).copied(),
        }
    }
}
