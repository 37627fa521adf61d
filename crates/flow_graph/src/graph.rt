ghost use Rattle.std.specs.Prelude.{◌≡◌, Option, Some, None, IsSome, IfOk};
ghost use Rattle.flow_graph.specs.Flow.{number_of};
ghost use Rattle.flow_graph.specs.Table.{out_at, after_next, true_next, false_next};

use crate::backward::turned;
use crate::choice::members;
use crate::links::onward;
use crate::table::{Out, Table, out_at};
use cfix_base::{List, NoMemory, NodeId, Place};
use plan_types::NodeSet;
use std::alloc::Global;
use std::marker::Model;
use walks::walk;

/// Control flow of one function of a program.
#[derive(Debug, Drop)]
pub struct Flow {
    function: u32,
    table: Table,
    /// Of each node, the nodes to which its edges lead.
    onward: List<List<u32>>,
    /// Of each node, the nodes from which edges lead to it.
    backward: List<List<u32>>,
    size: u32,
}

impl Model for Flow {
    ghost use Rattle.flow_graph.specs.Flow.{Graph};

    ghost Value = { Graph };

    ghost use Rattle.flow_graph.specs.Table.{graph_in};

    ghost view = { λ flow. graph_in flow.function flow.table flow.size };

    ghost use Rattle.flow_graph.specs.Links.{AreLinked};

    ghost invariant = { λ flow. AreLinked flow.table flow.size flow.onward flow.backward };
}

fn after_next(out: Option<Out>) -> Option<Option<u32>>
    ensures { result ≡ after_next out }
{
    match out {
        Some(Out::After(next)) => Some(next),
        _ => None,
    }
}

fn true_next(out: Option<Out>) -> Option<Option<u32>>
    ensures { result ≡ true_next out }
{
    match out {
        Some(Out::Branch { on_true, .. }) => Some(on_true.next),
        _ => None,
    }
}

fn false_next(out: Option<Out>) -> Option<Option<u32>>
    ensures { result ≡ false_next out }
{
    match out {
        Some(Out::Branch { on_false, .. }) => Some(on_false.next),
        _ => None,
    }
}

impl Flow {
    ghost use Rattle.cfix_base.specs.declared.place.Place.TheVariants.{Start};
    ghost use Rattle.flow_graph.specs.Flow.{next_at, number_of, fn_id};
    ghost use Rattle.flow_graph.specs.Table.{graph_in};
    ghost use Rattle.flow_graph.specs.Within.{IsFitting};
    ghost use Rattle.flow_graph.specs.Flow.{edges_of};
    ghost use Rattle.flow_graph.specs.Paths.{IsReach, IsBack};

    /// The flow that a table holds. The links between nodes are found once, for all walks.
    pub(crate) fn of(
        alloc: Global,
        function: u32,
        table: Table,
        size: u32,
    ) -> Result<Flow, NoMemory>
        requires { IsFitting table size }
        ensures { IfOk result (λ flow. flow ≡ graph_in function table size) }
    {
        let onward = onward(alloc, table.outs.as_slice())?;
        let backward = turned(alloc, onward.as_slice(), table.first)?;
        Ok(Flow {
            function,
            table,
            onward,
            backward: List::from_vec(backward),
            size,
        })
    }

    /// The number of nodes of the program, which is the size of each set that walks give.
    pub fn size(&self) -> u32
        ensures { result ≡ self.now.size }
    {
        self.size
    }

    fn start(&self) -> Option<u32>
        ensures { next_at (Start (fn_id self.now.function)) self.now.ways ≡ Some result }
    {
        if self.table.outs.len() == 0 {
            None
        } else {
            Some(self.table.first)
        }
    }

    fn next_in(&self, place: Place) -> Option<Option<u32>>
        ensures { result ≡ next_at place self.now.ways }
    {
        match place {
            Place::Start(function) => {
                if function.number == self.function {
                    Some(self.start())
                } else {
                    None
                }
            }
            Place::After(node) => after_next(out_at(&self.table, node.number)),
            Place::True(node) => true_next(out_at(&self.table, node.number)),
            Place::False(node) => false_next(out_at(&self.table, node.number)),
        }
    }

    /// The node that control meets after a place of this function. None is the exit.
    pub fn next(&self, place: Place) -> Option<NodeId>
        requires { IsSome (next_at place self.now.ways) }
        ensures { next_at place self.now.ways ≡ Some (number_of result) }
    {
        node_of(self.next_in(place).unwrap())
    }

    /// The node that control meets first. None is the exit.
    pub fn first(&self) -> Option<NodeId>
        ensures { next_at (Start (fn_id self.now.function)) self.now.ways ≡ Some (number_of result) }
    {
        node_of(self.start())
    }

    /// The nodes to which a path of at least one edge leads from `from` whose inner nodes are not in
    /// `avoiding`.
    pub fn reach(
        &self,
        alloc: Global,
        from: NodeId,
        avoiding: &NodeSet,
    ) -> Result<NodeSet, NoMemory>
        ensures { IfOk result (λ set. IsReach (edges_of self.now.ways) avoiding.now from.number self.now.size set) }
    {
        let mut starts = Vec::new(alloc);
        starts.push(from.number)?;
        let first = self.table.first;
        let set = walk(
            alloc,
            self.onward.as_slice(),
            first,
            self.size,
            starts,
            avoiding.numbers(),
        )?;
        Ok(NodeSet::of(set))
    }

    /// The nodes of this function from which a path of at least one edge leads to a node of `to` with
    /// no inner node in `avoiding`.
    pub fn back(&self, alloc: Global, to: &NodeSet, avoiding: &NodeSet) -> Result<NodeSet, NoMemory>
        ensures { IfOk result (λ set. IsBack (edges_of self.now.ways) avoiding.now to.now self.now.size set) }
    {
        let first = self.table.first;
        let size = self.size;
        let count = self.table.outs.len() as u32;
        let starts = members(alloc, to, first, count)?;
        let found = walk(
            alloc,
            self.backward.as_slice(),
            first,
            size,
            starts,
            avoiding.numbers(),
        )?;
        Ok(NodeSet::of(found))
    }
}

fn node_of(number: Option<u32>) -> Option<NodeId>
    ensures { number_of result ≡ number }
{
    match number {
        None => None,
        Some(number) => Some(NodeId { number }),
    }
}
