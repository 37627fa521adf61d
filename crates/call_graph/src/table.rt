ghost use Rattle.std.specs.Prelude.{◌≡◌, ◌<◌, ◌↔◌, length, Some, IsTrue};

use crate::site::Site;
use cfix_base::{FnId, List, NodeId};
use plan_types::FnSet;
use std::marker::Model;

/// The calls of a program, creations of threads, and roots.
#[derive(Debug, Drop)]
pub struct Calls {
    /// The nodes, by their numbers.
    sites: List<Site>,
    /// Of each function, the nodes that call it.
    callers: List<List<NodeId>>,
    /// Of each function, whether it is main.
    mains: List<bool>,
    /// The functions whose threads nodes create.
    created: FnSet,
}

impl Model for Calls {
    ghost use Rattle.call_graph.specs.Sites.{CallGraph};

    ghost Value = { CallGraph };

    ghost view = { λ calls. record { sites = calls.sites; mains = calls.mains } };

    ghost use Rattle.call_graph.specs.Kept.{AreKept};

    ghost invariant = { λ calls. AreKept calls.sites calls.mains calls.created calls.callers };
}

impl Calls {
    ghost use Rattle.call_graph.specs.Calls.{function_of, callee_of, created_of, AreCallers, IsRoot};
    ghost use Rattle.call_graph.specs.Kept.{AreKept};

    /// The calls that these tables hold.
    pub(crate) fn of(
        sites: List<Site>,
        callers: List<List<NodeId>>,
        mains: List<bool>,
        created: FnSet,
    ) -> Calls
        requires { AreKept sites mains created callers }
        ensures { result ≡ record { sites = sites; mains = mains } }
    {
        Calls {
            sites,
            callers,
            mains,
            created,
        }
    }

    /// The function in which a node stands.
    pub fn function_of(&self, node: NodeId) -> FnId
        requires { node.number < length self.now.sites }
        ensures { function_of self.now.sites node ≡ Some result }
    {
        self.sites.at(node.number as usize).of
    }

    /// The function that a node calls; none if it is no call. The creation of a thread is no call.
    pub fn callee(&self, node: NodeId) -> Option<FnId>
        requires { node.number < length self.now.sites }
        ensures { result ≡ callee_of self.now.sites node }
    {
        self.sites.at(node.number as usize).callee
    }

    /// The function whose thread a node creates; none if it creates no thread.
    pub fn created(&self, node: NodeId) -> Option<FnId>
        requires { node.number < length self.now.sites }
        ensures { result ≡ created_of self.now.sites node }
    {
        self.sites.at(node.number as usize).created
    }

    /// The nodes that call a function, in rising order.
    pub fn callers(&self, of: FnId) -> &[NodeId]
        requires { of.number < length self.now.mains }
        ensures { AreCallers self.now.sites of result.now }
    {
        self.callers.at(of.number as usize).as_slice()
    }

    /// Whether threads begin in a function: it is main, or some node creates a thread of it, also
    /// one that control never meets.
    pub fn is_root(&self, of: FnId) -> bool
        requires { of.number < length self.now.mains }
        ensures { IsTrue result ↔ IsRoot self.now of }
    {
        *self.mains.at(of.number as usize) || self.created.contains(of)
    }
}
