use crate::node_set::NodeSet;
use cfix_base::List;

/// A class of atomicity reports, which are served by one lock.
#[derive(Debug, Drop)]
pub struct Class {
    /// The union of the guards of its reports.
    pub nodes: NodeSet,
    /// Its reports, rising; they count the atomicity reports alone, from 0.
    pub reports: List<u32>,
}

/// The classes, numbered by their least report.
pub type Classes = List<Class>;
