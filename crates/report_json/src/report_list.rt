ghost use Rattle.std.specs.Prelude.{◌≡◌, [], ◌∷◌, ◌++◌, ◌<◌, length, slice_get, OnOk, OnErr};

use crate::report::Report;
use cfix_base::{List, NoMemory};
use std::alloc::Global;
use std::marker::Model;

/// A list of reports. Contracts see it as a list of its items.
#[derive(Debug, Drop)]
pub struct Reports {
    list: List<Report>,
}

impl Model for Reports {
    ghost use Rattle.std.specs.Prelude.{List};
    ghost use Rattle.report_json.specs.declared.report.Report.{Report};

    ghost Value = { List Report };

    ghost view = { λ reports. reports.list };
}

impl Reports {
    /// The empty list. It takes no memory, and keeps the allocator for later.
    pub fn new(alloc: Global) -> Reports
        ensures { result ≡ [] }
    {
        Reports {
            list: List::new(alloc),
        }
    }

    /// The number of reports.
    pub fn len(&self) -> usize
        ensures { result ≡ length self.now }
    {
        self.list.len()
    }

    /// The reports.
    pub fn as_slice(&self) -> &[Report]
        ensures { result.now ≡ self.now }
    {
        self.list.as_slice()
    }

    /// The report at `place`, counted from 0.
    pub fn at(&self, place: usize) -> &Report
        requires { place < length self.now }
        ensures { slice_get self.now place ≡ Some result.now }
    {
        self.list.at(place)
    }

    /// Adds `report` at the end. After an error the list is as before.
    pub fn push(&mut self, report: Report) -> Result<(), NoMemory>
        ensures pushed { OnOk result (self.new ≡ self.old ++ report ∷ []) }
        ensures unchanged { OnErr result (self.new ≡ self.old) }
    {
        self.list.push(report)
    }
}
