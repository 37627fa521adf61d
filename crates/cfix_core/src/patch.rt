ghost use Rattle.std.specs.Prelude.{◌≡◌, ◌<◌, ◌≤◌, length, true, Some, None, IfOk, IfErr};
ghost use Rattle.first_form.specs.Form.{is_first_form, plains_of};
ghost use Rattle.report_json.specs.Reading.{SpellsReports};
ghost use Rattle.cfix_core.specs.OneReport.{is_bare};
ghost use Rattle.cfix_core.specs.Failures.{FailsBy};
ghost use Rattle.cfix_core.specs.Repair.{Wrong, Unbound, IsRepaired, Repaired, RefusedBy, RepairedFor, RefusedWith, failure_of};
ghost use Rattle.c_print.specs.Text.Canonical.{canonical};
ghost use Rattle.first_form.specs.Form.{acts_of};
ghost use Rattle.first_form.specs.Straight.{guarded};

use crate::binding::{bound_of, region_of};
use crate::failure::{Failure, Refusal};
use crate::one_report::only_report;
use crate::reading::first_source_of;
use c_print::print;
use c_source::Source;
use cfix_base::NoMemory;
use first_form::{Plain, Region, guarded, plains_of};
use report_json::{Report, ReportFault, Reports, reports};
use std::alloc::Global;

/// The failure for a fault of the text of the reports.
fn failure_of(fault: ReportFault) -> Failure
    ensures { result ≡ failure_of fault }
{
    match fault {
        ReportFault::NoMemory => Failure::NoMemory,
        ReportFault::BadJson => Failure::Refused(Refusal::NotJson),
        ReportFault::Shape(which) => Failure::Refused(Refusal::Shape(which)),
        ReportFault::TooMany => Failure::Refused(Refusal::TooMany),
    }
}

/// The reports that a text spells.
fn reports_of(alloc: Global, text: &[u8]) -> Result<Reports, Failure>
    ensures read { IfOk result (SpellsReports text.now) }
    ensures refused { IfErr result (FailsBy (λ refusal. Wrong refusal text.now)) }
{
    match reports(alloc, text) {
        Ok(list) => Ok(list),
        Err(fault) => Err(failure_of(fault)),
    }
}

/// The text of a program of the first form with the operations round a region.
fn guarded_text(
    alloc: Global,
    source: &Source,
    plains: &[Plain],
    region: Region,
) -> Result<Vec<u8>, NoMemory>
    requires form { is_first_form source.now.tree ≡ true }
    requires statements { plains.now ≡ plains_of source.now.tree }
    ensures { IfOk result (λ text. text.items ≡ canonical (guarded source.now.tree.globals (acts_of plains.now) (Some region))) }
{
    let program = guarded(alloc, source.program(), plains, region)?;
    print(alloc, &program)
}

/// The text of the program patched for a report.
fn patched_for(alloc: Global, source: &Source, report: &Report) -> Result<Vec<u8>, Failure>
    requires form { is_first_form source.now.tree ≡ true }
    requires bare { is_bare report.now ≡ true }
    ensures done { IfOk result (λ text. IsRepaired source.now report.now text.items) }
    ensures refused { IfErr result (FailsBy (λ refusal. Unbound refusal source.now report.now)) }
{
    let plains = plains_of(alloc, source.program())?;
    let bound = bound_of(alloc, source, report)?;
    match region_of(&bound) {
        Some(region) => Ok(guarded_text(alloc, source, plains.as_slice(), region)?),
        None => Err(Failure::Refused(Refusal::OtherMode)),
    }
}

/// The text of the program patched for reports that were read.
fn patched_by(alloc: Global, source: &Source, list: &Reports) -> Result<Vec<u8>, Failure>
    requires { is_first_form source.now.tree ≡ true }
    ensures done { IfOk result (λ text. RepairedFor source.now list.now text.items) }
    ensures refused { IfErr result (FailsBy (λ refusal. RefusedWith refusal source.now list.now)) }
{
    match only_report(list.as_slice()) {
        Some(report) => patched_for(alloc, source, report),
        None => Err(Failure::Refused(Refusal::Reports)),
    }
}

/// The text of the patched program, of the bytes of the two files.
pub fn patched(alloc: Global, source: &[u8], reports: &[u8]) -> Result<Vec<u8>, Failure>
    requires { length source.now ≤ 4194304 }
    ensures done { IfOk result (λ text. Repaired source.now reports.now text.items) }
    ensures refused { IfErr result (FailsBy (λ refusal. RefusedBy refusal source.now reports.now)) }
{
    let program = first_source_of(alloc, source)?;
    let list = reports_of(alloc, reports)?;
    match patched_by(alloc, &program, &list) {
        Ok(text) => Ok(text),
        Err(failure) => Err(failure),
    }
}
