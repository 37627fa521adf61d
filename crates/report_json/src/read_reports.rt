ghost use Rattle.std.specs.Prelude.{◌≡◌, ◌⊎◌, ◌≤◌, ℕ, List, Ok, Err, Some, None, length, map, option_map, MatchResult, IfOk, IfErr};
ghost use Rattle.serde_json.specs.View.{view};
ghost use Rattle.report_json.specs.Members.{Each};
ghost use Rattle.report_json.specs.Shapes.{IsReport};
ghost use Rattle.report_json.specs.Reading.{IsJson, IsNoJson, outer, SpellsReports, HasNoReports, HasTooManyReports, IsFirstMisshapen, HasMisshapenReport, ExplainsReportFault};
ghost use Rattle.report_json.specs.declared.report.Report.{Report};

use crate::fault::{Refusal, ReportFault};
use crate::member::elements_of;
use crate::read_report::report_of;
use crate::report_list::Reports;
use cfix_base::MAX_REPORTS;
use serde_json::Value;
use std::alloc::Global;

/// The JSON value of a text.
fn value_of(alloc: Global, text: &[u8]) -> Result<Value, ReportFault>
    ensures ok { IfOk result (λ value. IsJson text.now (view value)) }
    ensures refused { IfErr result (λ fault. (fault ≡ ReportFault.NoMemory) ⊎ ((fault ≡ ReportFault.BadJson) × IsNoJson text.now)) }
{
    match Value::from_slice(alloc, text) {
        Ok(value) => Ok(value),
        Err(error) => {
            if error.is_memory() {
                Err(ReportFault::NoMemory)
            } else {
                Err(ReportFault::BadJson)
            }
        }
    }
}

/// The values that stand for reports.
fn report_values<'v>(value: &'v Value) -> Option<&'v [Value]>
    ensures { option_map (λ values. map view values.now) result ≡ outer (view value.now) }
{
    match value.get("reports") {
        Some(value) => elements_of(value),
        None => None,
    }
}

/// Reads the reports one after another.
fn read_all(alloc: Global, values: &[Value]) -> Result<Reports, ReportFault>
    requires { length values.now ≤ MAX_REPORTS }
    ensures ok { IfOk result (λ reports. Each IsReport (map view values.now) reports) }
    ensures refused { IfErr result (λ fault. (fault ≡ ReportFault.NoMemory) ⊎ ((number : ℕ) × (fault ≡ ReportFault.Shape (Some number)) × IsFirstMisshapen (map view values.now) number)) }
{
    let mut reports = Reports::new(alloc);
    for (number, value) in values.iter().enumerate() {
        match report_of(alloc, value) {
            Ok(report) => reports.push(report)?,
            Err(Refusal::Shape) => return Err(ReportFault::Shape(Some(number as u32))),
            Err(Refusal::NoMemory) => return Err(ReportFault::NoMemory),
        }
    }
    Ok(reports)
}

/// Reads the text, with one answer for each cause.
fn read_text(alloc: Global, text: &[u8]) -> Result<Reports, ReportFault>
    ensures ok { IfOk result (λ reports. SpellsReports text.now reports) }
    ensures refused { IfErr result (λ fault. ExplainsReportFault text.now fault) }
{
    let value = value_of(alloc, text)?;
    let Some(values) = report_values(&value) else {
        return Err(ReportFault::Shape(None));
    };
    if values.len() > MAX_REPORTS as usize {
        return Err(ReportFault::TooMany);
    }
    read_all(alloc, values)
}

/// Reads the text of reports.
pub fn reports(alloc: Global, text: &[u8]) -> Result<Reports, ReportFault>
    ensures ok { IfOk result (λ reports. SpellsReports text.now reports) }
    ensures refused { IfErr result (λ fault. ExplainsReportFault text.now fault) }

    // Both ways: what the text is fixes the answer, but for want of memory.
    ensures reads { (reports : List Report) → SpellsReports text.now reports → (result ≡ Ok reports) ⊎ (result ≡ Err ReportFault.NoMemory) }
    ensures bad_json { IsNoJson text.now → (result ≡ Err ReportFault.BadJson) ⊎ (result ≡ Err ReportFault.NoMemory) }
    ensures outer_shape { HasNoReports text.now → (result ≡ Err (ReportFault.Shape None)) ⊎ (result ≡ Err ReportFault.NoMemory) }
    ensures too_many { HasTooManyReports text.now → (result ≡ Err ReportFault.TooMany) ⊎ (result ≡ Err ReportFault.NoMemory) }
    ensures report_shape { (number : ℕ) → HasMisshapenReport text.now number → (result ≡ Err (ReportFault.Shape (Some number))) ⊎ (result ≡ Err ReportFault.NoMemory) }
{
    read_text(alloc, text)
}
