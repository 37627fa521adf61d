ghost use Rattle.std.specs.Prelude.{◌≡◌, Err, IfOk};
ghost use Rattle.serde_json.specs.View.{view};
ghost use Rattle.report_json.specs.Shapes.{IsReport, IsMisshapen};

use crate::fault::Refusal;
use crate::member::text_of;
use crate::read_site::member_site;
use crate::report::Report;
use serde_json::Value;
use std::alloc::Global;

/// Reads a report.
pub fn report_of(alloc: Global, object: &Value) -> Result<Report, Refusal>
    ensures ok { IfOk result (λ report. IsReport (view object.now) report) }
    ensures refused { result ≡ Err Refusal.Shape → IsMisshapen (view object.now) }
{
    match text_of("kind", object) {
        Some("atomicity") => {
            let p = member_site(alloc, object, "p")?;
            let c = member_site(alloc, object, "c")?;
            let r = member_site(alloc, object, "r")?;
            Ok(Report::Atomicity { p, c, r })
        }
        Some("all_before") => {
            let a = member_site(alloc, object, "a")?;
            let b = member_site(alloc, object, "b")?;
            Ok(Report::AllBefore { a, b })
        }
        Some("first_before") => {
            let a = member_site(alloc, object, "a")?;
            let b = member_site(alloc, object, "b")?;
            Ok(Report::FirstBefore { a, b })
        }
        _ => Err(Refusal::Shape),
    }
}
