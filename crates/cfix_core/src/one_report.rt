ghost use Rattle.std.specs.Prelude.{◌≡◌, option_copied};
ghost use Rattle.report_bind.specs.Binds.{is_empty};
ghost use Rattle.cfix_core.specs.OneReport.{is_bare, if_bare, only_report};

use report_json::{Report, Site};

fn has_no_stack(site: &Site) -> bool
    ensures { result ≡ is_empty site.now.stack }
{
    site.stack.len() == 0
}

fn is_bare(report: &Report) -> bool
    ensures { result ≡ is_bare report.now }
{
    match report {
        Report::Atomicity { p, c, r } => { has_no_stack(p) && (has_no_stack(c) && has_no_stack(r)) }
        _ => false,
    }
}

fn if_bare(report: &Report) -> Option<&Report>
    ensures { option_copied result ≡ if_bare report.now }
{
    if is_bare(report) { Some(report) } else { None }
}

/// The one report, if it is the only one, an atomicity report, and has no stacks.
pub fn only_report(reports: &[Report]) -> Option<&Report>
    ensures { option_copied result ≡ only_report reports.now }
{
    match reports {
        [report] => if_bare(report),
        _ => None,
    }
}
