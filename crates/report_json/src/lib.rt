//! Bug reports: their JSON text, read.
#![tactic(auto)]

mod fault;
mod member;
mod read_report;
mod read_reports;
mod read_site;
mod report;
mod report_list;

pub use fault::ReportFault;
pub use read_reports::reports;
pub use report::{CallSite, Report, Site};
pub use report_list::Reports;
