//! The commands of CFix.
#![tactic(auto)]

mod binding;
mod command;
mod erase;
mod failure;
mod note;
mod one_report;
mod patch;
mod reading;
mod replay;
mod run_files;
mod show;
mod stop;
mod texts;
mod top;
mod words;

pub use failure::{Failure, Refusal};
pub use patch::patched;
pub use show::shown;
pub use top::run;
