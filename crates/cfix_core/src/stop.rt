ghost use Rattle.std.specs.Prelude.{◌≡◌, option_map};
ghost use Rattle.cfix_core.specs.Words.{asked_of};
ghost use Rattle.cfix_core.specs.NamedFiles.{file_name, limit_of};
ghost use Rattle.cfix_core.specs.Stops.{word_of, stop_of, refusal_status, status_of};

use crate::failure::{Failure, Refusal};
use crate::words::Request;
use cfix_base::{MAX_INPUT_BYTES, MAX_REPORTS_BYTES, MAX_SCHEDULE_BYTES, MAX_SOURCE_BYTES};

/// A file that the words name.
#[derive(Clone, Copy, Debug, PartialEq, Eq)]
pub enum NamedFile {
    Program,
    Reports,
    Input,
    Schedule,
}

/// Why a command was not done.
#[derive(Clone, Copy, Debug, PartialEq, Eq)]
pub enum Stop {
    NoMemory,
    /// The shelf's count of this file rose.
    CannotRead(NamedFile),
    /// This file has more bytes than its limit.
    TooLong(NamedFile),
    /// The output's count rose.
    CannotWrite,
    /// The files are refused.
    Refused(Refusal),
}

/// The name of a file, if the words name it.
pub(crate) fn name_of<'w>(request: &Request<'w>, file: NamedFile) -> Option<&'w str>
    ensures { option_map (λ name. name.now) result ≡ file_name file (asked_of request.now) }
{
    match *request {
        Request::Patch { source, reports } => match file {
            NamedFile::Program => Some(source),
            NamedFile::Reports => Some(reports),
            _ => None,
        },
        Request::Show { source } => match file {
            NamedFile::Program => Some(source),
            _ => None,
        },
        Request::Replay {
            source,
            input,
            schedule,
        } => match file {
            NamedFile::Program => Some(source),
            NamedFile::Input => Some(input),
            NamedFile::Schedule => Some(schedule),
            NamedFile::Reports => None,
        },
        Request::Erase {
            source,
            input,
            schedule,
            marks: _,
        } => match file {
            NamedFile::Program => Some(source),
            NamedFile::Input => Some(input),
            NamedFile::Schedule => Some(schedule),
            NamedFile::Reports => None,
        },
    }
}

/// The word that names a file.
pub(crate) fn word_of<'w>(request: &Request<'w>, file: NamedFile) -> &'w str
    ensures { result.now ≡ word_of file (asked_of request.now) }
{
    match name_of(request, file) {
        Some(name) => name,
        None => "",
    }
}

pub(crate) fn limit_of(file: NamedFile) -> usize
    ensures { result ≡ limit_of file }
{
    match file {
        NamedFile::Program => MAX_SOURCE_BYTES,
        NamedFile::Reports => MAX_REPORTS_BYTES,
        NamedFile::Input => MAX_INPUT_BYTES,
        NamedFile::Schedule => MAX_SCHEDULE_BYTES,
    }
}

pub(crate) fn stop_of(failure: Failure) -> Stop
    ensures { result ≡ stop_of failure }
{
    match failure {
        Failure::NoMemory => Stop::NoMemory,
        Failure::Refused(refusal) => Stop::Refused(refusal),
    }
}

fn refusal_status(refusal: Refusal) -> u8
    ensures { result ≡ refusal_status refusal }
{
    match refusal {
        Refusal::Source(_) => 6,
        Refusal::Form => 6,
        Refusal::NotJson => 7,
        Refusal::Shape(_) => 7,
        Refusal::TooMany => 7,
        Refusal::Reports => 7,
        Refusal::NoSite(_) => 8,
        Refusal::StackBroken(_) => 8,
        Refusal::NoPath(_, _) => 8,
        Refusal::OtherMode => 7,
        Refusal::BadNumber(_) => 9,
        Refusal::BadEntry(_) => 9,
        Refusal::TooManyEntries => 9,
        Refusal::NotEnabled(_) => 9,
    }
}

pub(crate) fn status_of(stop: Stop) -> u8
    ensures { result ≡ status_of stop }
{
    match stop {
        Stop::NoMemory => 3,
        Stop::CannotRead(_) => 4,
        Stop::TooLong(_) => 4,
        Stop::CannotWrite => 5,
        Stop::Refused(refusal) => refusal_status(refusal),
    }
}
