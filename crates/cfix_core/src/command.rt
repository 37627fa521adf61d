ghost use Rattle.std.specs.Prelude.{◌≡◌, ◌≤◌, List, ℕ, Some, length, IfOk, OnOk, IfErr};
ghost use Rattle.cfix_outside.specs.Shelves.{Gives};
ghost use Rattle.cfix_core.specs.Words.{asked_of};
ghost use Rattle.cfix_core.specs.NamedFiles.{file_name, limit_of, HasFile, Holds};
ghost use Rattle.cfix_core.specs.Failures.{FailsBy};
ghost use Rattle.cfix_core.specs.Answers.{Answered, RefusedIn, DoneFor, Cause, Left, Untried};
ghost use Rattle.cfix_core.specs.Stages.{contents_of, AreWithin, ReadCause, ReadsStop, BuildsText, IsPut, PutStops};

use crate::erase::erased_text;
use crate::failure::Failure;
use crate::patch::patched;
use crate::replay::replayed;
use crate::show::shown;
use crate::stop::{NamedFile, Stop, limit_of, name_of, stop_of};
use crate::texts::Texts;
use crate::words::Request;
use cfix_outside::{Shelf, ShelfFault, Sink, put_text};
use std::alloc::Global;

fn read_named<H: Shelf>(
    alloc: Global,
    name: &str,
    file: NamedFile,
    shelf: &mut H,
) -> Result<Vec<u8>, Stop>
    ensures kept { H.files shelf.new ≡ H.files shelf.old }
    ensures later { (name : List ℕ) → H.faults shelf.old name ≤ H.faults shelf.new name }
    ensures given { IfOk result (λ bytes. Gives (H.files shelf.old) name.now (limit_of file) bytes.items) }
    ensures within { IfOk result (λ bytes. length bytes.items ≤ limit_of file) }
    ensures cause { IfErr result (λ stop. ReadCause stop file (Some name.now) (H.files shelf.old) (H.faults shelf.old) (H.faults shelf.new)) }
{
    match shelf.read(alloc, name, limit_of(file)) {
        Ok(bytes) => Ok(bytes),
        Err(ShelfFault::Failed) => Err(Stop::CannotRead(file)),
        Err(ShelfFault::TooLong(_)) => Err(Stop::TooLong(file)),
        Err(ShelfFault::NoMemory) => Err(Stop::NoMemory),
    }
}

/// The bytes of a file that the words name; a file that they do not name has none.
fn read_file<H: Shelf>(
    alloc: Global,
    request: &Request<'_>,
    file: NamedFile,
    shelf: &mut H,
) -> Result<Vec<u8>, Stop>
    ensures kept { H.files shelf.new ≡ H.files shelf.old }
    ensures later { (name : List ℕ) → H.faults shelf.old name ≤ H.faults shelf.new name }
    ensures given { IfOk result (λ bytes. HasFile (H.files shelf.old) (asked_of request.now) file bytes.items) }
    ensures within { IfOk result (λ bytes. length bytes.items ≤ limit_of file) }
    ensures cause { IfErr result (λ stop. ReadCause stop file (file_name file (asked_of request.now)) (H.files shelf.old) (H.faults shelf.old) (H.faults shelf.new)) }
{
    match name_of(request, file) {
        Some(name) => read_named(alloc, name, file, shelf),
        None => Ok(Vec::new(alloc)),
    }
}

/// The bytes of the files that the words name, in the order of the words.
fn read_files<H: Shelf>(alloc: Global, request: &Request<'_>, shelf: &mut H) -> Result<Texts, Stop>
    ensures kept { H.files shelf.new ≡ H.files shelf.old }
    ensures holds { IfOk result (λ texts. Holds (H.files shelf.old) (asked_of request.now) (contents_of texts)) }
    ensures within { IfOk result (λ texts. AreWithin (contents_of texts)) }
    ensures stops { IfErr result (λ stop. ReadsStop stop (asked_of request.now) (H.files shelf.old) (H.faults shelf.old) (H.faults shelf.new)) }
{
    let program = read_file(alloc, request, NamedFile::Program, shelf)?;
    let reports = read_file(alloc, request, NamedFile::Reports, shelf)?;
    let input = read_file(alloc, request, NamedFile::Input, shelf)?;
    let schedule = read_file(alloc, request, NamedFile::Schedule, shelf)?;
    Ok(Texts {
        program,
        reports,
        input,
        schedule,
    })
}

/// The text that a command writes, of the bytes of its files.
fn answer(alloc: Global, request: &Request<'_>, texts: &Texts) -> Result<Vec<u8>, Failure>
    requires builds { BuildsText (asked_of request.now) }
    requires within { AreWithin (contents_of texts.now) }
    ensures done { IfOk result (λ text. Answered (asked_of request.now) (contents_of texts.now) text.items) }
    ensures refused { IfErr result (FailsBy (λ refusal. RefusedIn (asked_of request.now) refusal (contents_of texts.now))) }
{
    match *request {
        Request::Patch { .. } => patched(alloc, &texts.program, &texts.reports),
        Request::Show { .. } => shown(alloc, &texts.program),
        Request::Erase { marks, .. } => erased_text(alloc, texts, marks),
        Request::Replay { .. } => unreachable!(),
    }
}

/// Builds the text of a command, and then puts it.
fn put_answer<O: Sink>(
    alloc: Global,
    request: &Request<'_>,
    texts: &Texts,
    out: &mut O,
) -> Result<(), Stop>
    requires builds { BuildsText (asked_of request.now) }
    requires within { AreWithin (contents_of texts.now) }
    ensures done { OnOk result (IsPut (asked_of request.now) (contents_of texts.now) (O.taken out.old) (O.taken out.new)) }
    ensures stops { IfErr result (λ stop. PutStops stop (asked_of request.now) (contents_of texts.now) (O.taken out.old) (O.taken out.new) (O.faults out.old) (O.faults out.new)) }
{
    let text = match answer(alloc, request, texts) {
        Ok(text) => text,
        Err(failure) => return Err(stop_of(failure)),
    };
    match put_text(out, &text) {
        Ok(()) => Ok(()),
        Err(_) => Err(Stop::CannotWrite),
    }
}

/// Reads the files of a command, and does it.
pub(crate) fn work<H: Shelf, O: Sink>(
    alloc: Global,
    request: &Request<'_>,
    shelf: &mut H,
    out: &mut O,
) -> Result<(), Stop>
    ensures done { OnOk result (DoneFor (asked_of request.now) (H.files shelf.old) (O.taken out.old) (O.taken out.new)) }
    ensures cause { IfErr result (λ stop. Cause stop (asked_of request.now) (H.files shelf.old) (H.faults shelf.old) (H.faults shelf.new) (O.taken out.old) (O.taken out.new) (O.faults out.old) (O.faults out.new)) }
    ensures left { IfErr result (λ stop. Left stop (asked_of request.now) (H.files shelf.old) (O.taken out.old) (O.taken out.new)) }
    ensures untried { IfErr result (λ stop. Untried stop (asked_of request.now) (O.faults out.old) (O.faults out.new)) }
{
    let texts = match read_files(alloc, request, shelf) {
        Ok(texts) => texts,
        Err(stop) => return Err(stop),
    };
    match *request {
        Request::Patch { .. } => match put_answer(alloc, request, &texts, out) {
            Ok(()) => Ok(()),
            Err(stop) => Err(stop),
        },
        Request::Show { .. } => match put_answer(alloc, request, &texts, out) {
            Ok(()) => Ok(()),
            Err(stop) => Err(stop),
        },
        Request::Erase { .. } => match put_answer(alloc, request, &texts, out) {
            Ok(()) => Ok(()),
            Err(stop) => Err(stop),
        },
        Request::Replay { .. } => match replayed(alloc, &texts, out) {
            Ok(()) => Ok(()),
            Err(stop) => Err(stop),
        },
    }
}
