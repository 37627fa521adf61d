ghost use Rattle.std.specs.Prelude.{◌≡◌, ◌≢◌, ◌≤◌, ◌⊎◌, ◌↔◌, None};
ghost use Rattle.cfix_outside.specs.Faults.{Rose};
ghost use Rattle.cfix_core.specs.Words.{texts, request_of};
ghost use Rattle.cfix_core.specs.Answers.{Done, Cut, ReadFails, RefusedAs, Accepted, Still, Must, NothingPut, Ends, Spoken};
ghost use Rattle.cfix_core.specs.declared.stop.Stop.{Stop};

use crate::command::work;
use crate::note::{tell, tell_words};
use crate::stop::status_of;
use crate::words::request_of;
use cfix_outside::{Shelf, Sink};
use std::alloc::Global;

/// Does the command that the words behind the program's name ask for, and answers the status.
pub fn run<H: Shelf, O: Sink, N: Sink>(
    alloc: Global,
    words: &[String],
    shelf: &mut H,
    out: &mut O,
    note: &mut N,
) -> u8
    ensures range { (result ≤ 9) × (result ≢ 1) }

    // What a status says.
    ensures done { result ≡ 0 → Done (request_of (texts words.now)) (H.files shelf.old) (O.taken out.old) (O.taken out.new) }
    ensures words { result ≡ 2 ↔ request_of (texts words.now) ≡ None }
    ensures memory { result ≡ 3 → request_of (texts words.now) ≢ None }
    ensures read { result ≡ 4 → ReadFails (request_of (texts words.now)) (H.files shelf.old) (H.faults shelf.old) (H.faults shelf.new) }
    ensures write { result ≡ 5 → Rose (O.faults out.old) (O.faults out.new) }
    ensures source { result ≡ 6 → RefusedAs 6 (request_of (texts words.now)) (H.files shelf.old) }
    ensures reports { result ≡ 7 → RefusedAs 7 (request_of (texts words.now)) (H.files shelf.old) }
    ensures site { result ≡ 8 → RefusedAs 8 (request_of (texts words.now)) (H.files shelf.old) }
    ensures schedule { result ≡ 9 → RefusedAs 9 (request_of (texts words.now)) (H.files shelf.old) }

    // What stands in the output.
    ensures cut { result ≡ 5 → Cut (request_of (texts words.now)) (H.files shelf.old) (O.taken out.old) (O.taken out.new) }
    ensures nothing { result ≢ 0 → result ≢ 5 → NothingPut result (request_of (texts words.now)) → O.taken out.new ≡ O.taken out.old }
    ensures untried { result ≢ 0 → result ≢ 5 → NothingPut result (request_of (texts words.now)) → O.faults out.new ≡ O.faults out.old }

    // What stands in the notes.
    ensures silent { result ≡ 0 → N.taken note.new ≡ N.taken note.old }
    ensures spoken { result ≢ 0 → Spoken result (request_of (texts words.now)) (H.files shelf.old) (H.faults shelf.old) (H.faults shelf.new)
        (O.taken out.old) (O.taken out.new) (O.faults out.old) (O.faults out.new) (N.taken note.old) (N.taken note.new) (N.faults note.old) (N.faults note.new) }

    // What must stop the command stops it so, and nothing else does.
    ensures exact { (stop : Stop) → Must stop (request_of (texts words.now)) (H.files shelf.old)
        → Still (request_of (texts words.now)) (H.faults shelf.old) (H.faults shelf.new)
        → Ends stop result (request_of (texts words.now)) (N.taken note.old) (N.taken note.new) (N.faults note.old) (N.faults note.new) }
    ensures complete { Accepted (request_of (texts words.now)) (H.files shelf.old)
        → Still (request_of (texts words.now)) (H.faults shelf.old) (H.faults shelf.new)
        → (Rose (O.faults out.old) (O.faults out.new) → ⊥)
        → (result ≡ 0) ⊎ (result ≡ 3) }
{
    let request = match request_of(words) {
        Some(request) => request,
        None => {
            tell_words(note);
            return 2;
        }
    };
    match work(alloc, &request, shelf, out) {
        Ok(()) => 0,
        Err(stop) => {
            tell(note, &request, stop);
            status_of(stop)
        }
    }
}
