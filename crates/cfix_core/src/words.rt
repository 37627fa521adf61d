ghost use Rattle.std.specs.Prelude.{◌≡◌, option_map, map, string_bytes};
ghost use Rattle.std.specs.List.{list_any};
ghost use Rattle.cfix_core.specs.Words.{texts, asked_of, is_option, mark_of, both_marks, patch_row, show_row, erase_row, run_row, row_of, request_of};

use cfix_base::Marks;
use sched_text::number_of;

// The greatest mark that words may give.
const MAX_MARK: u32 = 1000;

/// What words ask for: a command and the names of its files.
#[derive(Clone, Copy, Debug, PartialEq, Eq)]
pub enum Request<'w> {
    /// `patch PROG REPORTS`
    Patch {
        source: &'w str,
        reports: &'w str,
    },
    /// `show PROG`
    Show {
        source: &'w str,
    },
    /// `replay PROG INPUT SCHED`
    Replay {
        source: &'w str,
        input: &'w str,
        schedule: &'w str,
    },
    /// `erase PROG INPUT SCHED`, and `LOCK ORDER` behind it; without these the marks are 0.
    Erase {
        source: &'w str,
        input: &'w str,
        schedule: &'w str,
        marks: Marks,
    },
}

fn is_option(word: &str) -> bool
    ensures { result ≡ is_option word.now }
{
    word.as_bytes().starts_with(b"-")
}

fn has_option(words: &[String]) -> bool
    ensures { result ≡ list_any is_option (texts words.now) }
{
    for word in words {
        if is_option(word.as_str()) {
            return true;
        }
    }
    false
}

fn show_row<'w>(command: &'w str, source: &'w str) -> Option<Request<'w>>
    ensures { option_map asked_of result ≡ show_row command.now source.now }
{
    if command == "show" {
        Some(Request::Show { source })
    } else {
        None
    }
}

fn patch_row<'w>(command: &'w str, source: &'w str, reports: &'w str) -> Option<Request<'w>>
    ensures { option_map asked_of result ≡ patch_row command.now source.now reports.now }
{
    if command == "patch" {
        Some(Request::Patch { source, reports })
    } else {
        None
    }
}

/// A mark, if the word is its decimal digits without a leading zero.
#[tactic(auto, using(crate::proofs::Marks::marked, crate::proofs::Marks::too_great, crate::proofs::Marks::no_mark))]
fn mark_of(word: &str) -> Option<u32>
    ensures { result ≡ mark_of word.now }
{
    match number_of(word.as_bytes()) {
        Some(number) if number <= MAX_MARK => Some(number),
        _ => None,
    }
}

fn both_marks(lock: Option<u32>, order: Option<u32>) -> Option<Marks>
    ensures { result ≡ both_marks lock order }
{
    match (lock, order) {
        (Some(lock), Some(order)) => Some(Marks { lock, order }),
        _ => None,
    }
}

fn erase_row<'w>(
    command: &'w str,
    source: &'w str,
    input: &'w str,
    schedule: &'w str,
    marks: Option<Marks>,
) -> Option<Request<'w>>
    ensures { option_map asked_of result ≡ erase_row command.now source.now input.now schedule.now marks }
{
    match marks {
        Some(marks) if command == "erase" => Some(Request::Erase {
            source,
            input,
            schedule,
            marks,
        }),
        _ => None,
    }
}

fn run_row<'w>(
    command: &'w str,
    source: &'w str,
    input: &'w str,
    schedule: &'w str,
) -> Option<Request<'w>>
    ensures { option_map asked_of result ≡ run_row command.now source.now input.now schedule.now }
{
    if command == "replay" {
        return Some(Request::Replay {
            source,
            input,
            schedule,
        });
    }
    let all_new = Marks { lock: 0, order: 0 };
    erase_row(command, source, input, schedule, Some(all_new))
}

fn row_of(words: &[String]) -> Option<Request<'_>>
    ensures { option_map asked_of result ≡ row_of (texts words.now) }
{
    match words {
        [command, source] => show_row(command.as_str(), source.as_str()),
        [command, source, reports] => patch_row(
            command.as_str(),
            source.as_str(),
            reports.as_str(),
        ),
        [command, source, input, schedule] => run_row(
            command.as_str(),
            source.as_str(),
            input.as_str(),
            schedule.as_str(),
        ),
        [command, source, input, schedule, lock, order] => erase_row(
            command.as_str(),
            source.as_str(),
            input.as_str(),
            schedule.as_str(),
            both_marks(mark_of(lock.as_str()), mark_of(order.as_str())),
        ),
        _ => None,
    }
}

/// What the words behind the program's name ask for, if they are a command.
pub fn request_of(words: &[String]) -> Option<Request<'_>>
    ensures { option_map asked_of result ≡ request_of (texts words.now) }
{
    if has_option(words) {
        None
    } else {
        row_of(words)
    }
}
