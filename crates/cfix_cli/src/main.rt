//! The program `cfix`. It ends with status 3 where no memory is left for the words of its command
//! line, with status 2 where they cannot be had otherwise, and else with the status of `run`.
#![tactic(auto)]

use cfix_core::run;
use cfix_outside::{FileShelf, NoteSink, OutSink};
use std::env;
use std::io::ErrorKind;
use std::process::ExitCode;

fn main(rt: HostRuntime) -> ExitCode {
    let alloc = rt.alloc();
    let args = match env::args(&rt) {
        Ok(args) => args,
        Err(error) => {
            let status = if error.kind() == ErrorKind::OutOfMemory {
                3
            } else {
                2
            };
            return ExitCode::from(status);
        }
    };
    let mut words = Vec::new(alloc);
    for word in args.skip(1) {
        if words.push(word).is_err() {
            return ExitCode::from(3);
        }
    }
    let mut shelf = FileShelf::new(&rt);
    let mut out = OutSink::new(&rt);
    let mut note = NoteSink::new(&rt);
    ExitCode::from(run(alloc, &words, &mut shelf, &mut out, &mut note))
}
