//! The body of each program: a run over the words of the command line and the standard streams.

use crate::run::{Status, run_words};
use awk_edge::{StdSink, StdSource};
use awk_lanes::Steps;
use std::io::ErrorKind;
use std::rt::Env;
use std::sync::ledger::Ledger;
use std::{env, io};

/// Answers the session on standard input to standard output, by `run_words` over the words of the
/// command line.
///
/// The runtime is a parameter, so this begins no counter of its own: it counts in the one that it
/// is given.
pub fn run_program<R: Env + Input + Print + AllocGlobal, L: Ledger>(
    rt: &R,
    steps: &mut Steps<L>,
) -> Status {
    match command_words(rt) {
        Ok(words) => {
            let mut source = StdSource::new(rt.reader());
            let mut sink = StdSink::new(io::writer(rt));
            run_words(rt.alloc(), &words, &mut source, &mut sink, steps)
        }
        Err(status) => status,
    }
}

// The words of the command line, without the program's name.
fn command_words<R: Env + AllocGlobal>(rt: &R) -> Result<Vec<String>, Status> {
    let all = match env::args(rt) {
        Ok(all) => all,
        Err(e) => {
            return Err(if e.kind() == ErrorKind::OutOfMemory {
                Status::Memory
            } else {
                Status::Words
            });
        }
    };
    let mut words = Vec::new(rt.alloc());
    for word in all.skip(1) {
        if words.push(word).is_err() {
            return Err(Status::Memory);
        }
    }
    Ok(words)
}
