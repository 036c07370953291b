//! The program: its words, and the run that they ask for.
#![tactic(auto)]

use std::alloc::{AllocError, Global};
use std::env;
use std::io::ErrorKind;
use std::process::ExitCode;
use std::rt::Env;
use vital_base::{FileShelf, StdSink, Word};
use vital_run::run;

/// The exit status where a word could not be read because it is no UTF-8.
const WORDS_UNREADABLE: u8 = 15;

/// The exit status where memory ran out.
const NO_MEMORY: u8 = 12;

fn main(rt: HostRuntime) -> ExitCode {
    match words_of(&rt) {
        Ok(words) => {
            let status = run(
                rt.alloc(),
                &words,
                &mut FileShelf::new(&rt),
                &mut StdSink::new(&rt),
            );
            ExitCode::from(status.number())
        }
        Err(status) => ExitCode::from(status),
    }
}

/// The words after the program's name, or the exit status where they can't be read.
fn words_of(rt: &(impl Env + AllocGlobal)) -> Result<Vec<Word>, u8> {
    let arguments = env::args(rt).map_err(|error| {
        if error.kind() == ErrorKind::OutOfMemory {
            NO_MEMORY
        } else {
            WORDS_UNREADABLE
        }
    })?;
    let mut words = Vec::new(rt.alloc());
    for argument in arguments.skip(1) {
        words
            .push(Word::new(argument.into_bytes()))
            .map_err(|_| NO_MEMORY)?;
    }
    Ok(words)
}
