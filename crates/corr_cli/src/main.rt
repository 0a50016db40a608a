//! The program `corr`: the words and the streams of the process handed to `run`, and the exit number that it gives.
//!
//! This is the edge that no proof reaches: what the system's words, its standard input and its standard output hold.
#![tactic(auto)]

use corr_port::{StdSink, StdSource};
use corr_run::{Status, run};
use std::alloc::{AllocError, Global};
use std::env::{self, Env};
use std::io::{self, ErrorKind, Write};
use std::process::ExitCode;

// The exit number where the system gives no words, other than for want of memory.
const NO_WORDS: u8 = 71;

// The first exit number that says that a command was not carried out.
const NOT_CARRIED_OUT: u8 = 64;

enum WordsError {
    NoMemory,
    Unknown,
}

impl From<AllocError> for WordsError {
    fn from(_: AllocError) -> Self {
        WordsError::NoMemory
    }
}

impl From<io::Error> for WordsError {
    fn from(error: io::Error) -> Self {
        match error.kind() {
            ErrorKind::OutOfMemory => WordsError::NoMemory,
            _ => WordsError::Unknown,
        }
    }
}

// The words behind the program's name.
fn words_of(rt: &(impl Env + AllocGlobal)) -> Result<Vec<String>, WordsError> {
    Ok(env::args(rt)?.skip(1).collect(rt.alloc())?)
}

fn main(rt: HostRuntime) -> ExitCode {
    let words = match words_of(&rt) {
        Ok(words) => words,
        Err(WordsError::NoMemory) => return ExitCode::from(Status::NoMemory.code()),
        Err(WordsError::Unknown) => return ExitCode::from(NO_WORDS),
    };
    let mut source = StdSource::new(rt.stdin());
    let mut sink = StdSink::new(rt.stdout());
    let number = run(rt.alloc(), &words, &mut source, &mut sink).code();
    if sink.inner.flush().is_err() && number < NOT_CARRIED_OUT {
        return ExitCode::from(Status::WriteFault.code());
    }
    ExitCode::from(number)
}
