//! Links detections of moving objects: reads a script of detections and commands, or detections
//! alone, on standard input, and answers on standard output; or makes a sky to try it on.
#![tactic(auto)]

use complaints::complaint;
use outer_io::{StdSink, StdSource};
use sky_units::{Tally, Word};
use std::process::ExitCode;
use std::rt::Env;
use std::{env, io};
use top::{Status, run};

#[cfg(test)]
mod asking_tests;
mod commanding;
mod complaints;
mod delivering;
#[cfg(test)]
mod form_tests;
mod forms;
mod generating;
mod inputs;
mod laws;
mod lines;
mod linking;
#[cfg(test)]
mod night_tests;
mod output;
mod reading;
#[cfg(test)]
mod refusal_tests;
mod summing;
#[cfg(test)]
mod tests;
mod top;
mod watching;

/// The exit status where the system does not give the program's words as text.
const NO_ARGUMENTS: u8 = 7;

/// The words behind the program's name.
fn program_words<R: Env + AllocGlobal>(rt: &R) -> io::Result<Vec<Word>> {
    let mut words = Vec::new(rt.alloc());
    for word in env::args(rt)?.skip(1) {
        words.push(Word::new(rt.alloc(), word.as_bytes())?)?;
    }
    Ok(words)
}

/// Says on standard error how a run ended, where that is worth a line, and gives the exit status.
fn report(rt: &impl Eprint, status: Status) -> ExitCode {
    if let Some(text) = complaint(status) {
        // There is nobody left to tell where this fails too.
        let _ = eprintln!(rt; "{text}");
    }
    ExitCode::from(status as u8)
}

fn main(rt: HostRuntime) -> ExitCode {
    let words = match program_words(&rt) {
        Ok(words) => words,
        Err(error) if error.kind() == io::ErrorKind::OutOfMemory => {
            return report(&rt, Status::NoMemory);
        }
        Err(_) => {
            let _ = eprintln!(rt; "no arguments");
            return ExitCode::from(NO_ARGUMENTS);
        }
    };
    let mut source = StdSource::new(rt.stdin());
    let mut sink = StdSink::new(rt.stdout());
    let mut tally = Tally::zero();
    let status = run(
        rt.alloc(),
        words.as_slice(),
        &mut source,
        &mut sink,
        &mut tally,
    );
    report(&rt, status)
}
