//! The program `suwhanoki`: reads an input, runs the command that its words name, and ends with
//! the number of the status.
#![tactic(auto)]

use kibana_main::{Status, plain};
use plain_data::{List, Text};
use std::process::ExitCode;
use std::rt::Env;
use std::{env, io};
use wire_io::{StdSink, StdSource};

fn main(rt: HostRuntime) -> ExitCode {
    let words = match words(&rt) {
        Ok(words) => words,
        Err(error) if error.kind() == io::ErrorKind::OutOfMemory => {
            return ExitCode::from(Status::Memory.number());
        }
        // A word that is no text names no command.
        Err(_) => List::new(rt.alloc()),
    };
    let mut source = StdSource::new(rt.stdin());
    let mut sink = StdSink::new(rt.stdout());
    let status = plain(rt.alloc(), &words, &mut source, &mut sink);
    ExitCode::from(status.number())
}

/// The words after the program's name.
fn words(rt: &(impl Env + AllocGlobal)) -> io::Result<List<Text>> {
    let mut words = List::new(rt.alloc());
    for word in env::args(rt)?.skip(1) {
        words.push(Text::from_string(word))?;
    }
    Ok(words)
}

#[cfg(test)]
mod tests;
