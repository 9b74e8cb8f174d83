//! The program: the arguments, the files and the standard streams, and the number of how the run ended.
#![tactic(auto)]

use file_runs::{Status, StdFiles, StdSink, StdSource, Words, run};
use std::process::ExitCode;
use std::{env, io};

/// The words after the program's name.
fn words(rt: &HostRuntime) -> io::Result<Words> {
    let mut words = Vec::new(rt.alloc());
    for word in env::args(rt)?.skip(1) {
        words.push(word)?;
    }
    Ok(Words::new(words))
}

/// A run over the standard streams and the files of the system.
fn status_of(rt: &HostRuntime, words: &Words) -> Status {
    run(
        rt.alloc(),
        words,
        &mut StdSource::new(rt.stdin()),
        &mut StdFiles::new(rt),
        &mut StdSink::new(rt.stdout()),
        &mut StdSink::new(rt.stderr()),
    )
}

/// How a run ends that gets no words: they are misused where one is no text, and else there is no memory for them.
fn status_without(rt: &HostRuntime, error: &io::Error) -> Status {
    if error.kind() != io::ErrorKind::InvalidData {
        return Status::Memory;
    }
    match eprintln!(rt; "an argument is not UTF-8") {
        Ok(()) => Status::Usage,
        Err(_) => Status::WriteFault,
    }
}

fn main(rt: HostRuntime) -> ExitCode {
    let status = match words(&rt) {
        Ok(words) => status_of(&rt, &words),
        Err(error) => status_without(&rt, &error),
    };
    ExitCode::from(status.number())
}
