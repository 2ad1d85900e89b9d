//! The program `qvm`: exact quantum virtual machines.
//!
//! `main` makes the real objects and hands them to `local_main`, whose contract says what is read, what is written and which
//! status comes when (`specs/Command`, `specs/Calls`, `specs/RunText`).
#![tactic(auto)]

mod answer;
mod command;
#[cfg(test)]
mod command_tests;
mod laws;
mod local;
#[cfg(test)]
mod read_tests;
mod run;
#[cfg(test)]
mod tests;
mod text;

use local::local_main;
use qvm_io::{StdSink, StdSource};
use std::alloc::AllocError;
use std::process::ExitCode;
use std::{env, io};

// The words after the program's name. Where they can't be read as text there are none, which is a usage refusal.
fn words_of(rt: &(impl std::rt::Env + AllocGlobal)) -> Result<Vec<String>, AllocError> {
    let mut words = Vec::new(rt.alloc());
    let all = match env::args(rt) {
        Ok(all) => all,
        Err(error) if error.kind() == io::ErrorKind::OutOfMemory => return Err(AllocError),
        Err(_) => return Ok(words),
    };
    for word in all.skip(1) {
        words.push(word)?;
    }
    Ok(words)
}

fn main(rt: HostRuntime) -> ExitCode {
    let Ok(words) = words_of(&rt) else {
        return ExitCode::from(8);
    };
    let mut source = StdSource::new(rt.reader());
    let mut sink = StdSink::new(io::writer(&rt));
    let status = local_main(rt.alloc(), &words, &mut source, &mut sink);
    ExitCode::from(status)
}
