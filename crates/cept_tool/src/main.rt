//! The program: it reads the words, a stored page and the commands in it, paints a screen, and puts
//! the report on standard output.
#![tactic(auto)]

use cept_outside::{FileShelf, StdSink};
use cept_repaint::GridGlass;
use cept_run::run::{Status, run};
use std::io::ErrorKind;
use std::process::ExitCode;
use std::{env, io};

fn status(rt: &HostRuntime) -> Status {
    let mut words = match env::args(rt) {
        Ok(words) => words,
        Err(error) if error.kind() == ErrorKind::OutOfMemory => return Status::NoMemory,
        Err(_) => return Status::Usage,
    };
    let _program = words.next();
    let Ok(words) = words.collect(rt.alloc()) else {
        return Status::NoMemory;
    };
    let Ok(mut glass) = GridGlass::new(rt.alloc()) else {
        return Status::NoMemory;
    };
    let mut shelf = FileShelf::new(rt);
    let mut sink = StdSink::new(io::writer(rt));
    let status = run(rt.alloc(), &words, &mut shelf, &mut sink, &mut glass);
    // An early end doesn't flush: what was put before it is handed on here, as far as the output
    // takes it.
    let _ = sink.hand_on();
    status
}

fn main(rt: HostRuntime) -> ExitCode {
    ExitCode::from(status(&rt).number())
}
