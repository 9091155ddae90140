//! The program: its arguments, the files of the system and the standard streams.
#![tactic(auto)]

mod completion;
mod disk;
mod folders;
mod projects;
mod replacing;
mod screen;
mod session;
mod troubles;

use crate::completion::answer;
use crate::session::{OUT_OF_MEMORY, Session, USAGE};
use std::io::{ErrorKind, Write};
use std::process::ExitCode;
use std::{env, io};

/// The arguments of the command line without the program's name.
fn arguments(rt: &HostRuntime) -> io::Result<Vec<String>> {
    let mut arguments = Vec::new(rt.alloc());
    for argument in env::args(rt)?.skip(1) {
        arguments.push(argument)?;
    }
    Ok(arguments)
}

fn main(rt: HostRuntime) -> ExitCode {
    match arguments(&rt) {
        Ok(arguments) => ExitCode::from(answer(&Session::new(&rt), arguments.as_slice())),
        Err(error) if error.kind() == ErrorKind::OutOfMemory => {
            let _ = eprintln!(rt; "out of memory");
            ExitCode::from(OUT_OF_MEMORY)
        }
        Err(_) => {
            let _ = eprintln!(rt; "error: the arguments aren't text");
            ExitCode::from(USAGE)
        }
    }
}
