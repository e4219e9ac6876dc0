//! The program: an IDL compiler for files and for commands.
//!
//! `idlc FILE..` compiles files of the disk. `idlc --session` serves the commands of standard input, and writes the replies to
//! standard output.
#![tactic(auto)]

use idl_disk::{Disk, StandardInput, StandardOutput, exit_code_of, texts, words};
use idl_program::{Devices, Status, run_program};
use std::io;
use std::process::ExitCode;

fn main(rt: HostRuntime) -> ExitCode {
    exit_code_of(&rt, "idlc", run(&rt))
}

// Does what the words behind the program's name ask for.
fn run(rt: &HostRuntime) -> io::Result<Status> {
    let words = words(rt)?;
    let texts = texts(rt.alloc(), &words)?;
    let mut devices = Devices {
        loader: Disk::new(rt),
        source: StandardInput::new(rt.reader()),
        output: StandardOutput::new(std::io::writer(rt)),
        errors: StandardOutput::new(rt.stderr()),
    };
    Ok(run_program(rt.alloc(), &texts, &mut devices))
}
