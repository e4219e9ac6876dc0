//! The second program, for people and builds: what is found in files, what rows mean, and what files stand on.
//!
//! `idltool check FILE..` tells what is found, `idltool explain E35` explains a code, and `idltool deps FILE..` writes rules of make.
#![tactic(auto)]

use idl_disk::{Disk, StandardInput, StandardOutput, exit_code_of, texts, words};
use idl_server::LanguageServer;
use idl_tool::idl_driver::{Devices, Status};
use idl_tool::run_tool;
use std::io;
use std::process::ExitCode;

fn main(rt: HostRuntime) -> ExitCode {
    exit_code_of(&rt, "idltool", run(&rt))
}

// Does what the words behind the program's name ask for.
fn run(rt: &HostRuntime) -> io::Result<Status> {
    let words = words(rt)?;
    let texts = texts(rt.alloc(), &words)?;
    let mut devices = Devices {
        loader: Disk::new(rt),
        source: StandardInput::new(rt.reader()),
        output: StandardOutput::new(std::io::writer(rt)),
        errors: StandardOutput::new(rt.stderr()),
    };
    let service = LanguageServer::new(rt.alloc());
    Ok(run_tool(rt.alloc(), &texts, &service, &mut devices))
}
