//! The first program's work: what its words ask for, files that are compiled and shown, and commands that are served.
//!
//! Nothing here opens a disk or a terminal: a caller hands in the words, where files and commands come from, and where
//! the rows go. `request.rt` has the words. What both programs do is in `idl_driver`.
#![tactic(auto)]

mod laws;
mod program;
mod request;

pub use idl_driver;
pub use idl_driver::{
    Compilation, Devices, FailureSubject, Options, ParsedWords, ProgramFailure, WordsFault,
    compile_files, options_of, parse_words, tell_of, values_of, with_options,
};
pub use idl_loader;
pub use idl_loader::{Loaded, Loader, PathLoader, Service, ServiceFault, Status};
pub use idl_session;
pub use laws::{rows_of_a_session, single_fault, worked_words};
pub use program::run_program;
