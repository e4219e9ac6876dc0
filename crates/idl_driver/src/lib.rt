//! What the programs share: how words are read, files that a loader gives, what they compile to, devices and failures.
//!
//! Nothing here opens a disk or a terminal, and nothing knows a session: a caller hands in the words, and where files
//! come from.
//!
//! `words.rt` has the words, `options.rt` and `preparing.rt` what options ask for; `loading.rt` explores each root,
//! loads files and compiles each root once. Names that compiled roots have absent are looked at, and one that wasn't
//! tried would be loaded and the roots compiled again, which was never seen.
#![tactic(auto)]

mod compilation;
mod devices;
mod failure;
mod limit;
mod loading;
mod options;
mod preparing;
mod words;

pub use compilation::{Compilation, SoundFiles, compile_files, compile_sound_files};
pub use devices::Devices;
pub use failure::{CompileFault, FailureSubject, ProgramFailure, tell_of};
pub use idl_loader;
pub use idl_loader::Status;
pub use idl_sources;
pub use limit::Limit;
pub use loading::SoundRoots;
pub use options::{Options, options_of, values_of, with_options};
pub use preparing::name_at;
pub use words::{ParsedWords, WordsFault, parse_words};
