//! Commands over a session: bytes come in, replies go out.
//!
//! A command is a line of words, and for a `put` or a `splice` the lines that it announces. Nothing here opens a file or a terminal: a
//! caller hands in where the bytes come from and where the replies go.
//!
//! `feed.rt` reads up to 4,096 bytes, `line_buffer.rt` takes a line in parts, `serve.rt` does one command, `rows.rt`
//! the queries, `reply.rt` writes over a buffer of `idl_loader`. Which bytes are replies to which is a relation over the
//! list of commands that the bytes make.
#![tactic(auto)]

mod announced;
mod commands;
mod edit;
mod feed;
mod heading;
mod laws;
mod line_buffer;
mod reply;
mod rows;
mod serve;

pub use commands::run;
pub use idl_loader::{Stop, write_lines};
pub use idl_project;
pub use idl_project::{
    DetailedEntry, Details, FileEdit, Finding, MAX_BODY, MAX_DIRECTORIES, MAX_MACROS, MAX_ROOTS,
    Row, Session, Span, Work, idl_check, idl_prep, idl_root_blocks,
};
pub use idl_source::devices::{BufferSink, ReadFailed, SliceSource, WriteFailed, write_all};
pub use idl_source::{Line, Name, Refusal, Sink, Source};
pub use laws::complete_commands;

/// Bytes that a command line has at most.
pub const MAX_COMMAND: usize = 8192;
