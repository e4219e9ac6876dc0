//! The inputs of a project: files, macros and directories, the edits of them as data, and the answers that come of them.
//!
//! A project's roots are names here: nothing knows what a root compiles to. An edit is data (`specs/Edits.antt`), and what it
//! makes is a definition of the project before it. Edits of files are done on the side (`edited_files.rt`), and until they are
//! put in place a bank answers as if they were (`refiled.rt`).
#![tactic(auto)]

mod bank;
mod causes;
mod columns;
mod edited_files;
pub mod expanding;
mod file_edit;
mod limits;
mod macro_body;
mod no_step;
pub mod reading;
mod refiled;
mod search_list;

pub use bank::{SessionBank, answers_come_from_inputs};
pub use causes::causes_by;
pub use columns::Columns;
pub use edited_files::EditedFiles;
pub use file_edit::FileEdit;
pub use limits::{
    MAX_BODY, MAX_DIRECTORIES, MAX_MACROS, MAX_ROOTS, edits_keep_form, edits_keep_limits,
};
pub use macro_body::MacroBody;
pub use no_step::Stepless;
pub use refiled::Refiled;
pub use search_list::directories;
