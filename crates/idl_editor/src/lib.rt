//! What an editor and a server have between them: texts with positions and changes, messages in a stream of bytes and what
//! they say, URIs of files, documents, and what is told of them.
//!
//! Nothing here does what a message asks for, and no file is kept.
//!
//! `frames/` takes messages off a stream: what a `Reader` has read and not given is all that it is to contracts, so the
//! pieces in which an input comes change nothing. `messages/` tells which message a value is, makes answers, and gathers
//! what is to be said. `uris/` has paths and workspaces' folders, `documents/` the texts that an editor has open, by their
//! names, `told/` the JSON of what is found and shown, and `beginning.rt` what an editor offers. Beside them stand
//! `column.rt`, `position.rt`, `places.rt`, `change.rt` and `splice.rt`.
#![tactic(auto)]

pub mod beginning;
mod change;
mod column;
pub mod documents;
pub mod frames;
mod laws;
pub mod messages;
mod places;
mod position;
mod splice;
pub mod told;
pub mod uris;

pub use change::{ContentChange, EditedText, Range, after_change};
pub use column::{Encoding, column_of, units_of};
pub use laws::joined_lines;
pub use places::{is_around, is_up_to, position_behind, returns_in};
pub use position::{Position, offset_of};
pub use splice::{LineSplice, splice_of};
