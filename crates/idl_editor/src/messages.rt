//! What an editor and a language server say to each other: requests, notices and answers, as values of JSON.
//!
//! Nothing here reads a stream, and nothing does what a message asks for.

mod answer;
mod fields;
mod items;
mod message;
mod method;
mod outbox;
mod params;

pub use answer::{ErrorCode, answer_value, error_value, notice_value};
pub use fields::text_at;
pub use items::{items_at, opened_text};
pub use message::{Message, message_of};
pub use method::{Method, method_of};
pub use outbox::Outbox;
pub use params::{change_of, changes_of, position_at, uri_of, version_of};
