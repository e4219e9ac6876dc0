//! Facts that units add, and the answers over them: an environment is a bank of answers about names.
//!
//! Nothing here says what a scoped name denotes, and no rule of scopes stands here but how they are opened and closed.
//!
//! `Key` stands in contracts and definitions. `LentKey` asks: it borrows, and makes a key only for a log. `DigestedKey`
//! is a key that is stored. Bases are found by the digests of their paths, in a table. Of two bases those operations
//! are held in a table that are fewer. The list of a closed interface is told once, from those of its bases; that it is
//! what is reached through them rests on E40, E42 and E33, and so holds of facts that verdicts tell (`inheriting` of
//! `idl_check_laws`).
//!
//! `exchange.rt` and `apart.rt` say when facts may take the place of others, and at which keys two differ. `further.rt`
//! has uses that go past the deciding scope, `steps.rt` what a walk over bases or typedefs asks at each, and from a
//! scope outward, as a step of a log. `Room` is the memory that units write in, one after another.
#![tactic(auto)]

mod additions;
mod answering;
mod apart;
mod env;
mod keys;
mod no_step;
mod plain;
mod plain_env;
mod written;

pub use additions::addition::{Addition, Step};
pub use additions::facts::Facts;
pub use additions::further::Further;
pub use additions::room::{Room, Writes};
pub use answering::answer::{
    Answer, Scope, count_in, entity_in, identity_in, prefix_in, push_id_at, scopes_in,
    typeprefix_in,
};
pub use answering::open_scopes::OpenScopes;
pub use answering::queue::BaseQueue;
pub use answering::steps::Walked;
pub use env::Env;
pub use keys::digested::DigestedKey;
pub use keys::key::Key;
pub use keys::lent_key::LentKey;
pub use no_step::NoStep;
pub use plain_env::PlainEnv;
pub use written::lasting;
