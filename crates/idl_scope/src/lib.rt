//! The rules of scopes: what a scoped name denotes among what the declarations of a root declare and introduce.
//!
//! A name is looked up by questions to an environment alone. Nothing here knows trees but scoped names, or which declarations
//! are allowed.
#![tactic(auto)]

mod cursor;
mod fault;
mod finds;
mod found;
mod known;
pub mod laws;
mod lookup;
mod naming;

pub use cursor::Cursor;
pub use fault::{NameCode, NameFault};
pub use found::{Found, Reach};
pub use idl_entity::Entity;
pub use idl_env::{Env, Facts, Key};
pub use known::typeprefix_around;
pub use lookup::{ScopeAt, View};
pub use naming::{Standpoint, resolve};
