//! What a name is declared as: its path, its kind and type, its value, its signature, and what identifies it.
//!
//! Nothing here knows questions, facts or scopes that are open, and an entity is what its declaration says, wherever it is met.
#![tactic(auto)]

mod data_type;
mod details;
mod entity;
mod identity;
mod kind;
pub mod paths;
mod signature;
mod unvalued;

pub use data_type::{DataType, Element, Layer};
pub use entity::{Entity, Nature};
pub use identity::{Fixed, FixedIdentity, Identity, Prefix, prefix_for};
pub use idl_value;
pub use idl_value::idl_tree;
pub use kind::{Kind, Stage};
pub use paths::path::Path;
pub use signature::{Member, Signature};
pub use unvalued::Unvalued;
