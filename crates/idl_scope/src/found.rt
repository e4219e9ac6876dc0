//! What a name denotes.

use idl_base::Shared;
use idl_entity::Entity;

/// What a name denotes.
#[derive(Drop)]
pub struct Found {
    pub entity: Shared<Entity>,
    /// How far its use introduces the name's first part.
    pub reach: Reach,
}

/// How far the use of a name goes outward, in the scopes in which it stands, the innermost first.
#[derive(Clone, Copy)]
pub struct Reach {
    /// Into so many of them for certain: none of these itself declares the name, and all were asked.
    pub certain: usize,
    /// Outward of these into so many more, which were not asked: as far as none of them itself declares the name.
    pub further: usize,
}
