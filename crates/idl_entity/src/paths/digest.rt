//! Digests of paths, and of what is found by its outermost scope first.

ghost use Rattle.std.specs.Prelude.{◌≡◌};
ghost use Rattle.idl_base.specs.Digest.{mixed, with_bytes};
ghost use Rattle.idl_entity.specs.Digest.{behind, under};

use idl_base::{mixed, with_bytes};

/// The digest of a folded name in the scope with this digest.
#[tactic(auto, unfolding(crate::specs::Digest::under))]
pub fn under(scope: u64, name: &[u8]) -> u64
    ensures { result ≡ under scope name.now }
{
    let whole = with_bytes(mixed(scope, 256), name);
    if scope == 0 {
        behind(whole / (1 << 58), whole)
    } else {
        behind(scope, whole)
    }
}

/// The digest of a folded name that is introduced into the body with this number, in the scope with this digest.
pub fn introduced(scope: u64, name: &[u8], body: usize) -> u64
    ensures { result ≡ behind scope (mixed (with_bytes (mixed scope 259) name.now) body) }
{
    let named = with_bytes(mixed(scope, 259), name);
    behind(scope, mixed(named, body as u64))
}

/// The digest of the id of what stands at a path with this digest.
pub fn identified(path: u64) -> u64
    ensures { result ≡ behind path (mixed path 263) }
{
    behind(path, mixed(path, 263))
}

/// The digest of the typeprefix of the scope at a path with this digest.
pub fn typeprefixed(path: u64) -> u64
    ensures { result ≡ behind path (mixed path 264) }
{
    behind(path, mixed(path, 264))
}

/// The digest of how many bodies of the scope at a path with this digest were opened.
pub fn opened(path: u64) -> u64
    ensures { result ≡ behind path (mixed path 260) }
{
    behind(path, mixed(path, 260))
}

/// A digest with the last 6 bits of another in place of its own, by which it is found first.
#[tactic(auto, unfolding(crate::specs::Digest::behind))]
pub fn behind(first: u64, digest: u64) -> u64
    ensures { result ≡ behind first digest }
{
    digest / 64 * 64 + first % 64
}
