//! At which keys facts look over an environment, by the digests of these keys.

ghost use Rattle.std.specs.Prelude.{◌≡◌, ◌++◌, ◌∷◌, [], All, Contains, IfOk, IfSome, None, OnOk, map};
ghost use Rattle.idl_env.specs.Facts.{answers, entity_key, scopes_in, with_additions, world};
ghost use Rattle.idl_env.specs.keys.Key.{key_digest};
ghost use Rattle.idl_env.specs.Outside.{IsInnermost, gathered_at, looked_at, looked_at_by};
ghost use Rattle.idl_env.specs.declared.answering.answer.Scope.{Scope};
ghost use Rattle.idl_env.specs.declared.keys.key.Key.TheVariants as key;

use crate::additions::addition::Step;
use crate::additions::facts::Facts;
use crate::answering::answer::{entity_in, scopes_in};
use crate::answering::open_scopes::OpenScopes;
use crate::answering::state::closable;
use crate::env::Env;
use crate::keys::digested::DigestedKey;
use crate::keys::key::Key;
use idl_entity::Path;
use idl_map::Digest;
use idl_memo::Bank;
use std::alloc::{AllocError, Global};

impl Env {
    /// The digests of the keys at which facts look over these answers, where these are told: not of a nameless scope that is
    /// opened, and of one that is closed only without additions.
    pub fn digests_looked_at(&self, facts: &Facts) -> Result<Option<Vec<u64>>, AllocError>
        ensures { IfOk result (λ found. IfSome found (λ digests.
            All (λ k. Contains digests.items (key_digest k))
            (looked_at_by (world self.now) facts.now))) }
    {
        let Some(mut digests) = self.digests_of_step(facts)? else {
            return Ok(None);
        };
        facts.stops_into(&mut digests)?;
        Ok(Some(digests))
    }

    // Those of the keys at which their step looks.
    fn digests_of_step(&self, facts: &Facts) -> Result<Option<Vec<u64>>, AllocError>
        ensures { let f = facts.now in
            IfOk result (λ found. IfSome found (λ digests.
            All (λ k. Contains digests.items (key_digest k))
            (looked_at (with_additions f.additions (world self.now)) f.step))) }
    {
        let alloc = self.alloc();
        match facts.step() {
            Step::Stays | Step::Leaves => Ok(Some(Vec::new(alloc))),
            Step::Opens(path, _) => Ok(Some(digests_of_opening(alloc, path)?)),
            Step::Closes if facts.len() == 0 => Ok(Some(self.digests_of_closing()?)),
            Step::OpensNameless(_) | Step::Closes => Ok(None),
            Step::Prefixes(_) => Ok(Some(digest_alone(alloc, &Key::Cursor)?)),
            Step::Enters => Ok(Some(digest_alone(alloc, &Key::Prefix)?)),
        }
    }

    /// The digests of the key of the open scopes and of that of the entity of the innermost one, if a scope beside the global one
    /// is open.
    pub fn digests_of_innermost(&self) -> Option<(u64, u64)>
        ensures found { IfSome result (λ digests. (s : Scope) × IsInnermost (answers self.now) s
            × (digests.0 ≡ key_digest key.Cursor)
            × (digests.1 ≡ key_digest (entity_key s.path))) }
        ensures none { result ≡ None → (s : Scope) → IsInnermost (answers self.now) s → ⊥ }
    {
        let none = OpenScopes::none();
        let scopes = scopes_in(self.answer(&DigestedKey::cursor()), &none);
        let (innermost, _outer) = closable(scopes)?;
        Some((Key::Cursor.digest(), innermost.path.entity_digest()))
    }

    // Those of the keys at which the closing of the innermost scope looks.
    fn digests_of_closing(&self) -> Result<Vec<u64>, AllocError>
        ensures { let w = world self.now in let scopes = scopes_in (w.answers key.Cursor) in
            IfOk result (λ digests.
            digests.items ≡ map key_digest (key.Cursor ∷ gathered_at w scopes)) }
    {
        let mut digests = digest_alone(self.alloc(), &Key::Cursor)?;
        let none = OpenScopes::none();
        let scopes = scopes_in(self.answer(&DigestedKey::cursor()), &none);
        self.gather(&mut digests, scopes)?;
        Ok(digests)
    }

    // Puts those of the keys last at which the operations of an interface are gathered, if it is the innermost of the scopes.
    fn gather(&self, digests: &mut Vec<u64>, scopes: &OpenScopes) -> Result<(), AllocError>
        ensures { OnOk result
            (digests.new.items
            ≡ digests.old.items ++ map key_digest (gathered_at (world self.now) scopes.now)) }
    {
        let Some((innermost, _outer)) = closable(scopes) else {
            return Ok(());
        };
        if !innermost.kind.is_interface() {
            return Ok(());
        }
        let key = Key::of_entity(self.alloc(), &innermost.path)?;
        digests.push(key.digest())?;
        let Some(entity) = entity_in(self.answer(&key)) else {
            return Ok(());
        };
        put_entities(digests, entity.get().bases())
    }
}

// That of one key.
fn digest_alone(alloc: Global, key: &Key) -> Result<Vec<u64>, AllocError>
    ensures { IfOk result (λ digests. digests.items ≡ key_digest key.now ∷ []) }
{
    let mut digests = Vec::new(alloc);
    digests.push(key.digest())?;
    Ok(digests)
}

// Those of the keys at which the opening of the scope at a path looks.
fn digests_of_opening(alloc: Global, path: &Path) -> Result<Vec<u64>, AllocError>
    ensures { IfOk result (λ digests.
        digests.items ≡ map key_digest (key.Cursor ∷ key.Opened path.now ∷ key.Prefix ∷ [])) }
{
    let opened = Key::Opened(path.clone()?).digest();
    Vec::from_slice(alloc, &[Key::Cursor.digest(), opened, Key::Prefix.digest()])
}

// Puts those of the entities at the paths last.
fn put_entities(digests: &mut Vec<u64>, paths: &[Path]) -> Result<(), AllocError>
    ensures { OnOk result
        (digests.new.items
        ≡ digests.old.items ++ map key_digest (map entity_key paths.now)) }
{
    for path in paths {
        digests.push(path.entity_digest())?;
    }
    Ok(())
}
