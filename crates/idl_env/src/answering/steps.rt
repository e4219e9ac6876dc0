//! What the walks through bases and typedefs ask, step by step, and what is asked outward from a scope, in one step: what stands
//! in logs for what each step asks.

ghost use Rattle.std.specs.Prelude.{◌≡◌, ◌||◌, ◌++◌, ◌∷◌, [], IfSome, IsTrue, None, OnOk, Some};
ghost use Rattle.std.specs.Option.{option_copied};
ghost use Rattle.idl_env.specs.Facts.{entity_key};
ghost use Rattle.idl_env.specs.answering.Walked.{entries_walked, path_of};
ghost use Rattle.idl_env.specs.keys.Key.{key_eq};
ghost use Rattle.idl_env.specs.declared.answering.steps.Walked.TheVariants.{Entered};
ghost use Rattle.idl_memo.specs.Runs.{BeginsWith};
ghost use Rattle.idl_env.specs.declared.keys.key.Key.TheVariants.{Declared};

use crate::answering::answer::Answer;
use crate::answering::outward::{append_outward, is_outward, shares_outward};
use crate::keys::digested::DigestedKey;
use crate::keys::held_key::HeldKey;
use crate::keys::lent_key::LentKey;
use idl_base::{Bytes, Datum, Shared};
use idl_entity::Path;
use idl_entity::paths::NamedPath;
use idl_map::{Digest, Lent};
use idl_memo::{Digests, LentBank, Step, other_at};
use std::alloc::{AllocError, Global};

/// What the steps of one walk ask.
#[derive(Drop)]
pub enum Walked {
    /// Each asks for this name in a scope, where it isn't declared, and then for the entity of the scope.
    Entered(Shared<Bytes>),
    /// Each asks for this name alone.
    Named(Shared<Bytes>),
    /// Each asks for the entity alone.
    Behind,
    /// One asks for the typeprefix of the scope at this path, and then for that of each around it but the global one: none has one.
    Outward(NamedPath),
}

// The path of the entity that is answered, and of what is no entity that of the global scope, which is lent.
fn path_of<'a>(answer: &'a Answer, global: &'a Path) -> &'a Path
    requires { global.now ≡ [] }
    ensures { result.now ≡ path_of answer.now }
{
    match answer {
        Answer::Known(entity) => entity.get().path(),
        _ => global,
    }
}

// Whether an entry is that of a name in the scope at a path, where it isn't declared.
#[tactic(auto, using(crate::proofs::WalkedLemmas::declared_at))]
fn is_absent(
    entry: Option<&(DigestedKey, Option<Answer>)>,
    name: &Shared<Bytes>,
    path: &Path,
) -> bool
    ensures { IsTrue result
        → option_copied entry.entry ≡ Some (Declared name.now path.now, None) }
{
    let Some((key, None)) = entry else {
        return false;
    };
    match key.held() {
        HeldKey::Declared(own, scope) => *own.get() == *name.get() && scope.is_of(path),
        _ => false,
    }
}

// Whether a key is that of the entity at a path.
#[tactic(auto, using(crate::proofs::WalkedLemmas::entity_found))]
fn is_of_entity(key: &DigestedKey, path: &Path) -> bool
    ensures { IsTrue result → key.now ≡ entity_key path.now }
{
    match key.held() {
        HeldKey::Entity(named) => named.is_found_as(path),
        _ => false,
    }
}

// The answer of an entry, if it is of the entity that is answered.
fn entity_at(entry: Option<&(DigestedKey, Option<Answer>)>) -> Option<&Answer>
    ensures { IfSome result (λ answer. option_copied entry.entry
        ≡ Some (entity_key (path_of answer.now), Some answer.now)) }
{
    let Some((key, Some(answer))) = entry else {
        return None;
    };
    let global = Path::global();
    if is_of_entity(key, path_of(answer, &global)) {
        return Some(answer);
    }
    None
}

// What is asked for a name by the first of these entries, if the second is of the entity of the same scope.
#[tactic(auto, using(crate::proofs::WalkedLemmas::two_first))]
fn entered<'a>(
    entries: &'a [(DigestedKey, Option<Answer>)],
    name: &Shared<Bytes>,
) -> Option<&'a Answer>
    ensures { IfSome result (λ answer.
        BeginsWith (entries_walked (Entered name.now) answer.now) entries.now) }
{
    let answer = entity_at(entries.get(1))?;
    let global = Path::global();
    if is_absent(entries.first(), name, path_of(answer, &global)) {
        return Some(answer);
    }
    None
}

// The answer of the step with which entries begin, where they tell it.
#[tactic(auto, using(crate::proofs::WalkedLemmas::one_first))]
fn first_answer<'a>(
    head: &Walked,
    entries: &'a [(DigestedKey, Option<Answer>)],
) -> Option<&'a Answer>
    ensures { IfSome result (λ answer.
        BeginsWith (entries_walked head.now answer.now) entries.now) }
{
    match head {
        Walked::Entered(name) => entered(entries, name),
        Walked::Named(_) | Walked::Outward(_) => None,
        Walked::Behind => entity_at(entries.first()),
    }
}

// Whether an answer is the one that was found, where that is told at little cost.
fn is_found(answer: &Answer, found: Option<&Answer>) -> bool
    ensures { IsTrue result → option_copied found.entry ≡ Some answer.now }
{
    is_told(answer) && is_that(found, answer)
}

// Whether what was found is this.
fn is_that<A: Datum>(found: Option<&A>, this: &A) -> bool
    ensures { IsTrue result → option_copied found.entry ≡ Some this.now }
{
    match found {
        Some(other) => *other == *this,
        None => false,
    }
}

// Whether it takes little to compare an answer: one that has operations has as many as all of its bases.
fn is_told(answer: &Answer) -> bool {
    let Answer::Known(entity) = answer else {
        return false;
    };
    if !entity.get().kind().is_interface() {
        return true;
    }
    match entity.get().operations() {
        Ok(operations) => operations.links().split_first().is_none(),
        Err(AllocError) => false,
    }
}

// Whether a key is that of a name in the scope at a path, or that of the entity there.
fn is_either(alloc: Global, name: &Shared<Bytes>, path: &Path, key: &DigestedKey) -> bool
    ensures { result
        ≡ key_eq (Declared name.now path.now) key.now || key_eq (entity_key path.now) key.now }
{
    is_under(alloc, name, path, key) || is_entity(alloc, path, key)
}

// Whether a key is that of a name in the scope at a path.
fn is_under(alloc: Global, name: &Shared<Bytes>, path: &Path, key: &DigestedKey) -> bool
    ensures { result ≡ key_eq (Declared name.now path.now) key.now }
{
    LentKey::under(alloc, name, path).is(key)
}

// Whether a key is that of the entity at a path.
fn is_entity(alloc: Global, path: &Path, key: &DigestedKey) -> bool
    ensures { result ≡ key_eq (entity_key path.now) key.now }
{
    LentKey::of_entity(alloc, path).is(key)
}

// Puts what is asked for a name in the scope at a path, where it isn't declared, behind other entries.
fn append_absent(
    alloc: Global,
    name: &Shared<Bytes>,
    path: &Path,
    entries: &mut Vec<(DigestedKey, Option<Answer>)>,
) -> Result<(), AllocError>
    ensures { OnOk result
        (entries.new.items ≡ entries.old.items ++ (Declared name.now path.now, None) ∷ []) }
{
    let key = LentKey::under(alloc, name, path).owned()?;
    entries.push((key, None))?;
    Ok(())
}

// Puts what is asked for the entity at a path, with its answer, behind other entries.
fn append_found(
    alloc: Global,
    answer: &Answer,
    path: &Path,
    entries: &mut Vec<(DigestedKey, Option<Answer>)>,
) -> Result<(), AllocError>
    ensures { OnOk result
        (entries.new.items ≡ entries.old.items ++ (entity_key path.now, Some answer.now) ∷ []) }
{
    let key = LentKey::of_entity(alloc, path).owned()?;
    entries.push((key, Some(answer.clone()?)))?;
    Ok(())
}

// What the steps of a walk would ask that begins with these keys.
fn head_of(
    key: &HeldKey,
    answer: &Option<Answer>,
    next: Option<&(DigestedKey, Option<Answer>)>,
) -> Result<Option<Walked>, AllocError> {
    if let (HeldKey::Entity(_), Some(Answer::Known(_))) = (key, answer) {
        return Ok(Some(Walked::Behind));
    }
    let (HeldKey::Declared(name, _), None, Some((next, _))) = (key, answer, next) else {
        return Ok(None);
    };
    match next.held() {
        HeldKey::Entity(_) => Ok(Some(Walked::Entered(name.clone()?))),
        HeldKey::Declared(_, _) => Ok(Some(Walked::Named(name.clone()?))),
        _ => Ok(None),
    }
}

impl Step<DigestedKey, Answer, Walked> for Answer {
    ghost use Rattle.idl_env.specs.answering.Walked.{entries_walked};

    ghost logged = { entries_walked };

    fn width(head: &Walked) -> Option<usize> {
        match head {
            Walked::Entered(_) => Some(2),
            Walked::Named(_) | Walked::Behind => Some(1),
            Walked::Outward(_) => None,
        }
    }

    fn append_to(
        &self,
        alloc: Global,
        head: &Walked,
        entries: &mut Vec<(DigestedKey, Option<Answer>)>,
    ) -> Result<(), AllocError> {
        let global = Path::global();
        let path = path_of(self, &global);
        match head {
            Walked::Entered(name) => {
                append_absent(alloc, name, path, entries)?;
                append_found(alloc, self, path, entries)
            }
            Walked::Named(name) => append_absent(alloc, name, path, entries),
            Walked::Behind => append_found(alloc, self, path, entries),
            Walked::Outward(scope) => append_outward(alloc, scope.lent(), entries),
        }
    }

    fn head(
        _alloc: Global,
        entries: &[(DigestedKey, Option<Answer>)],
    ) -> Result<Option<Walked>, AllocError> {
        match entries.first() {
            Some((key, answer)) => head_of(key.held(), answer, entries.get(1)),
            None => Ok(None),
        }
    }

    fn first(
        head: &Walked,
        entries: &[(DigestedKey, Option<Answer>)],
    ) -> Result<Option<Answer>, AllocError> {
        match first_answer(head, entries) {
            Some(answer) => Ok(Some(answer.clone()?)),
            None => Ok(None),
        }
    }

    #[tactic(auto, using(crate::proofs::WalkedLemmas::found_first, crate::proofs::WalkedLemmas::one_first))]
    fn is_first(&self, head: &Walked, entries: &[(DigestedKey, Option<Answer>)]) -> bool {
        match head {
            Walked::Named(name) => {
                let global = Path::global();
                is_absent(entries.first(), name, path_of(self, &global))
            }
            _ => is_found(self, first_answer(head, entries)),
        }
    }

    fn is_told(&self) -> bool {
        is_told(self)
    }

    fn mark(&self) -> u64 {
        let global = Path::global();
        path_of(self, &global).digest()
    }

    fn first_mark(_head: &Walked, entries: &[(DigestedKey, Option<Answer>)]) -> Option<u64> {
        let (key, _answer) = entries.first()?;
        match key.held() {
            HeldKey::Entity(path) | HeldKey::Declared(_, path) => Some(path.lent().digest()),
            _ => None,
        }
    }

    #[tactic(auto, using(crate::proofs::WalkedLemmas::mapped_or, crate::proofs::WalkedLemmas::other_alone, crate::proofs::WalkedLemmas::other_two))]
    fn first_other<
        'a,
        B: LentBank<Key = DigestedKey, Answer = Answer, Head = Walked, Step = Answer>,
    >(
        &'a self,
        alloc: Global,
        head: &Walked,
        bank: &'a B,
    ) -> Option<(Option<&'a Answer>, Option<&'a Answer>)> {
        let global = Path::global();
        let path = path_of(self, &global);
        match head {
            Walked::Entered(name) => {
                let declared = bank.answer_at(&LentKey::under(alloc, name, path));
                let found = bank.answer_at(&LentKey::of_entity(alloc, path));
                other_at(None, declared).or(other_at(Some(self), found))
            }
            Walked::Named(name) => {
                let declared = bank.answer_at(&LentKey::under(alloc, name, path));
                other_at(None, declared)
            }
            Walked::Behind => {
                let found = bank.answer_at(&LentKey::of_entity(alloc, path));
                other_at(Some(self), found)
            }
            Walked::Outward(scope) => {
                let mut names = scope.lent();
                'scopes: while let Some((_name, around)) = names.again().split_first() {
                    let other = other_at(None, bank.answer_at(&LentKey::typeprefix(alloc, names)));
                    if other.is_some() {
                        return other;
                    }
                    names = around;
                }
                None
            }
        }
    }

    fn has(&self, alloc: Global, head: &Walked, key: &DigestedKey) -> bool {
        let global = Path::global();
        let path = path_of(self, &global);
        match head {
            Walked::Entered(name) => is_either(alloc, name, path, key),
            Walked::Named(name) => is_under(alloc, name, path, key),
            Walked::Behind => is_entity(alloc, path, key),
            Walked::Outward(scope) => is_outward(alloc, scope.lent(), key),
        }
    }

    fn shares<D: Digests>(&self, alloc: Global, head: &Walked, digests: &D) -> bool {
        let global = Path::global();
        let path = path_of(self, &global);
        match head {
            Walked::Entered(name) => {
                digests.has(LentKey::under(alloc, name, path).digest())
                    || digests.has(LentKey::of_entity(alloc, path).digest())
            }
            Walked::Named(name) => digests.has(LentKey::under(alloc, name, path).digest()),
            Walked::Behind => digests.has(LentKey::of_entity(alloc, path).digest()),
            Walked::Outward(scope) => shares_outward(alloc, scope.lent(), digests),
        }
    }
}
