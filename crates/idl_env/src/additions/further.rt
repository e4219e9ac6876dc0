//! Uses that reach further outward than the scopes that were asked, and what stops them.

ghost use Rattle.std.specs.Prelude.{◌≡◌, ◌++◌, ◌∷◌, [], IfOk, IfSome, IsFalse, None, OnOk, flat_map, is_some, map};
ghost use Rattle.std.specs.List.{list_any};
ghost use Rattle.std.specs.Cmp.Lexicographic.{pointwise};
ghost use Rattle.idl_entity.specs.Path.{path_eq};
ghost use Rattle.idl_env.specs.Differing.{unless_of};
ghost use Rattle.idl_env.specs.Facts.{entity_in, is_stopped, stops_of, unstopped};
ghost use Rattle.idl_env.specs.Stamps.{stamped_in};
ghost use Rattle.idl_env.specs.keys.Key.{key_digest};
ghost use Rattle.idl_env.specs.declared.keys.key.Key.TheVariants.{Declared};

use crate::additions::addition::Addition;
use crate::additions::digested_addition::DigestedAddition;
use crate::additions::facts::Facts;
use crate::answering::answer::entity_in;
use crate::answering::answers::Answers;
use crate::keys::lent_key::LentKey;
use idl_base::Seq;
use idl_entity::Path;
use idl_entity::paths::{OwnName, under};
use idl_map::Digest;
use std::alloc::{AllocError, Global};

/// How a use goes on outward of the scope that decides what its name denotes.
#[derive(Drop)]
pub struct Further {
    /// The number of the body into which it introduces the name.
    pub body: usize,
    /// The scopes outward of the deciding one, up to this. None of them was asked: it goes no further than to one that itself
    /// declares the name.
    pub unless: Seq<Path>,
}

impl Addition {
    // The name that it goes on to introduce, and how, if it is a use that may be stopped.
    #[inline]
    fn further(&self) -> Option<(&OwnName, &Further)>
        ensures some { IfSome result (λ p.
            stops_of self.now ≡ map (λ path. Declared p.0.now path) p.1.now.unless) }
        ensures none { result ≡ None → stops_of self.now ≡ [] }
    {
        match self {
            Addition::UsesFurther(name, _, further) => Some((name, further.get())),
            _ => None,
        }
    }

    /// Whether the same scopes may stop both.
    pub(crate) fn is_stopped_as(&self, other: &Addition) -> bool
        ensures { result ≡ pointwise path_eq (unless_of self.now) (unless_of other.now) }
    {
        self.unless() == other.unless()
    }

    // The paths of the scopes that may stop it.
    fn unless(&self) -> &[Path]
        ensures { result.now ≡ unless_of self.now }
    {
        match self {
            Addition::UsesFurther(_, _, further) => further.get().unless.as_slice(),
            _ => &[],
        }
    }

    // Whether it is a use that is stopped over these answers.
    fn is_stopped(&self, alloc: Global, answers: &Answers) -> Result<bool, AllocError>
        ensures { IfOk result (λ stopped.
            stopped ≡ is_stopped (stamped_in answers.now).at self.now) }
    {
        match self.further() {
            Some((name, further)) => {
                declared_in_any(alloc, answers, name, further.unless.as_slice())
            }
            None => Ok(false),
        }
    }

    // Puts the digests of the keys last at which it is told whether it is stopped.
    fn stops_into(&self, digests: &mut Vec<u64>) -> Result<(), AllocError>
        ensures { OnOk result
            (digests.new.items ≡ digests.old.items ++ map key_digest (stops_of self.now)) }
    {
        match self.further() {
            Some((name, further)) => put_declared(digests, name, further.unless.as_slice()),
            None => Ok(()),
        }
    }
}

// Whether one of the scopes at these paths itself declares the name over these answers.
fn declared_in_any(
    alloc: Global,
    answers: &Answers,
    name: &OwnName,
    paths: &[Path],
) -> Result<bool, AllocError>
    ensures { IfOk result (λ declared.
        declared
        ≡ list_any (λ k. is_some (entity_in ((stamped_in answers.now).at k)))
        (map (λ p. Declared name.now p) paths.now)) }
{
    for path in paths {
        let key = LentKey::declared(alloc, name.spelling(), path);
        if entity_in(answers.get_lent(&key)?).is_some() {
            return Ok(true);
        }
    }
    Ok(false)
}

// Puts the digests of the keys last at which a name is declared in the scopes at these paths.
fn put_declared(digests: &mut Vec<u64>, name: &OwnName, paths: &[Path]) -> Result<(), AllocError>
    ensures { OnOk result
        (digests.new.items
        ≡ digests.old.items ++ map key_digest (map (λ p. Declared name.now p) paths.now)) }
{
    for path in paths {
        digests.push(under(path.digest(), name.spelling().as_bytes()))?;
    }
    Ok(())
}

// Puts a copy of an addition last, unless it is a use that is stopped over these answers.
fn put_unless_stopped(
    alloc: Global,
    answers: &Answers,
    left: &mut Vec<DigestedAddition>,
    addition: &Addition,
) -> Result<(), AllocError>
    ensures { OnOk result
        (left.new.items
        ≡ left.old.items ++ unstopped (stamped_in answers.now).at (addition.now ∷ [])) }
{
    if addition.is_stopped(alloc, answers)? {
        return Ok(());
    }
    left.push(DigestedAddition::of(addition.clone()?))?;
    Ok(())
}

impl Facts {
    /// Whether a use among them may be stopped.
    pub(crate) fn may_be_stopped(&self) -> bool
        ensures { IsFalse result → flat_map stops_of self.now.additions ≡ [] }
    {
        for index in 0..self.len() {
            let Some(addition) = self.addition(index) else {
                continue;
            };
            if let Some(_further) = addition.further() {
                return true;
            }
        }
        false
    }

    /// Copies of those that are not stopped over these answers.
    pub(crate) fn unstopped(
        &self,
        alloc: Global,
        answers: &Answers,
    ) -> Result<Vec<DigestedAddition>, AllocError>
        ensures { IfOk result (λ left.
            left.items ≡ unstopped (stamped_in answers.now).at self.now.additions) }
    {
        let mut left = Vec::new(alloc);
        for index in 0..self.len() {
            let Some(addition) = self.addition(index) else {
                continue;
            };
            put_unless_stopped(alloc, answers, &mut left, addition)?;
        }
        Ok(left)
    }

    /// Puts the digests of the keys last at which it is told whether uses are stopped.
    pub fn stops_into(&self, digests: &mut Vec<u64>) -> Result<(), AllocError>
        ensures { OnOk result
            (digests.new.items
            ≡ digests.old.items ++ map key_digest (flat_map stops_of self.now.additions)) }
    {
        for index in 0..self.len() {
            let Some(addition) = self.addition(index) else {
                continue;
            };
            addition.stops_into(digests)?;
        }
        Ok(())
    }
}
