//! Paths: where an entity or a scope stands.

ghost use Rattle.std.specs.Prelude.{◌≡◌, ◌&&◌, ◌↔◌, ◌∷◌, [], IfOk, IfSome, IsFalse, IsTrue, None, Some, false, refl};
ghost use Rattle.std.specs.Cmp.{partial_equiv_from_equiv};
ghost use Rattle.std.specs.Cmp.Lexicographic.{lists_agrees, lists_equiv, lists_per, lists_po, lists_ties, lists_total, nat_list_cmp_total, nat_list_eq_equiv, pointwise, slice_cmp, slice_partial_cmp, texts_po, texts_ties};
ghost use Rattle.std.specs.Hash as fed;
ghost use Rattle.std.specs.Ordering.{nat_cmp};
ghost use Rattle.std.specs.Str.{bytes_eq};
ghost use Rattle.std.proofs.Common.{ap};
ghost use Rattle.idl_value.specs.idl_lex.kinds.Keywords.{folded};
ghost use Rattle.idl_entity.specs.Digest.{path_digest, under};
ghost use Rattle.idl_entity.specs.Path.{name_of, path_eq, path_of, same_path, scope_of};

use crate::paths::digest::under;
use crate::paths::name::shared_name;
use crate::paths::named_path::NamedPath;
use crate::paths::names::Names;
use idl_base::{Bytes, Datum};
use idl_value::idl_map::Digest;
use std::alloc::{AllocError, Global};
use std::cmp::Ordering;
use std::hash::{Hash, Hasher};
use std::marker::Model;
use std::rc::Rc;

/// A path: the name of an entity as it is spelled, then those of the scopes around it, the innermost first. The global scope's
/// has none.
///
/// To every contract it is the list of its names. What stands in one scope shares the path of that scope, so that a path
/// takes the memory of one name, and a clone none.
#[derive(Drop)]
pub struct Path {
    innermost: Option<Rc<PathPart>>,
}

impl Model for Path {
    ghost use Rattle.std.specs.Prelude.{List, ℕ};
    ghost use Rattle.idl_entity.specs.Path.{path_of};

    ghost Value = { List (List ℕ) };

    ghost view = { λ path. path_of path.innermost };
}

/// A name of a path with the path around, and beside it its folded form and the digest of the path from there on.
pub struct PathPart {
    name: Bytes,
    folded_name: Bytes,
    digest: u64,
    around: Option<Rc<PathPart>>,
}

impl Model for PathPart {
    ghost use Rattle.std.specs.Prelude.{List, ℕ, ◌≡◌, ◌∷◌, length};
    ghost use Rattle.idl_value.specs.idl_lex.kinds.Keywords.{folded};
    ghost use Rattle.idl_entity.specs.Digest.{path_digest};
    ghost use Rattle.idl_entity.specs.Path.{path_of};

    ghost Value = { List ℕ × List (List ℕ) };

    ghost view = { λ part. (part.name, path_of part.around) };

    ghost invariant = { λ part.
        (part.folded_name ≡ folded part.name)
        × (part.digest ≡ path_digest (part.name ∷ path_of part.around)) };

    ghost size = { λ seen. length seen.1 };

    ghost use Rattle.std.proofs.Common.{arith};

    ghost size_decreases = { λ a h. Prim.grind arith };
}

// A loop, so that a long path is dropped in little stack.
impl Drop for PathPart {
    fn drop(self) {
        let mut link = self.into_around();
        while let Some(shared) = link {
            link = match Rc::into_inner(shared) {
                Some(part) => part.into_around(),
                None => None,
            };
        }
    }
}

impl PathPart {
    /// The name.
    pub fn name(&self) -> &Bytes
        ensures { result.now ≡ self.now.0 }
    {
        &self.name
    }

    /// The name, folded.
    pub fn folded_name(&self) -> &Bytes
        ensures { result.now ≡ folded self.now.0 }
    {
        &self.folded_name
    }

    // The digest of the path.
    pub(crate) fn digest(&self) -> u64
        ensures { result ≡ path_digest (self.now.0 ∷ self.now.1) }
    {
        self.digest
    }

    /// The names of the path around.
    pub fn around(&self) -> Names<'_>
        ensures { result ≡ self.now.1 }
    {
        Names::of(&self.around)
    }

    // The path around, without its name, which is dropped.
    fn into_around(self) -> Option<Rc<PathPart>>
        ensures { path_of result ≡ self.1 }
    {
        let PathPart {
            name: _name,
            folded_name: _folded_name,
            digest: _digest,
            around,
        } = self;
        around
    }
}

impl Path {
    /// The path of the global scope. It takes no memory.
    pub fn global() -> Path
        ensures { result ≡ [] }
    {
        Path { innermost: None }
    }

    // The path that ends in this part.
    pub(crate) fn ending(part: Rc<PathPart>) -> Path
        ensures { result ≡ part.value.0 ∷ part.value.1 }
    {
        Path {
            innermost: Some(part),
        }
    }

    /// The path of a name in the scope with this path.
    #[inline(always)]
    pub fn child(&self, alloc: Global, name: &Bytes) -> Result<Path, AllocError>
        ensures { IfOk result (λ path. path ≡ name.now ∷ self.now) }
    {
        let part = self.part_for(alloc, name)?;
        let innermost = Some(Rc::new(alloc, part)?);
        Ok(Path { innermost })
    }

    /// The part of a name in the scope with this path.
    #[inline(always)]
    #[tactic(auto, unfolding(crate::specs::Digest::path_digest))]
    pub(crate) fn part_for(&self, alloc: Global, name: &Bytes) -> Result<PathPart, AllocError>
        ensures { IfOk result (λ part. part ≡ (name.now, self.now)) }
    {
        let folded_name = name.to_folded(alloc)?;
        let digest = under(self.digest(), folded_name.as_bytes());
        let name = name.clone()?;
        let around = self.innermost.clone()?;
        Ok(PathPart {
            name,
            folded_name,
            digest,
            around,
        })
    }

    /// The names, the innermost first.
    pub fn names(&self, alloc: Global) -> Result<Vec<Bytes>, AllocError>
        ensures { IfOk result (λ names. names.items ≡ self.now) }
    {
        let mut names = Vec::new(alloc);
        let mut link = &self.innermost;
        while let Some(shared) = link {
            let part: &PathPart = shared;
            names.push(part.name.clone()?)?;
            link = &part.around;
        }
        Ok(names)
    }

    /// The names, the innermost first, lent: nothing is copied.
    pub fn lent(&self) -> Names<'_>
        ensures { result ≡ self.now }
    {
        Names::of(&self.innermost)
    }

    /// The names of the path of the scope around, lent; of the global scope's, none.
    pub fn around(&self) -> Names<'_>
        ensures { result ≡ scope_of self.now }
    {
        match &self.innermost {
            None => Names::none(),
            Some(part) => part.around(),
        }
    }

    /// The path to the innermost of its names that is spelled so, if one is.
    pub(crate) fn ending_in(&self, name: &Bytes) -> Result<Option<NamedPath>, AllocError>
        ensures { IfOk result (λ named. IfSome named (λ path. name_of path ≡ name.now)) }
    {
        let mut link = &self.innermost;
        'names: while let Some(shared) = link {
            let part: &PathPart = shared;
            if part.name == *name {
                return Ok(Some(NamedPath::of(shared.clone()?)));
            }
            link = &part.around;
        }
        Ok(None)
    }

    /// The same path, if it has a name.
    pub fn into_named(self) -> Option<NamedPath>
        ensures some { IfSome result (λ path. path ≡ self) }
        ensures none { result ≡ None → self ≡ [] }
    {
        match self.innermost {
            None => None,
            Some(part) => Some(NamedPath::of(part)),
        }
    }

    /// The digest of its own name, folded, in the scope around.
    #[tactic(auto, unfolding(crate::specs::Digest::path_digest))]
    pub fn entity_digest(&self) -> u64
        ensures { result ≡ under (path_digest (scope_of self.now)) (folded (name_of self.now)) }
    {
        match &self.innermost {
            None => under(0, &[]),
            Some(part) => part.digest,
        }
    }

    /// The name of what stands there, folded.
    pub fn folded(&self, alloc: Global) -> Result<Bytes, AllocError>
        ensures { IfOk result (λ name. name ≡ folded (name_of self.now)) }
    {
        match &self.innermost {
            None => shared_name(alloc, &[]),
            Some(part) => part.folded_name.clone(),
        }
    }

    /// The name of what stands there, shared.
    pub fn spelling(&self, alloc: Global) -> Result<Bytes, AllocError>
        ensures { IfOk result (λ name. name ≡ name_of self.now) }
    {
        match &self.innermost {
            None => shared_name(alloc, &[]),
            Some(part) => part.name.clone(),
        }
    }

    /// The name of what stands there, which the global scope has not.
    pub fn name(&self) -> &[u8]
        ensures { result.now ≡ name_of self.now }
    {
        match &self.innermost {
            None => &[],
            Some(part) => part.name.as_bytes(),
        }
    }

    /// The bytes of its name, folded; the global scope has none.
    pub fn folded_bytes(&self) -> &[u8]
        ensures { result.now ≡ folded (name_of self.now) }
    {
        match &self.innermost {
            None => &[],
            Some(part) => part.folded_name.as_bytes(),
        }
    }

    /// The path of the scope around; of the global scope, its own.
    pub fn scope(&self) -> Result<Path, AllocError>
        ensures { IfOk result (λ path. path ≡ scope_of self.now) }
    {
        match &self.innermost {
            None => Ok(Path::global()),
            Some(part) => {
                let innermost = part.around.clone()?;
                Ok(Path { innermost })
            }
        }
    }

    /// Whether it is the path around a part.
    pub(crate) fn is_around(&self, part: &PathPart) -> bool
        ensures { result ≡ path_eq self.now part.now.1 }
    {
        self.lent().are_those(&part.around())
    }
}

impl Path {
    /// Whether what stands there is found under this folded name in the scope with that path.
    pub fn is_found_at(&self, name: &Bytes, scope: &Path) -> bool
        ensures { result
            ≡ bytes_eq name.now (folded (name_of self.now))
            && path_eq scope.now (scope_of self.now) }
    {
        self.lent().begin_with(name, &scope.lent())
    }

    /// Whether this is its own name, folded.
    #[inline(always)]
    pub fn has_folded(&self, name: &Bytes) -> bool
        ensures { result ≡ bytes_eq (folded (name_of self.now)) name.now }
    {
        match &self.innermost {
            None => self.name() == name.as_bytes(),
            Some(part) => part.folded_name == *name,
        }
    }

    /// Whether what stands at another path is found under the same folded name in the same scope.
    pub fn is_found_with(&self, other: &Path) -> bool
        ensures { result
            ≡ bytes_eq (folded (name_of self.now)) (folded (name_of other.now))
            && path_eq (scope_of self.now) (scope_of other.now) }
    {
        match &other.innermost {
            None => self.folded_bytes() == other.name() && self.around().are_those(&other.lent()),
            Some(part) => self.is_found_as(part),
        }
    }

    /// Whether what stands at the path that ends in a part is found under the same folded name in the same scope.
    #[inline(always)]
    pub fn is_found_as(&self, part: &PathPart) -> bool
        ensures { result
            ≡ bytes_eq (folded (name_of self.now)) (folded part.now.0)
            && path_eq (scope_of self.now) part.now.1 }
    {
        self.has_folded(&part.folded_name) && self.around().are_those(&part.around())
    }
}

/// Whether the paths that end in two parts are one.
#[tactic(auto, using(crate::proofs::PathLemmas::same_first))]
pub(crate) fn are_alike(mine: &PathPart, theirs: &PathPart) -> bool
    ensures { result ≡ path_eq (mine.now.0 ∷ mine.now.1) (theirs.now.0 ∷ theirs.now.1) }
{
    let mut own = mine;
    let mut other = theirs;
    while begin_alike(own, other) {
        let Some(around) = &own.around else {
            return other.around.is_none();
        };
        let Some(beside) = &other.around else {
            return false;
        };
        own = around;
        other = beside;
    }
    false
}

// Whether the innermost names are one, unless the digests tell already that the paths are not.
fn begin_alike(mine: &PathPart, theirs: &PathPart) -> bool
    ensures alike { IsTrue result → mine.now.0 ≡ theirs.now.0 }
    ensures differ { IsFalse result
        → path_eq (mine.now.0 ∷ mine.now.1) (theirs.now.0 ∷ theirs.now.1) ≡ false }
{
    mine.digest == theirs.digest && mine.name == theirs.name
}

// Which of two paths comes first, by their innermost names and then by those around.
#[tactic(auto, using(crate::proofs::PathLemmas::equal_first, crate::proofs::PathLemmas::unequal_first))]
fn order_of(first: &Option<Rc<PathPart>>, second: &Option<Rc<PathPart>>) -> Ordering
    ensures { result ≡ slice_cmp (slice_cmp nat_cmp) (path_of first.now) (path_of second.now) }
{
    let mut own = first;
    let mut other = second;
    while let Some(shared) = own {
        let Some(others) = other else {
            return Ordering::Greater;
        };
        let mine: &PathPart = shared;
        let theirs: &PathPart = others;
        let order = mine.name.cmp(&theirs.name);
        if order != Ordering::Equal {
            return order;
        }
        own = &mine.around;
        other = &theirs.around;
    }
    if other.is_some() {
        Ordering::Less
    } else {
        Ordering::Equal
    }
}

impl Clone for Path {
    ghost is_clone = { λ path copy. copy ≡ path };

    fn clone(&self) -> Result<Path, AllocError> {
        let innermost = self.innermost.clone()?;
        Ok(Path { innermost })
    }
}

impl PartialEq for Path {
    ghost eq = { pointwise bytes_eq };

    ghost laws = { lists_per (partial_equiv_from_equiv nat_list_eq_equiv) };

    fn eq(&self, other: &Path) -> bool
        ensures { result ≡ pointwise bytes_eq self.now other.now }
    {
        self.lent().are_those(&other.lent())
    }
}

impl Eq for Path {
    ghost laws = { lists_equiv nat_list_eq_equiv };
}

impl PartialOrd for Path {
    ghost partial_cmp = { slice_partial_cmp (λ x y. Some (slice_cmp nat_cmp x y)) };

    ghost laws = { lists_po texts_po };

    fn partial_cmp(&self, other: &Path) -> Option<Ordering> {
        Some(self.cmp(other))
    }
}

impl Ord for Path {
    ghost cmp = { slice_cmp (slice_cmp nat_cmp) };

    ghost total = { lists_total nat_list_cmp_total };

    ghost matches_partial_cmp = { lists_agrees (λ x y. refl) };

    ghost matches_eq = { lists_ties (slice_cmp nat_cmp) texts_ties };

    fn cmp(&self, other: &Path) -> Ordering
        ensures { result ≡ slice_cmp (slice_cmp nat_cmp) self.now other.now }
    {
        order_of(&self.innermost, &other.innermost)
    }
}

impl Hash for Path {
    ghost hash_input = { λ path. fed.u64 (path_digest path) };

    ghost respects_eq = { λ x y h. ap (λ path. fed.u64 (path_digest path)) (same_path x y h) };

    fn hash<H: Hasher>(&self, state: &mut H) {
        self.digest().hash(state);
    }
}

impl Datum for Path {
    ghost use Rattle.std.specs.Cmp.Lexicographic.{bytes_decides, pointwise_decides};

    ghost same = { λ x y. (pointwise_decides bytes_decides x y).0 };

    ghost copy = { λ x y h. h };
}

impl Digest for Path {
    ghost digest_of = { path_digest };

    #[tactic(auto, unfolding(crate::specs::Digest::path_digest))]
    fn digest(&self) -> u64 {
        match &self.innermost {
            None => 0,
            Some(part) => part.digest,
        }
    }
}
