//! The scopes that are open.
//!
//! A scope has beside it how many are open with it, since into how many a name is introduced is a number. Where that is
//! too large for a word it is want of memory, as a `Vec` of that length is. There is no limit of 64 here: a faulty
//! opening opens a nameless scope, in which names are declared as in any other.
//!
//! Two lists of open scopes are compared in time of their length: where a scope has the path of a name in the next one
//! outward, in both, and these two paths are one, so are the next two, and are not compared.

ghost use Rattle.std.specs.Prelude.{◌≡◌, ◌<◌, ◌∷◌, [], IfOk, IfSome, IsTrue, None, Some, length, refl, slice_get};
ghost use Rattle.std.specs.Option.{option_copied};
ghost use Rattle.std.specs.Cmp.{partial_order_from_agreeing_total};
ghost use Rattle.std.specs.Cmp.Lexicographic.{lists_equiv, lists_per, lists_ties, lists_total, pointwise, slice_cmp};
ghost use Rattle.idl_base.specs.Exact.{same_list};
ghost use Rattle.idl_env.specs.answering.Scope.{same_scope, scope_eq};
ghost use Rattle.idl_env.specs.answering.OpenScopes.{BeginApart, BeginAtOnePath, IsChild, scopes_of};
ghost use Rattle.idl_env.specs.contracts.answering.answer.ScopeEq.TheImpl.Laws.{laws-law as scope_equiv};
ghost use Rattle.idl_env.specs.contracts.answering.answer.ScopeOrd.TheImpl.{ghosts as scopes};
ghost use Rattle.idl_env.specs.contracts.answering.answer.ScopeOrd.TheImpl.Laws.{matches_eq-law as scope_ties, total-law as scope_total};
ghost use Rattle.idl_env.specs.contracts.answering.answer.ScopePartialEq.TheImpl.Laws.{laws-law as scope_per};

use crate::answering::answer::Scope;
use crate::answering::count::one_more;
use idl_base::Datum;
use idl_entity::Path;
use std::alloc::{AllocError, Global};
use std::cmp::Ordering;
use std::marker::Model;
use std::rc::Rc;

/// Open scopes, the innermost first. To every contract it is the list of them.
///
/// A copy is a pointer, and so are those outward of the innermost: one more scope that is opened, or one less, copies none.
#[derive(Drop)]
#[cycle(open_scopes)]
pub struct OpenScopes {
    innermost: Option<Rc<Opened>>,
}

impl Model for OpenScopes {
    ghost use Rattle.std.specs.Prelude.{List, ◌*◌, length};
    ghost use Rattle.std.proofs.Common.{arith};
    ghost use Rattle.idl_env.specs.answering.OpenScopes.{scopes_of};
    ghost use Rattle.idl_env.specs.declared.answering.answer.Scope.{Scope};

    ghost Value = { List Scope };

    ghost view = { λ scopes. scopes_of scopes.innermost };

    ghost size = { λ scopes. 2 * length scopes };

    ghost size_decreases = { λ a h. Prim.grind arith };
}

// An open scope with those outward of it, and how many these and it are.
#[cycle(open_scopes)]
struct Opened {
    scope: Scope,
    outer: OpenScopes,
    count: usize,
    // Whether its path is known to be that of a name in the next scope outward.
    is_child: bool,
}

impl Model for Opened {
    ghost use Rattle.std.specs.Prelude.{List, ◌≡◌, ◌<◌, ◌+◌, ◌*◌, IsTrue, length};
    ghost use Rattle.std.proofs.Common.{arith};
    ghost use Rattle.idl_env.specs.answering.OpenScopes.{IsChild};
    ghost use Rattle.idl_env.specs.declared.answering.answer.Scope.{Scope};

    ghost Value = { Scope × List Scope };

    ghost view = { λ opened. (opened.scope, opened.outer) };

    ghost invariant = { λ opened.
        (opened.count ≡ length opened.outer + 1) × ((length opened.outer < 18446744073709551615)
        × (IsTrue opened.is_child → IsChild opened.scope.path opened.outer)) };

    ghost size = { λ seen. 2 * length seen.1 + 1 };

    ghost size_decreases = { λ a h. Prim.grind arith };
}

// A loop, so that many open scopes are dropped in little stack.
impl Drop for Opened {
    fn drop(self) {
        let mut link = self.into_outer();
        while let Some(shared) = link {
            link = match Rc::into_inner(shared) {
                Some(opened) => opened.into_outer(),
                None => None,
            };
        }
    }
}

impl Opened {
    // Those outward of its scope, which is dropped.
    fn into_outer(self) -> Option<Rc<Opened>>
        ensures { scopes_of result ≡ self.1 }
    {
        let Opened {
            scope: _scope,
            outer,
            count: _count,
            is_child: _is_child,
        } = self;
        outer.innermost
    }

    // Whether its scope is that of another, where it is told whether their paths are known to be one.
    #[tactic(auto, using(crate::proofs::OrderLemmas::one_path))]
    fn is_same(&self, other: &Opened, is_one_path: bool) -> bool
        requires { IsTrue is_one_path → self.now.0.path ≡ other.now.0.path }
        ensures { result ≡ scope_eq self.now.0 other.now.0 }
    {
        if is_one_path {
            return self.scope.kind == other.scope.kind && self.scope.body == other.scope.body;
        }
        self.scope == other.scope
    }
}

impl OpenScopes {
    /// None is open. It takes no memory.
    pub fn none() -> OpenScopes
        ensures { result ≡ [] }
    {
        OpenScopes { innermost: None }
    }

    /// This scope, which is the innermost, and then these.
    pub fn with(&self, alloc: Global, scope: Scope) -> Result<OpenScopes, AllocError>
        ensures { IfOk result (λ scopes. scopes ≡ scope ∷ self.now) }
    {
        let count = one_more(self.len())?;
        let is_child = self.are_around(&scope.path);
        let outer = self.clone()?;
        let opened = Rc::new(
            alloc,
            Opened {
                scope,
                outer,
                count,
                is_child,
            },
        )?;
        Ok(OpenScopes {
            innermost: Some(opened),
        })
    }

    // Whether this is the path of a name in the innermost.
    fn are_around(&self, path: &Path) -> bool
        ensures { IsTrue result → IsChild path.now self.now }
    {
        match self.split_first() {
            Some((scope, _outer)) => path.around().are_those(&scope.path.lent()),
            None => false,
        }
    }

    /// The innermost, and those outward of it; nothing where none is open.
    #[inline]
    pub fn split_first(&self) -> Option<(&Scope, &OpenScopes)>
        ensures some { IfSome result (λ p. self.now ≡ p.0.now ∷ p.1.now) }
        ensures none { result ≡ None → self.now ≡ [] }
        ensures few { IfSome result (λ p. length p.1.now < 18446744073709551615) }
    {
        let Some(shared) = &self.innermost else {
            return None;
        };
        let opened: &Opened = shared;
        Some((&opened.scope, &opened.outer))
    }

    /// The innermost.
    #[inline]
    pub fn innermost(&self) -> Option<&Scope>
        ensures { option_copied result ≡ slice_get self.now 0 }
    {
        let (scope, _outer) = self.split_first()?;
        Some(scope)
    }

    /// How many are open.
    #[inline]
    pub fn len(&self) -> usize
        ensures { result ≡ length self.now }
    {
        match &self.innermost {
            Some(opened) => opened.count,
            None => 0,
        }
    }

    // What is left of these and of others behind those that are the same in both, from the innermost on.
    fn behind_same<'a>(&'a self, other: &'a OpenScopes) -> (&'a OpenScopes, &'a OpenScopes)
        ensures same { pointwise scope_eq result.0.now result.1.now
            ≡ pointwise scope_eq self.now other.now }
        ensures order { slice_cmp scopes.cmp result.0.now result.1.now
            ≡ slice_cmp scopes.cmp self.now other.now }
        ensures apart { BeginApart result.0.now result.1.now }
    {
        let mut mine = self;
        let mut theirs = other;
        let mut is_one_path = false;
        'scopes: while let Some(first) = mine.first() {
            let Some(beside) = theirs.first() else {
                return (mine, theirs);
            };
            if !first.is_same(beside, is_one_path) {
                return (mine, theirs);
            }
            is_one_path = first.is_child && beside.is_child;
            mine = &first.outer;
            theirs = &beside.outer;
        }
        (mine, theirs)
    }

    // The innermost with those outward of it; nothing where none is open.
    fn first(&self) -> Option<&Opened>
        ensures some { IfSome result (λ o. self.now ≡ o.now.0 ∷ o.now.1) }
        ensures none { result ≡ None → self.now ≡ [] }
    {
        let Some(shared) = &self.innermost else {
            return None;
        };
        Some(shared)
    }
}

impl Clone for OpenScopes {
    ghost is_clone = { λ scopes copy. copy ≡ scopes };

    fn clone(&self) -> Result<OpenScopes, AllocError> {
        let innermost = self.innermost.clone()?;
        Ok(OpenScopes { innermost })
    }
}

impl PartialEq for OpenScopes {
    ghost eq = { pointwise scope_eq };

    ghost laws = { lists_per scope_per };

    fn eq(&self, other: &OpenScopes) -> bool
        ensures { result ≡ pointwise scope_eq self.now other.now }
    {
        let (mine, theirs) = self.behind_same(other);
        mine.len() == 0 && theirs.len() == 0
    }
}

impl Eq for OpenScopes {
    ghost laws = { lists_equiv scope_equiv };
}

impl PartialOrd for OpenScopes {
    ghost partial_cmp = { λ x y. Some (slice_cmp scopes.cmp x y) };

    ghost laws = { partial_order_from_agreeing_total (slice_cmp scopes.cmp) (lists_total scope_total) (λ x y. refl) (lists_ties scopes.cmp scope_ties) };

    fn partial_cmp(&self, other: &OpenScopes) -> Option<Ordering> {
        Some(self.cmp(other))
    }
}

impl Ord for OpenScopes {
    ghost cmp = { slice_cmp scopes.cmp };

    ghost total = { lists_total scope_total };

    ghost matches_partial_cmp = { λ x y. refl };

    ghost matches_eq = { lists_ties scopes.cmp scope_ties };

    fn cmp(&self, other: &OpenScopes) -> Ordering
        ensures { result ≡ slice_cmp scopes.cmp self.now other.now }
    {
        let (mine, theirs) = self.behind_same(other);
        match (mine.innermost(), theirs.innermost()) {
            (Some(scope), Some(beside)) => scope.cmp(beside),
            (Some(_scope), None) => Ordering::Greater,
            (None, Some(_beside)) => Ordering::Less,
            (None, None) => Ordering::Equal,
        }
    }
}

impl Datum for OpenScopes {
    ghost same = { same_list scope_eq same_scope };

    ghost copy = { λ x y h. h };
}
