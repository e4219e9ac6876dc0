//! What stands in a unit before its fault, or in one before: a use, a naming, a label.

ghost use Rattle.std.specs.Prelude.{IfOk};
ghost use Rattle.idl_related.specs.Told.{AreFew};

use crate::about::About;
use crate::denoting::NameContext;
use crate::names::{last_at, length_of, part_at, tree_of};
use crate::second::{Reason, Second};
use idl_base::Bytes;
use idl_check::{Scratch, UnitWalk};
use idl_entity::Path;
use idl_env::{Env, LentKey, OpenScopes};
use idl_map::Lent;
use idl_parts::{Purpose, UnitPart, sites};
use idl_scope::Standpoint;
use idl_tree::{ScopedName, Tree};
use idl_unit::UnitText;
use idl_value::Value;
use std::alloc::{AllocError, Global};

/// Where a walk over a unit begins: the environment, the scopes that are open, and the unit's sites.
#[derive(Clone, Copy)]
pub struct WalkStart<'s, 't> {
    pub env: &'s Env,
    pub scopes: &'s OpenScopes,
    pub sites: &'s [UnitPart<'t>],
}

/// A unit over which a walk goes once more.
pub struct UnitReplay<'s, 't> {
    sites: &'s [UnitPart<'t>],
    steps: UnitWalk<'s>,
}

impl<'s, 't> Drop for UnitReplay<'s, 't> {
    fn drop(self) {
        let UnitReplay {
            sites: _sites,
            steps: _steps,
        } = self;
    }
}

impl<'a> About<'a> {
    /// The first use that introduced a name into the scope in which it is declared.
    pub fn use_before(
        self,
        steps: &UnitWalk<'_>,
        name: &Bytes,
        again: &mut UnitReplay<'_, '_>,
    ) -> Result<Vec<Second>, AllocError>
        ensures { IfOk result (λ seconds. AreFew seconds.items) }
    {
        let alloc = self.alloc();
        let Some(scope) = steps.cursor().innermost() else {
            return Ok(Vec::new(alloc));
        };
        let path = scope.path.child(alloc, name)?;
        let key = LentKey::introduced(alloc, &path, &scope.path, scope.body);
        match self.first_use(&key)? {
            Some(unit) => self.use_in(unit, &path),
            None => self.here(Reason::Used, again.introducing(&key)?),
        }
    }

    // The unit before this one that first introduces a name into a scope.
    fn first_use(self, key: &LentKey<'_>) -> Result<Option<usize>, AllocError> {
        let key = key.owned()?;
        Ok(self.known.first_use(&key))
    }

    // The first use in a unit of the name with which a path ends.
    fn use_in(self, unit: usize, path: &Path) -> Result<Vec<Second>, AllocError>
        ensures { IfOk result (λ seconds. AreFew seconds.items) }
    {
        match self.known.text(unit) {
            Some(text) => self.at(Reason::Used, unit, using_token(self.alloc(), text, path)?),
            None => Ok(Vec::new(self.alloc())),
        }
    }

    /// The first naming of what this name denotes among the sites of the unit.
    pub fn naming_before(
        self,
        steps: &UnitWalk<'_>,
        name: &ScopedName,
        again: &mut UnitReplay<'_, '_>,
    ) -> Result<Vec<Second>, AllocError>
        ensures { IfOk result (λ seconds. AreFew seconds.items) }
    {
        let standing = NameContext {
            about: self,
            place: Standpoint {
                own: steps.own(),
                cursor: steps.cursor(),
            },
        };
        let Ok(found) = standing.resolved(name)? else {
            return Ok(Vec::new(self.alloc()));
        };
        self.here(Reason::Named, again.naming(found.entity.get().path())?)
    }

    /// The first label of the same union that is the one at the fault.
    pub fn label_before(self, again: &mut UnitReplay<'_, '_>) -> Result<Vec<Second>, AllocError>
        ensures { IfOk result (λ seconds. AreFew seconds.items) }
    {
        self.here(
            Reason::Labelled,
            again.first_label(self.alloc(), self.fault.index)?,
        )
    }
}

// The token of a unit with which the first use begins whose first part has the name with which a path ends, in any case.
fn using_token(alloc: Global, text: &UnitText, path: &Path) -> Result<Option<usize>, AllocError> {
    match tree_of(alloc, text)? {
        Some(tree) => used_in(alloc, &tree, path),
        None => Ok(None),
    }
}

// That token of a unit with this tree.
fn used_in(alloc: Global, tree: &Tree, path: &Path) -> Result<Option<usize>, AllocError> {
    let sites = sites(alloc, tree)?;
    let mut at: usize = 0;
    for site in sites.as_slice() {
        if let UnitPart::Used(_way, name) = site {
            if begins_with(alloc, name, path)? {
                return Ok(Some(at));
            }
        }
        at = at.saturating_add(length_of(site));
    }
    Ok(None)
}

// Whether the first part of a name is that with which a path ends, in any case, and is looked for outward.
fn begins_with(alloc: Global, name: &ScopedName, path: &Path) -> Result<bool, AllocError> {
    if name.is_global {
        return Ok(false);
    }
    let folded = name.first.to_folded(alloc)?;
    Ok(path.has_folded(&folded))
}

// A label: how many scopes of the unit are around it, its first token, and where its value stands among the unit's values; `default`
// has none.
#[derive(Clone, Copy)]
struct CaseLabel {
    depth: usize,
    token: usize,
    value: Option<usize>,
}

impl<'s, 't> UnitReplay<'s, 't> {
    /// Before the first site.
    pub fn new(scratch: &mut Scratch, start: WalkStart<'s, 't>) -> UnitReplay<'s, 't> {
        UnitReplay {
            sites: start.sites,
            steps: UnitWalk::new(scratch, start.env, start.scopes),
        }
    }

    // The token with which a use begins behind which a name is introduced at this key.
    fn introducing(&mut self, key: &LentKey<'_>) -> Result<Option<usize>, AllocError> {
        for site in self.sites {
            let at = self.steps.at();
            self.steps.pass(*site)?;
            if let UnitPart::Used(_way, name) = site {
                if self.steps.own().get(key)?.is_some() {
                    return Ok(Some(part_at(at, name, 0)));
                }
            }
        }
        Ok(None)
    }

    // The token that ends the first used name that denotes what stands at this path.
    fn naming(&mut self, path: &Path) -> Result<Option<usize>, AllocError> {
        for site in self.sites {
            let at = self.steps.at();
            self.steps.pass(*site)?;
            if let (UnitPart::Used(_way, name), Some(found)) = (site, self.steps.found().last()) {
                if *found == *path {
                    return Ok(Some(last_at(at, name)));
                }
            }
        }
        Ok(None)
    }

    // The first token of the first label that is the one at this token, of those of the same union before it.
    fn first_label(&mut self, alloc: Global, index: usize) -> Result<Option<usize>, AllocError> {
        let mut labels = CaseLabels::new(alloc);
        self.label_at(&mut labels, index)
    }

    // The same, where these are the labels so far.
    fn label_at(
        &mut self,
        labels: &mut CaseLabels,
        index: usize,
    ) -> Result<Option<usize>, AllocError> {
        for site in self.sites {
            let at = self.steps.at();
            self.steps.pass(*site)?;
            let Some(label) = labels.pass(site, at, self.steps.values())? else {
                continue;
            };
            if label.token == index {
                return Ok(labels.equal(label, self.steps.values()));
            }
            labels.labels.push(label)?;
        }
        Ok(None)
    }
}

// The labels so far of the unions around a site, how many scopes of the unit are around it, and where the last expression began.
struct CaseLabels {
    alloc: Global,
    labels: Vec<CaseLabel>,
    depth: usize,
    begin: usize,
}

impl Drop for CaseLabels {
    fn drop(self) {
        let CaseLabels {
            alloc: _alloc,
            labels: _labels,
            depth: _depth,
            begin: _begin,
        } = self;
    }
}

impl CaseLabels {
    // Before the first site.
    fn new(alloc: Global) -> CaseLabels {
        CaseLabels {
            alloc,
            labels: Vec::new(alloc),
            depth: 0,
            begin: 0,
        }
    }

    // Behind a site that begins at this token, where these are the values so far: the label there, if it is one.
    fn pass(
        &mut self,
        site: &UnitPart<'_>,
        at: usize,
        values: &[Value],
    ) -> Result<Option<CaseLabel>, AllocError> {
        match site {
            UnitPart::ValueBegins => self.begin = at,
            UnitPart::ScopeBegins(_, _) => self.depth = self.depth.saturating_add(1),
            UnitPart::ScopeEnds => self.end_scope()?,
            UnitPart::Default => return Ok(Some(self.label(at, None))),
            UnitPart::ValueEnds(Purpose::Label, _) => {
                return Ok(Some(self.label(self.begin, values.len().checked_sub(1))));
            }
            _ => {}
        }
        Ok(None)
    }

    // A label here.
    fn label(&self, token: usize, value: Option<usize>) -> CaseLabel {
        CaseLabel {
            depth: self.depth,
            token,
            value,
        }
    }

    // The innermost scope ends: its labels are left.
    fn end_scope(&mut self) -> Result<(), AllocError> {
        let mut left = Vec::new(self.alloc);
        for label in self.labels.as_slice() {
            if label.depth < self.depth {
                left.push(*label)?;
            }
        }
        self.labels = left;
        self.depth = self.depth.saturating_sub(1);
        Ok(())
    }

    // The token of the first label of the same union that is equal to another.
    fn equal(&self, other: CaseLabel, values: &[Value]) -> Option<usize> {
        for label in self.labels.as_slice() {
            if label.depth == other.depth && are_equal(*label, other, values) {
                return Some(label.token);
            }
        }
        None
    }
}

// Whether two labels are equal.
fn are_equal(one: CaseLabel, other: CaseLabel, values: &[Value]) -> bool {
    match (one.value, other.value) {
        (None, None) => true,
        (Some(a), Some(b)) => match (values.get(a), values.get(b)) {
            (Some(a), Some(b)) => *a == *b,
            _ => false,
        },
        _ => false,
    }
}
