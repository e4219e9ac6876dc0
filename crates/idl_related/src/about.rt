//! What is found in a unit: the second places of its fault, by the site at which it stands.

ghost use Rattle.std.specs.Prelude.{◌≡◌, ◌≤◌, ◌+◌, ◌-◌, ◌++◌, ◌∷◌, [], IfOk, OnOk, length, min};
ghost use Rattle.idl_related.specs.Told.{AreFew, TellsMore, most_told};

use crate::denoting::{NameContext, entities_by, entity_at};
use crate::known::KnownUnits;
use crate::names::{pragma_of, tree_of};
use crate::repeated::{UnitReplay, WalkStart};
use crate::second::{Reason, Second, TokenPosition};
use idl_base::{Bytes, Shared};
use idl_check::{Scratch, UnitWalk};
use idl_entity::{Entity, Path};
use idl_env::{DigestedKey, Env, Facts, OpenScopes, scopes_in};
use idl_fault::Code;
use idl_memo::Bank;
use idl_parts::{UnitPart, Use, sites};
use idl_scope::{ScopeAt, Standpoint, View};
use idl_tree::{Pragma, ScopedName, Tree};
use idl_unit::{Fault, UnitText};
use std::alloc::{AllocError, Global};

// The number of the token at which what a pragma speaks of begins.
const OPERANDS: usize = 2;

// Of what is found several times so many places are told.
const MOST_TOLD: usize = 3;

/// A unit with a fault, which is the next that isn't known.
#[derive(Clone, Copy)]
pub struct About<'a> {
    pub known: &'a KnownUnits<'a>,
    pub env: &'a Env,
    pub text: &'a UnitText,
    pub fault: Fault,
}

impl<'a> About<'a> {
    /// The second places of its fault.
    pub fn seconds(self, scratch: &mut Scratch) -> Result<Vec<Second>, AllocError>
        ensures { IfOk result (λ seconds. AreFew seconds.items) }
    {
        let none = OpenScopes::none();
        let scopes = scopes_in(self.env.answer(&DigestedKey::cursor()), &none);
        if let Some(tree) = tree_of(self.alloc(), self.text)? {
            return self.of_tokens(scratch, scopes, &tree);
        }
        match pragma_of(self.alloc(), self.text)? {
            Some(pragma) => self.of_pragma(scopes, &pragma),
            None => Ok(Vec::new(self.alloc())),
        }
    }

    /// Where memory comes from.
    pub fn alloc(self) -> Global {
        self.known.alloc
    }

    // Those of a unit of tokens.
    fn of_tokens(
        self,
        scratch: &mut Scratch,
        scopes: &OpenScopes,
        tree: &Tree,
    ) -> Result<Vec<Second>, AllocError>
        ensures { IfOk result (λ seconds. AreFew seconds.items) }
    {
        let sites = sites(self.alloc(), tree)?;
        let start = WalkStart {
            env: self.env,
            scopes,
            sites: sites.as_slice(),
        };
        self.of_sites(scratch, start)
    }

    // Those of a unit of these sites.
    fn of_sites(
        self,
        scratch: &mut Scratch,
        start: WalkStart<'_, '_>,
    ) -> Result<Vec<Second>, AllocError>
        ensures { IfOk result (λ seconds. AreFew seconds.items) }
    {
        let mut steps = UnitWalk::new(scratch, start.env, start.scopes);
        match steps_to(&mut steps, start.sites, self.fault.index)? {
            Some(site) => self.of_site(scratch, start, &steps, site),
            None => Ok(Vec::new(self.alloc())),
        }
    }

    // Those of this site, to which the walk has come.
    fn of_site(
        self,
        scratch: &mut Scratch,
        start: WalkStart<'_, '_>,
        steps: &UnitWalk<'_>,
        site: UnitPart<'_>,
    ) -> Result<Vec<Second>, AllocError>
        ensures { IfOk result (λ seconds. AreFew seconds.items) }
    {
        match (self.fault.code, site) {
            (Code::RepeatedLabel, _) => self.label_before(&mut UnitReplay::new(scratch, start)),
            (Code::DeclaredAfterUse, UnitPart::Declared(_way, name)) => {
                self.use_before(steps, name, &mut UnitReplay::new(scratch, start))
            }
            (Code::RepeatedBase, UnitPart::Used(_way, name)) => {
                self.naming_before(steps, name, &mut UnitReplay::new(scratch, start))
            }
            (_, UnitPart::Declared(_way, name)) => self.of_declared(steps, name),
            (_, UnitPart::Used(way, name)) => self.of_used(steps, way, name),
            _ => Ok(Vec::new(self.alloc())),
        }
    }

    // Those of a declared name.
    fn of_declared(self, steps: &UnitWalk<'_>, name: &Bytes) -> Result<Vec<Second>, AllocError>
        ensures { IfOk result (λ seconds. AreFew seconds.items) }
    {
        let Some(scope) = steps.cursor().innermost() else {
            return Ok(Vec::new(self.alloc()));
        };
        let view = View {
            env: self.env,
            own: steps.own(),
        };
        match self.fault.code {
            Code::NameOfScope => self.declared(&scope.path),
            Code::DeclaredAgain | Code::ReachedThroughBase => {
                let place = ScopeAt {
                    kind: scope.kind,
                    path: &scope.path,
                };
                self.declared_alike(view, place, name)
            }
            _ => self.declared_in(view, &scope.path, name),
        }
    }

    // The declarations of all that a scope has by a name.
    fn declared_alike(
        self,
        view: View<'_>,
        scope: ScopeAt<'_>,
        name: &Bytes,
    ) -> Result<Vec<Second>, AllocError>
        ensures { IfOk result (λ seconds. AreFew seconds.items) }
    {
        let folded = name.to_folded(self.alloc())?;
        let found = entities_by(view, scope, &folded)?;
        self.declared_all(found.as_slice())
    }

    // The declaration of what has a name in the scope at a path.
    fn declared_in(
        self,
        view: View<'_>,
        scope: &Path,
        name: &Bytes,
    ) -> Result<Vec<Second>, AllocError>
        ensures { IfOk result (λ seconds. AreFew seconds.items) }
    {
        let path = scope.child(self.alloc(), name)?;
        match entity_at(view, &path)? {
            Some(entity) => self.declared(entity.get().path()),
            None => Ok(Vec::new(self.alloc())),
        }
    }

    // Those of a used name.
    fn of_used(
        self,
        steps: &UnitWalk<'_>,
        way: Use,
        name: &ScopedName,
    ) -> Result<Vec<Second>, AllocError>
        ensures { IfOk result (λ seconds. AreFew seconds.items) }
    {
        let standing = NameContext {
            about: self,
            place: Standpoint {
                own: steps.own(),
                cursor: steps.cursor(),
            },
        };
        match (self.fault.code, way) {
            (Code::DeclaredAgain, Use::AsBase(_)) => {
                standing.operations_that_meet(steps.found(), name)
            }
            _ => standing.seconds(steps.at(), name),
        }
    }

    // Those of a pragma.
    fn of_pragma(self, scopes: &OpenScopes, pragma: &Pragma) -> Result<Vec<Second>, AllocError>
        ensures { IfOk result (λ seconds. AreFew seconds.items) }
    {
        let own = Facts::new(self.alloc());
        let standing = NameContext {
            about: self,
            place: Standpoint {
                own: &own,
                cursor: scopes,
            },
        };
        match pragma {
            Pragma::Id(name, _text) => standing.seconds(OPERANDS, name),
            Pragma::Version(name, _major, _minor) => standing.seconds(OPERANDS, name),
            Pragma::Prefix(_text) => Ok(Vec::new(self.alloc())),
        }
    }

    /// The declaration of what stands at a path.
    pub fn declared(self, path: &Path) -> Result<Vec<Second>, AllocError>
        ensures { IfOk result (λ seconds. length seconds.items ≤ 1) }
    {
        let mut seconds = Vec::new(self.alloc());
        self.push_declared(&mut seconds, path)?;
        Ok(seconds)
    }

    /// Those of the first of these entities, and behind the last one how many more there are.
    pub fn declared_all(self, entities: &[&Shared<Entity>]) -> Result<Vec<Second>, AllocError>
        ensures few { IfOk result (λ seconds. AreFew seconds.items) }
        ensures more { IfOk result (λ seconds.
            TellsMore (length entities.now - most_told) seconds.items) }
    {
        let (told, more) = entities.split_at(told_count(entities.len()));
        let mut seconds = Vec::new(self.alloc());
        'told: for entity in told {
            self.push_declared(&mut seconds, entity.get().path())?;
        }
        count_more(&mut seconds, more.len());
        Ok(seconds)
    }

    /// Puts in the declaration of what stands at a path, where it is known.
    pub fn push_declared(self, seconds: &mut Vec<Second>, path: &Path) -> Result<(), AllocError>
        ensures { OnOk result (length seconds.new.items ≤ length seconds.old.items + 1) }
    {
        let found = self.known.declared_spot(self.env, path, self.fault.index)?;
        match found {
            Some(spot) => push(seconds, Reason::Declared, spot),
            None => Ok(()),
        }
    }

    /// A token of the unit with this number, if there is one.
    pub fn at(
        self,
        reason: Reason,
        unit: usize,
        token: Option<usize>,
    ) -> Result<Vec<Second>, AllocError>
        ensures { IfOk result (λ seconds. AreFew seconds.items) }
    {
        let mut seconds = Vec::new(self.alloc());
        if let Some(token) = token {
            push(&mut seconds, reason, TokenPosition { unit, token })?;
        }
        Ok(seconds)
    }

    /// A token of the unit itself, if there is one.
    pub fn here(self, reason: Reason, token: Option<usize>) -> Result<Vec<Second>, AllocError>
        ensures { IfOk result (λ seconds. AreFew seconds.items) }
    {
        self.at(reason, self.known.number(), token)
    }
}

/// Puts in a second place.
pub fn push(
    seconds: &mut Vec<Second>,
    reason: Reason,
    spot: TokenPosition,
) -> Result<(), AllocError>
    ensures { OnOk result (seconds.new.items
        ≡ seconds.old.items ++ record { reason = reason; spot = spot; more = 0 } ∷ []) }
{
    seconds.push(Second {
        reason,
        spot,
        more: 0,
    })?;
    Ok(())
}

/// How many of so many that are found are told.
pub fn told_count(found: usize) -> usize
    ensures { result ≡ min found most_told }
{
    found.min(MOST_TOLD)
}

// Behind the last of these places so many more were found, of which none is told.
fn count_more(seconds: &mut Vec<Second>, more: usize)
    ensures more { TellsMore more seconds.new.items }
    ensures count { length seconds.new.items ≡ length seconds.old.items }
{
    if let Some(last) = seconds.last_mut() {
        last.more = more;
    }
}

// The site with the token that has this number, up to which the walk goes.
fn steps_to<'t>(
    steps: &mut UnitWalk<'_>,
    sites: &[UnitPart<'t>],
    index: usize,
) -> Result<Option<UnitPart<'t>>, AllocError> {
    for site in sites {
        if steps.is_in(index, site) {
            return Ok(Some(*site));
        }
        steps.pass(*site)?;
    }
    Ok(None)
}
