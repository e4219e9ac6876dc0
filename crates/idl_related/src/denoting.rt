//! The second places of a used name.

ghost use Rattle.std.specs.Prelude.{IfOk};
ghost use Rattle.idl_related.specs.Told.{AreFew};

use crate::about::About;
use crate::names::part_number;
use crate::second::{Reason, Second, TokenPosition};
use idl_base::{Bytes, Seq, Shared};
use idl_entity::{Entity, Kind, Path};
use idl_env::OpenScopes;
use idl_fault::Code;
use idl_map::Table;
use idl_memo::Journal;
use idl_scope::{Found, NameCode, NameFault, ScopeAt, Standpoint, View, resolve};
use idl_tree::ScopedName;
use std::alloc::{AllocError, Global};

/// Where the name with the fault of a unit stands.
#[derive(Clone, Copy)]
pub struct NameContext<'a> {
    pub about: About<'a>,
    pub place: Standpoint<'a>,
}

/// A scope in which a name is looked for.
pub struct Searched {
    pub kind: Kind,
    pub path: Path,
}

impl Drop for Searched {
    fn drop(self) {
        let Searched {
            kind: _kind,
            path: _path,
        } = self;
    }
}

impl<'a> NameContext<'a> {
    /// Those of a name that begins at this token, by what it denotes or why it denotes nothing. What is found tells at which part it
    /// denotes nothing, so that bases aren't walked for that once more.
    pub fn seconds(self, at: usize, name: &ScopedName) -> Result<Vec<Second>, AllocError>
        ensures { IfOk result (λ seconds. AreFew seconds.items) }
    {
        let part = part_number(at, name, self.about.fault.index);
        match self.about.fault.code {
            Code::AmbiguousName | Code::OtherCase => {
                let found = self.found_at(name, part)?;
                self.about.declared_all(found.as_slice())
            }
            Code::NameNotFound => self.of_unknown(name, part),
            _ => self.of_denoted(name),
        }
    }

    // Those of a name that denotes something, or whose part is no scope.
    fn of_denoted(self, name: &ScopedName) -> Result<Vec<Second>, AllocError>
        ensures { IfOk result (λ seconds. AreFew seconds.items) }
    {
        match self.resolved(name)? {
            Ok(found) => self.of_found(found.entity.get().path()),
            Err((NameCode::NoScope, part)) => self.of_part(name, part),
            Err(_) => Ok(Vec::new(self.about.alloc())),
        }
    }

    /// What a name denotes, or why it denotes nothing, and from which of its parts on.
    pub fn resolved(
        self,
        name: &ScopedName,
    ) -> Result<Result<Found, (NameCode, usize)>, AllocError> {
        match resolve(self.about.env, &mut Journal::told(), self.place, name) {
            Ok(found) => Ok(Ok(found)),
            Err(NameFault::Memory) => Err(AllocError),
            Err(NameFault::At(code, part)) => Ok(Err((code, part))),
        }
    }

    // Those of a name that denotes what stands at a path.
    fn of_found(self, path: &Path) -> Result<Vec<Second>, AllocError>
        ensures { IfOk result (λ seconds. AreFew seconds.items) }
    {
        match self.about.fault.code {
            Code::RepeatedId | Code::RepeatedVersion | Code::RepeatedTypeprefix => {
                self.about.given(path)
            }
            _ => self.about.declared(path),
        }
    }

    // The declaration of what the part of a name with this number denotes.
    fn of_part(self, name: &ScopedName, part: usize) -> Result<Vec<Second>, AllocError>
        ensures { IfOk result (λ seconds. AreFew seconds.items) }
    {
        match self.entity_of(name, part)? {
            Some(entity) => self.about.declared(entity.get().path()),
            None => Ok(Vec::new(self.about.alloc())),
        }
    }

    // What the part of a name with this number denotes.
    fn entity_of(
        self,
        name: &ScopedName,
        part: usize,
    ) -> Result<Option<Shared<Entity>>, AllocError> {
        let head = self.head_of(name, part)?;
        match self.resolved(&head)? {
            Ok(found) => Ok(Some(found.entity)),
            Err(_) => Ok(None),
        }
    }

    // The name up to that part.
    fn head_of(self, name: &ScopedName, part: usize) -> Result<ScopedName, AllocError> {
        let first = name.first.clone()?;
        let rest = first_of(self.about.alloc(), name.rest.as_slice(), part)?;
        Ok(ScopedName {
            is_global: name.is_global,
            first,
            rest: Seq::from_vec(rest),
        })
    }

    // The scopes in which the part of a name with this number is looked for, in order.
    fn searched(self, name: &ScopedName, part: usize) -> Result<Vec<Searched>, AllocError> {
        let alloc = self.about.alloc();
        match part.checked_sub(1) {
            Some(before) => self.denoted(name, before),
            None if name.is_global => one_scope(alloc, Kind::Module, &Path::global()),
            None => open_scopes(alloc, self.place.cursor),
        }
    }

    // The scope that the part of a name with this number denotes.
    fn denoted(self, name: &ScopedName, part: usize) -> Result<Vec<Searched>, AllocError> {
        let alloc = self.about.alloc();
        match self.entity_of(name, part)? {
            Some(entity) => one_scope(alloc, entity.get().kind(), entity.get().path()),
            None => Ok(Vec::new(alloc)),
        }
    }

    // All that the scope has that decides the part of a name with this number.
    fn found_at(
        self,
        name: &ScopedName,
        part: usize,
    ) -> Result<Vec<&'a Shared<Entity>>, AllocError> {
        let alloc = self.about.alloc();
        let Some(spelled) = part_of(name, part) else {
            return Ok(Vec::new(alloc));
        };
        let folded = spelled.to_folded(alloc)?;
        let scopes = self.searched(name, part)?;
        self.first_named(scopes.as_slice(), &folded)
    }

    // All that the first of these scopes has by a folded name that has anything.
    fn first_named(
        self,
        scopes: &[Searched],
        folded: &Bytes,
    ) -> Result<Vec<&'a Shared<Entity>>, AllocError> {
        for scope in scopes {
            let place = ScopeAt {
                kind: scope.kind,
                path: &scope.path,
            };
            let found = entities_by(self.view(), place, folded)?;
            if !found.is_empty() {
                return Ok(found);
            }
        }
        Ok(Vec::new(self.about.alloc()))
    }

    /// The environment under what the tokens before the name add.
    pub fn view(self) -> View<'a> {
        View {
            env: self.about.env,
            own: self.place.own,
        }
    }

    // Those of a name of which the part with this number isn't declared: where it would have been, or names that are near.
    fn of_unknown(self, name: &ScopedName, part: usize) -> Result<Vec<Second>, AllocError>
        ensures { IfOk result (λ seconds. AreFew seconds.items) }
    {
        let Some(spelled) = part_of(name, part) else {
            return Ok(Vec::new(self.about.alloc()));
        };
        let scopes = self.searched(name, part)?;
        match self.faulty_spot(scopes.as_slice(), spelled)? {
            Some(spot) => self.about.at(Reason::Faulty, spot.unit, Some(spot.token)),
            None => self.near(spelled, scopes.as_slice()),
        }
    }

    // Where a faulty unit would have declared a name in the first of these scopes in which one would have.
    fn faulty_spot(
        self,
        scopes: &[Searched],
        name: &Bytes,
    ) -> Result<Option<TokenPosition>, AllocError> {
        for scope in scopes {
            let path = scope.path.child(self.about.alloc(), name)?;
            if let Some(spot) = self.about.known.faulty_spot(&path) {
                return Ok(Some(spot));
            }
        }
        Ok(None)
    }

    /// The declarations of the first operations or attributes that meet, where a base with this name stands beside those at these paths.
    pub fn operations_that_meet(
        self,
        bases: &[Path],
        name: &ScopedName,
    ) -> Result<Vec<Second>, AllocError>
        ensures { IfOk result (λ seconds. AreFew seconds.items) }
    {
        match self.resolved(name)? {
            Ok(found) => self.first_that_meet(bases, found.entity.get()),
            Err(_) => Ok(Vec::new(self.about.alloc())),
        }
    }

    // The same, where the base is this one.
    fn first_that_meet(self, bases: &[Path], base: &Entity) -> Result<Vec<Second>, AllocError>
        ensures { IfOk result (λ seconds. AreFew seconds.items) }
    {
        let before = self.operations_of(bases)?;
        let paths = operations_in(self.about.alloc(), base)?;
        self.declared_twice(&before, paths.as_slice())
    }

    // The declarations of the first of these operations or attributes that meets one of those before.
    fn declared_twice(
        self,
        before: &Table<Bytes, Path>,
        paths: &[Path],
    ) -> Result<Vec<Second>, AllocError>
        ensures { IfOk result (λ seconds. AreFew seconds.items) }
    {
        let alloc = self.about.alloc();
        for path in paths {
            match before.get(&path.folded(alloc)?) {
                Some(other) if *other != *path => return self.declared_both(other, path),
                _ => {}
            }
        }
        Ok(Vec::new(alloc))
    }

    // The declarations of what stands at two paths.
    fn declared_both(self, one: &Path, other: &Path) -> Result<Vec<Second>, AllocError>
        ensures { IfOk result (λ seconds. AreFew seconds.items) }
    {
        let mut seconds = self.about.declared(one)?;
        self.about.push_declared(&mut seconds, other)?;
        Ok(seconds)
    }

    // The operations and attributes of these bases, by their folded names.
    fn operations_of(self, bases: &[Path]) -> Result<Table<Bytes, Path>, AllocError> {
        let mut operations = Table::new(self.about.alloc());
        for base in bases {
            self.add_operations(&mut operations, base)?;
        }
        Ok(operations)
    }

    // Puts in those of the interface at a path.
    fn add_operations(
        self,
        operations: &mut Table<Bytes, Path>,
        base: &Path,
    ) -> Result<(), AllocError> {
        let Some(entity) = entity_at(self.view(), base)? else {
            return Ok(());
        };
        let alloc = self.about.alloc();
        let paths = operations_in(alloc, entity.get())?;
        for path in paths.as_slice() {
            operations.insert(path.folded(alloc)?, path.clone()?)?;
        }
        Ok(())
    }
}

/// What stands at a path.
pub fn entity_at<'a>(
    view: View<'a>,
    path: &Path,
) -> Result<Option<&'a Shared<Entity>>, AllocError> {
    view.standing_at(&mut Journal::told(), path)
}

/// All that a scope has by a folded name.
pub fn entities_by<'a>(
    view: View<'a>,
    scope: ScopeAt<'_>,
    folded: &Bytes,
) -> Result<Vec<&'a Shared<Entity>>, AllocError> {
    view.has(&mut Journal::told(), scope, folded)
}

// The operations and attributes of an interface.
fn operations_in(alloc: Global, interface: &Entity) -> Result<Vec<Path>, AllocError> {
    let paths = interface.operations()?;
    paths.to_vec(alloc)
}

// The first of these parts of a name, so many.
fn first_of(alloc: Global, parts: &[Bytes], count: usize) -> Result<Vec<Bytes>, AllocError> {
    let mut first = Vec::new(alloc);
    for part in parts.iter().take(count) {
        first.push(part.clone()?)?;
    }
    Ok(first)
}

// The part of a name with this number.
fn part_of(name: &ScopedName, part: usize) -> Option<&Bytes> {
    match part.checked_sub(1) {
        Some(further) => name.rest.as_slice().get(further),
        None => Some(&name.first),
    }
}

// A scope by itself.
fn one_scope(alloc: Global, kind: Kind, path: &Path) -> Result<Vec<Searched>, AllocError> {
    let mut scopes = Vec::new(alloc);
    push_scope(&mut scopes, kind, path)?;
    Ok(scopes)
}

// Open scopes, the innermost first.
fn open_scopes(alloc: Global, open: &OpenScopes) -> Result<Vec<Searched>, AllocError> {
    let mut scopes = Vec::new(alloc);
    push_scopes(&mut scopes, open)?;
    Ok(scopes)
}

// Puts in a scope.
fn push_scope(scopes: &mut Vec<Searched>, kind: Kind, path: &Path) -> Result<(), AllocError> {
    let path = path.clone()?;
    scopes.push(Searched { kind, path })?;
    Ok(())
}

// Puts in open scopes, the innermost first.
fn push_scopes(scopes: &mut Vec<Searched>, open: &OpenScopes) -> Result<(), AllocError> {
    let mut rest = open;
    for _scope in 0..open.len() {
        let Some((scope, outer)) = rest.split_first() else {
            return Ok(());
        };
        push_scope(scopes, scope.kind, &scope.path)?;
        rest = outer;
    }
    Ok(())
}
