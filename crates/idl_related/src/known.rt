//! What is known of a root up to one of its units.

ghost use Rattle.std.specs.Prelude.{◌≡◌, IfOk, nat_lt};
ghost use Rattle.idl_related.specs.Told.{most_unknown};

use crate::names::{NameDeclaration, declared_names};
use crate::second::TokenPosition;
use idl_entity::Path;
use idl_env::{Addition, DigestedKey, Env, Facts, OpenScopes, scopes_in};
use idl_map::{Map, Table};
use idl_memo::Bank;
use idl_unit::{Unit, UnitText};
use std::alloc::{AllocError, Global};

// A unit that adds more is gone through at once for where its names stand; of another that is done for each that is looked for.
const FEW: usize = 32;

// Near names are looked for, of so many names of a root that aren't declared.
const MOST_UNKNOWN: usize = 100;

/// What is looked at first of a declared name: its letters, and which name was declared before it in its scope.
#[derive(Clone, Copy)]
pub struct NameOutline {
    pub letters: u64,
    pub before: Option<usize>,
}

/// What is known of a root up to one of its units, the first that isn't known.
pub struct KnownUnits<'a> {
    pub alloc: Global,
    pub units: &'a [Unit],
    /// The paths of the innermost scopes around the units before it.
    around: Vec<Path>,
    /// The names that are declared, each with the unit that declares it first, and its token there, where that is known.
    declared: Table<Path, (usize, Option<usize>)>,
    /// The last of those in each scope.
    last_in: Map<Path, usize>,
    /// Of each of them, by its number, what is looked at first where near names are looked for.
    outlines: Vec<NameOutline>,
    /// How many names weren't declared, for which near ones were looked for.
    unknown: usize,
    /// The names that faulty units would have declared.
    faulty: Table<Path, (usize, usize)>,
    /// The units that first introduce names into scopes, if anything asks for them.
    uses: Option<Table<DigestedKey, usize>>,
}

impl<'a> Drop for KnownUnits<'a> {
    fn drop(self) {
        let KnownUnits {
            alloc: _alloc,
            units: _units,
            around: _around,
            declared: _declared,
            last_in: _last_in,
            outlines: _outlines,
            unknown: _unknown,
            faulty: _faulty,
            uses: _uses,
        } = self;
    }
}

impl<'a> KnownUnits<'a> {
    /// Before the first of these units, where it is asked for uses or not.
    pub fn new(
        alloc: Global,
        units: &'a [Unit],
        asks_uses: bool,
    ) -> Result<KnownUnits<'a>, AllocError>
        ensures { IfOk result (λ known. known.units.now ≡ units.now) }
    {
        let uses = if asks_uses {
            Some(Table::new(alloc))
        } else {
            None
        };
        let last_in = Map::new(alloc)?;
        Ok(KnownUnits {
            alloc,
            units,
            around: Vec::new(alloc),
            declared: Table::new(alloc),
            last_in,
            outlines: Vec::new(alloc),
            unknown: 0,
            faulty: Table::new(alloc),
            uses,
        })
    }

    /// The number of the first unit that isn't known.
    pub fn number(&self) -> usize {
        self.around.len()
    }

    /// Goes on behind a unit that adds this, over this environment.
    pub fn pass(&mut self, env: &Env, writes: &Facts) -> Result<(), AllocError>
        ensures { self.new.units ≡ self.old.units }
    {
        let number = self.number();
        for index in 0..writes.len() {
            if let Some(addition) = writes.addition(index) {
                self.take(number, addition)?;
            }
        }
        let path = path_around(env)?;
        self.find_tokens(writes.len(), &path)?;
        self.around.push(path)?;
        Ok(())
    }

    // Finds the tokens of the names that the next unit declares first, in the scope at a path, if it adds more than few facts.
    fn find_tokens(&mut self, added: usize, around: &Path) -> Result<(), AllocError>
        ensures { self.new.units ≡ self.old.units }
    {
        if added <= FEW {
            return Ok(());
        }
        let unit = self.number();
        let Some(text) = self.text(unit) else {
            return Ok(());
        };
        let names = declared_names(self.alloc, text, around)?;
        self.put_tokens(unit, names.as_slice())
    }

    // Puts in the tokens of those of these names that the unit with this number declares first.
    fn put_tokens(&mut self, unit: usize, names: &[NameDeclaration]) -> Result<(), AllocError>
        ensures { self.new.units ≡ self.old.units }
    {
        for name in names {
            if self.declared.get(&name.path) == Some(&(unit, None)) {
                let path = name.path.clone()?;
                self.declared.insert(path, (unit, Some(name.token)))?;
            }
        }
        Ok(())
    }

    /// Puts in what the next unit would have declared, which is faulty.
    pub fn pass_faulty(&mut self, env: &Env, text: &UnitText) -> Result<(), AllocError>
        ensures { self.new.units ≡ self.old.units }
    {
        let around = path_around(env)?;
        let names = declared_names(self.alloc, text, &around)?;
        self.put_faulty(names.as_slice())
    }

    // Puts in these names, which the next unit would have declared.
    fn put_faulty(&mut self, names: &[NameDeclaration]) -> Result<(), AllocError>
        ensures { self.new.units ≡ self.old.units }
    {
        let number = self.number();
        for name in names {
            if !self.faulty.contains(&name.path) {
                let path = name.path.clone()?;
                self.faulty.insert(path, (number, name.token))?;
            }
        }
        Ok(())
    }

    // Takes up what the unit with this number adds.
    fn take(&mut self, number: usize, addition: &Addition) -> Result<(), AllocError>
        ensures { self.new.units ≡ self.old.units }
    {
        match addition {
            Addition::Declares(entity) => self.declare(number, entity.get().path()),
            Addition::Uses(_, _, _) | Addition::UsesFurther(_, _, _) => {
                self.introduce(number, addition)
            }
            _ => Ok(()),
        }
    }

    // A name that the unit with this number declares.
    fn declare(&mut self, number: usize, path: &Path) -> Result<(), AllocError>
        ensures { self.new.units ≡ self.old.units }
    {
        if self.declared.contains(path) {
            return Ok(());
        }
        let place = self.declared.len();
        let scope = path.scope()?;
        self.outlines.push(NameOutline {
            letters: letters_of(path.name()),
            before: self.last_in.get(&scope).copied(),
        })?;
        self.last_in.insert(scope, place)?;
        self.declared.insert(path.clone()?, (number, None))
    }

    // A name that the unit with this number introduces.
    fn introduce(&mut self, number: usize, addition: &Addition) -> Result<(), AllocError>
        ensures { self.new.units ≡ self.old.units }
    {
        let Some(uses) = &mut self.uses else {
            return Ok(());
        };
        let key = addition.key(self.alloc)?;
        if uses.contains(&key) {
            return Ok(());
        }
        uses.insert(key, number)
    }

    /// The unit that first introduces a name into a scope.
    pub fn first_use(&self, key: &DigestedKey) -> Option<usize> {
        let uses = self.uses.as_ref()?;
        uses.get(key).copied()
    }

    /// Where a faulty unit would have declared what stands at a path.
    pub fn faulty_spot(&self, path: &Path) -> Option<TokenPosition> {
        let (unit, token) = self.faulty.get(path)?;
        Some(TokenPosition {
            unit: *unit,
            token: *token,
        })
    }

    /// Where what stands at a path is declared first: by a unit that is known, or else by the next one before this token.
    pub fn declared_spot(
        &self,
        env: &Env,
        path: &Path,
        token: usize,
    ) -> Result<Option<TokenPosition>, AllocError> {
        if let Some((unit, token)) = self.declared.get(path) {
            return self.spot_of(*unit, *token, path);
        }
        let number = self.number();
        let around = path_around(env)?;
        let found = self.spot_in(number, &around, path)?;
        match found {
            Some(spot) if spot.token < token => Ok(Some(spot)),
            _ => Ok(None),
        }
    }

    // Where a unit that is known declares what stands at a path, if not at this token.
    fn spot_of(
        &self,
        unit: usize,
        token: Option<usize>,
        path: &Path,
    ) -> Result<Option<TokenPosition>, AllocError> {
        match (token, self.around.get(unit)) {
            (Some(token), _) => Ok(Some(TokenPosition { unit, token })),
            (None, Some(around)) => self.spot_in(unit, around, path),
            (None, None) => Ok(None),
        }
    }

    // Where a unit in the scope at a path declares what stands at another.
    fn spot_in(
        &self,
        unit: usize,
        around: &Path,
        path: &Path,
    ) -> Result<Option<TokenPosition>, AllocError> {
        let Some(Unit::Spelled(text, _sites)) = self.units.get(unit) else {
            return Ok(None);
        };
        let names = declared_names(self.alloc, text, around)?;
        for name in names.as_slice() {
            if name.path == *path {
                let token = name.token;
                return Ok(Some(TokenPosition { unit, token }));
            }
        }
        Ok(None)
    }

    /// How many names are declared.
    pub fn declared_count(&self) -> usize {
        self.declared.len()
    }

    /// The number of the name that was declared last in a scope, if any is declared there.
    pub fn last_in(&self, scope: &Path) -> Option<usize> {
        self.last_in.get(scope).copied()
    }

    /// The path of the declared name with this number.
    pub fn path(&self, number: usize) -> Option<&Path> {
        let (path, _unit) = self.declared.get_index(number)?;
        Some(path)
    }

    /// What is looked at first of it.
    pub fn outline(&self, number: usize) -> Option<NameOutline> {
        self.outlines.get(number).copied()
    }

    /// Whether near names are looked for, of one name more that isn't declared.
    pub fn asks_near(&self) -> bool
        ensures { result ≡ nat_lt self.now.unknown most_unknown }
    {
        self.unknown < MOST_UNKNOWN
    }

    /// Near names were looked for.
    pub fn count_unknown(&mut self)
        ensures { self.new.units ≡ self.old.units }
    {
        self.unknown = self.unknown.saturating_add(1);
    }

    /// The text of the unit with this number.
    pub fn text(&self, unit: usize) -> Option<&'a UnitText> {
        match self.units.get(unit) {
            Some(Unit::Spelled(text, _sites)) => Some(text),
            _ => None,
        }
    }
}

// The path of the innermost scope that is open.
fn path_around(env: &Env) -> Result<Path, AllocError> {
    let none = OpenScopes::none();
    let scopes = scopes_in(env.answer(&DigestedKey::cursor()), &none);
    match scopes.innermost() {
        Some(scope) => scope.path.clone(),
        None => Ok(Path::global()),
    }
}

/// The bytes of a name as bits of a word, of which several bytes may share one: a name that is so many edits away has at most so many
/// that this one hasn't, and this one at most so many that it hasn't.
pub fn letters_of(name: &[u8]) -> u64 {
    let mut letters = 0;
    for byte in name {
        letters |= 1 << (*byte % 64);
    }
    letters
}
