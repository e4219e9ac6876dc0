//! Where the names of a root are declared and used.

ghost use Rattle.std.specs.Prelude.{◌≡◌, ◌++◌, ◌-◌, IfOk, OnOk, length, map, slice_get};
ghost use Rattle.std.specs.Option.{option_to_list};
ghost use Rattle.idl_finding.specs.Findings.{site_of, tokens_of};
ghost use Rattle.idl_root.specs.NamePlaces.{AreNamesOf, AreNumbered, declared_by, declared_in, declared_with, last_in, numbers_at, places_at, sited, sited_in, used_by, used_in, used_with};
ghost use Rattle.idl_root.specs.Named.{named_as};

use crate::compiling::naming::{NamedUnit, ends_of};
use idl_base::{Bytes, Seq};
use idl_entity::Path;
use idl_fault::Place;
use idl_finding::{LineNumbers, Spelled};
use idl_map::{Map, SharedList};
use idl_root_blocks::idl_check::{NameRole, NamedSite};
use idl_unit::UnitText;
use std::alloc::{AllocError, Global};

/// A token, and where it stands: its place, and its number among the tokens of its line that stand together, from 0.
pub struct SitedToken {
    pub place: Place,
    pub number: Option<usize>,
    pub text: Bytes,
}

impl Drop for SitedToken {
    fn drop(self) {
        let SitedToken {
            place: _place,
            number: _number,
            text: _text,
        } = self;
    }
}

/// Where a name is declared: the token that is the name, and from which token through which one what is declared there goes. That are
/// those of its unit, and of what a unit opens through the closing, if it is closed.
pub struct DeclaredPlace {
    pub name: SitedToken,
    pub first: SitedToken,
    pub last: SitedToken,
}

impl Drop for DeclaredPlace {
    fn drop(self) {
        let DeclaredPlace {
            name: _name,
            first: _first,
            last: _last,
        } = self;
    }
}

/// A name that is used: its last token, and the path of what it denotes.
pub struct UsedName {
    pub name: SitedToken,
    pub path: Path,
}

impl Drop for UsedName {
    fn drop(self) {
        let UsedName {
            name: _name,
            path: _path,
        } = self;
    }
}

/// A name that is declared: its path, and where.
pub struct PlacedName {
    pub path: Path,
    pub place: DeclaredPlace,
}

impl Drop for PlacedName {
    fn drop(self) {
        let PlacedName {
            path: _path,
            place: _place,
        } = self;
    }
}

/// The names of a root: those that are declared in order, the numbers of these by their paths, and those that are used.
pub struct RootNames {
    pub declared: Vec<PlacedName>,
    pub numbers: Map<Path, SharedList<usize>>,
    pub used: Vec<UsedName>,
}

impl Drop for RootNames {
    fn drop(self) {
        let RootNames {
            declared: _declared,
            numbers: _numbers,
            used: _used,
        } = self;
    }
}

impl RootNames {
    /// Those of these units.
    pub fn of(
        alloc: Global,
        events: &LineNumbers<'_>,
        units: &[NamedUnit<'_>],
    ) -> Result<RootNames, AllocError>
        ensures { IfOk result (λ names. AreNamesOf names events.now (map named_as units.now)) }
    {
        let ends = ends_of(alloc, units)?;
        let mut names = RootNames {
            declared: Vec::with_capacity(alloc, units.len())?,
            numbers: Map::new(alloc)?,
            used: Vec::with_capacity(alloc, units.len())?,
        };
        let ends = ends.as_slice();
        for index in 0..units.len() {
            let end = ends[index];
            prove!(end < units.len());
            names.add_unit(events, &units[index], &units[end])?;
        }
        Ok(names)
    }

    // Puts in the names of a unit: what it declares ends in the second one.
    fn add_unit(
        &mut self,
        events: &LineNumbers<'_>,
        unit: &NamedUnit<'_>,
        end: &NamedUnit<'_>,
    ) -> Result<(), AllocError>
        requires { AreNumbered self.old.declared.items self.old.numbers }
        ensures declared { OnOk result
            (self.new.declared.items
            ≡ self.old.declared.items ++ declared_in events.now (named_as unit.now) (named_as end.now)) }
        ensures numbers { OnOk result (AreNumbered self.new.declared.items self.new.numbers) }
        ensures used { OnOk result
            (self.new.used.items ≡ self.old.used.items ++ used_in events.now (named_as unit.now)) }
    {
        for name in &unit.names {
            self.add_name(events, unit, end, name)?;
        }
        Ok(())
    }

    // Puts in one of them.
    fn add_name(
        &mut self,
        events: &LineNumbers<'_>,
        unit: &NamedUnit<'_>,
        end: &NamedUnit<'_>,
        name: &NamedSite,
    ) -> Result<(), AllocError>
        requires { AreNumbered self.old.declared.items self.old.numbers }
        ensures declared { OnOk result
            (self.new.declared.items
            ≡ self.old.declared.items
            ++ declared_by events.now (named_as unit.now) (named_as end.now) name.now) }
        ensures numbers { OnOk result (AreNumbered self.new.declared.items self.new.numbers) }
        ensures used { OnOk result
            (self.new.used.items
            ≡ self.old.used.items ++ used_by events.now (named_as unit.now) name.now) }
    {
        match name.role {
            NameRole::Declared => {
                let declared = declared_by(events, unit, end, name)?;
                self.add_declared(events.allocator(), declared)
            }
            NameRole::Used => push_used(&mut self.used, events, unit, name),
        }
    }

    // Puts in a declared name, if there is one.
    fn add_declared(&mut self, alloc: Global, name: Option<PlacedName>) -> Result<(), AllocError>
        requires { AreNumbered self.old.declared.items self.old.numbers }
        ensures declared { OnOk result
            (self.new.declared.items ≡ self.old.declared.items ++ option_to_list name) }
        ensures numbers { OnOk result (AreNumbered self.new.declared.items self.new.numbers) }
        ensures used { self.new.used ≡ self.old.used }
    {
        let Some(name) = name else {
            return Ok(());
        };
        let mut numbers = numbers_at(&self.numbers, &name.path)?;
        numbers.push(alloc, self.declared.len())?;
        self.numbers.insert(name.path.clone()?, numbers)?;
        self.declared.push(name)?;
        Ok(())
    }

    /// Those that are declared, and those that are used.
    pub fn into_lists(self) -> (Vec<PlacedName>, Vec<UsedName>)
        ensures declared { result.0 ≡ self.declared }
        ensures used { result.1 ≡ self.used }
    {
        let RootNames {
            declared,
            numbers: _numbers,
            used,
        } = self;
        (declared, used)
    }

    /// Where the name at a path is declared, in order.
    pub fn places(&self, alloc: Global, path: &Path) -> Result<Seq<DeclaredPlace>, AllocError>
        requires { AreNumbered self.now.declared.items self.now.numbers }
        ensures { IfOk result (λ places. places ≡ places_at path.now self.now.declared.items) }
    {
        let numbers = numbers_at(&self.numbers, path)?.to_vec(alloc)?;
        let mut places = Vec::with_capacity(alloc, numbers.len())?;
        let declared = self.declared.as_slice();
        for number in &numbers {
            let number = *number;
            prove!(number < declared.len());
            places.push(declared[number].place.copied()?)?;
        }
        Ok(Seq::from_vec(places))
    }
}

// The numbers that a table has for a path.
fn numbers_at(
    table: &Map<Path, SharedList<usize>>,
    path: &Path,
) -> Result<SharedList<usize>, AllocError>
    ensures { IfOk result (λ numbers. numbers ≡ numbers_at table.now path.now) }
{
    match table.get(path) {
        Some(numbers) => numbers.clone(),
        None => Ok(SharedList::new()),
    }
}

impl DeclaredPlace {
    // The same again.
    fn copied(&self) -> Result<DeclaredPlace, AllocError>
        ensures { IfOk result (λ copy. copy ≡ self.now) }
    {
        Ok(DeclaredPlace {
            name: self.name.copied()?,
            first: self.first.copied()?,
            last: self.last.copied()?,
        })
    }
}

impl SitedToken {
    // The same again.
    fn copied(&self) -> Result<SitedToken, AllocError>
        ensures { IfOk result (λ copy. copy ≡ self.now) }
    {
        Ok(SitedToken {
            place: self.place.clone()?,
            number: self.number,
            text: self.text.clone()?,
        })
    }
}

// A name that a unit declares, where what it declares ends in the second unit.
fn declared_by(
    events: &LineNumbers<'_>,
    unit: &NamedUnit<'_>,
    end: &NamedUnit<'_>,
    site: &NamedSite,
) -> Result<Option<PlacedName>, AllocError>
    ensures { IfOk result (λ name. option_to_list name
        ≡ declared_with site.now.path (sited_in events.now (named_as unit.now) site.now.index)
        (sited_in events.now (named_as unit.now) 0) (last_in events.now (named_as end.now))) }
{
    let name = sited(unit.unit, events, site.index)?;
    let first = sited(unit.unit, events, 0)?;
    let last = sited(end.unit, events, last_index(end.unit.text))?;
    let (Some(name), Some(first), Some(last)) = (name, first, last) else {
        return Ok(None);
    };
    Ok(Some(PlacedName {
        path: site.path.clone()?,
        place: DeclaredPlace { name, first, last },
    }))
}

// Puts in a name that a unit uses.
fn push_used(
    used: &mut Vec<UsedName>,
    events: &LineNumbers<'_>,
    unit: &NamedUnit<'_>,
    site: &NamedSite,
) -> Result<(), AllocError>
    ensures { OnOk result
        (used.new.items
        ≡ used.old.items
        ++ used_with site.now.path (sited_in events.now (named_as unit.now) site.now.index)) }
{
    if let Some(name) = sited(unit.unit, events, site.index)? {
        let path = site.path.clone()?;
        used.push(UsedName { name, path })?;
    }
    Ok(())
}

// The token of a unit with this number, and where it stands.
fn sited(
    unit: Spelled<'_>,
    events: &LineNumbers<'_>,
    index: usize,
) -> Result<Option<SitedToken>, AllocError>
    ensures { IfOk result (λ token.
        token
        ≡ sited events.now (site_of unit.entry.text.now unit.entry.sites.now index)
        (slice_get (tokens_of unit.entry.text.now) index)) }
{
    let site = unit.site(index)?;
    let (Some(site), Some(token)) = (site, unit.token(index)) else {
        return Ok(None);
    };
    Ok(Some(SitedToken {
        place: site.place()?,
        number: events.number(site.event),
        text: Bytes::from_slice(events.allocator(), token)?,
    }))
}

// The number of the last token; 0 where there is none.
fn last_index(text: &UnitText) -> usize
    ensures { result ≡ length (tokens_of text.now) - 1 }
{
    let count = match text {
        UnitText::Tokens(run) => run.as_slice().len(),
        UnitText::Pragma(tokens, _inside) => tokens.as_slice().len(),
    };
    count.saturating_sub(1)
}
