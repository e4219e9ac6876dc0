//! The names that a unit declares, by its tree alone.

ghost use Rattle.std.specs.Prelude.{◌≡◌, ℕ};
ghost use Rattle.idl_tree.specs.NameParts.{part_at};

use idl_base::Bytes;
use idl_entity::Path;
use idl_parse::{SyntaxFault, parse_pragma, parse_tokens};
use idl_parts::{UnitPart, sites};
use idl_tree::{Pragma, ScopedName, Tree};
use idl_unit::UnitText;
use std::alloc::{AllocError, Global};

/// A declared name of a unit: its path, and the number of its token.
pub struct NameDeclaration {
    pub path: Path,
    pub token: usize,
}

impl Drop for NameDeclaration {
    fn drop(self) {
        let NameDeclaration {
            path: _path,
            token: _token,
        } = self;
    }
}

/// The names that a unit declares in the scope at a path, whether it is faulty or not; none where it has no tree.
pub fn declared_names(
    alloc: Global,
    text: &UnitText,
    around: &Path,
) -> Result<Vec<NameDeclaration>, AllocError> {
    match tree_of(alloc, text)? {
        Some(tree) => names_in(alloc, &tree, around),
        None => Ok(Vec::new(alloc)),
    }
}

/// The tree of a unit of tokens, if it has one.
pub fn tree_of(alloc: Global, text: &UnitText) -> Result<Option<Tree>, AllocError> {
    let UnitText::Tokens(tokens) = text else {
        return Ok(None);
    };
    match parse_tokens(alloc, tokens.as_slice()) {
        Ok(tree) => Ok(Some(tree)),
        Err(SyntaxFault::Memory) => Err(AllocError),
        Err(SyntaxFault::Rule(_) | SyntaxFault::NoTree(_)) => Ok(None),
    }
}

/// What a unit says that is a pragma, if there is nothing wrong with its form and place.
pub fn pragma_of(alloc: Global, text: &UnitText) -> Result<Option<Pragma>, AllocError> {
    let UnitText::Pragma(tokens, inside) = text else {
        return Ok(None);
    };
    Ok(parse_pragma(alloc, tokens.as_slice(), *inside)?.ok())
}

// Those of a unit with this tree.
fn names_in(alloc: Global, tree: &Tree, around: &Path) -> Result<Vec<NameDeclaration>, AllocError> {
    let sites = sites(alloc, tree)?;
    let mut gathered = NameCollector::new(alloc, around)?;
    for site in sites.as_slice() {
        gathered.pass(site)?;
    }
    Ok(gathered.into_names())
}

// The names that are declared up to a token of a unit.
struct NameCollector {
    alloc: Global,
    names: Vec<NameDeclaration>,
    // The paths of the scopes that are open there, the innermost last.
    scopes: Vec<Path>,
    at: usize,
}

impl Drop for NameCollector {
    fn drop(self) {
        let NameCollector {
            alloc: _alloc,
            names: _names,
            scopes: _scopes,
            at: _at,
        } = self;
    }
}

impl NameCollector {
    // Before the first token of a unit in the scope at a path.
    fn new(alloc: Global, around: &Path) -> Result<NameCollector, AllocError> {
        let mut scopes = Vec::new(alloc);
        scopes.push(around.clone()?)?;
        Ok(NameCollector {
            alloc,
            names: Vec::new(alloc),
            scopes,
            at: 0,
        })
    }

    // The names, taken out.
    fn into_names(self) -> Vec<NameDeclaration> {
        let NameCollector {
            alloc: _alloc,
            names,
            scopes: _scopes,
            at: _at,
        } = self;
        names
    }

    // Behind the next site, of which the name is put in that it declares.
    fn pass(&mut self, site: &UnitPart<'_>) -> Result<(), AllocError> {
        match *site {
            UnitPart::Declared(_way, name) => self.declare(name)?,
            UnitPart::ScopeBegins(_way, name) => self.open(name)?,
            UnitPart::ScopeEnds => {
                let _ended = self.scopes.pop();
            }
            _ => {}
        }
        self.at = self.at.saturating_add(length_of(site));
        Ok(())
    }

    // A name is declared.
    fn declare(&mut self, name: &Bytes) -> Result<(), AllocError> {
        if let Some(scope) = self.scopes.last() {
            let path = scope.child(self.alloc, name)?;
            let token = self.at;
            self.names.push(NameDeclaration { path, token })?;
        }
        Ok(())
    }

    // The scope of a name begins.
    fn open(&mut self, name: &Bytes) -> Result<(), AllocError> {
        if let Some(scope) = self.scopes.last() {
            let inner = scope.child(self.alloc, name)?;
            self.scopes.push(inner)?;
        }
        Ok(())
    }
}

/// How many tokens a site is.
pub fn length_of(site: &UnitPart<'_>) -> usize {
    match *site {
        UnitPart::Tokens(count) => count,
        UnitPart::Declared(_way, _name) => 1,
        UnitPart::Used(_way, name) => length_of_name(name),
        UnitPart::Joined(_purpose, text) => text.rest.len().saturating_add(1),
        _ => 0,
    }
}

/// The number of the token that is the part of a name with this number, where the name begins at this token.
pub fn part_at(at: usize, name: &ScopedName, part: usize) -> usize {
    at.saturating_add(usize::from(name.is_global))
        .saturating_add(part.saturating_mul(2))
}

/// Which part of a name the token with this number is, where the name begins at that one.
pub fn part_number(at: usize, name: &ScopedName, index: usize) -> usize
    ensures { (part : ℕ) → index ≡ part_at at name.now part → result ≡ part }
{
    let first = at.saturating_add(usize::from(name.is_global));
    index.saturating_sub(first) / 2
}

/// That of the last part.
pub fn last_at(at: usize, name: &ScopedName) -> usize {
    part_at(at, name, name.rest.len())
}

// How many tokens a name is.
fn length_of_name(name: &ScopedName) -> usize {
    last_at(1, name)
}
