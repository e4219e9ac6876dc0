//! Names that are near to one that isn't declared.

ghost use Rattle.std.specs.Prelude.{◌≡◌, IfOk};
ghost use Rattle.idl_related.specs.Told.{AreFew, is_compared, most_edits};

use crate::about::{push, told_count};
use crate::denoting::{NameContext, Searched, entity_at};
use crate::known::letters_of;
use crate::second::{Reason, Second};
use idl_base::Bytes;
use idl_entity::Path;
use idl_env::BaseQueue;
use std::alloc::{AllocError, Global};
use strsim::generic_levenshtein;

// Names of so many bytes at most are compared.
const LONGEST_COMPARED: usize = 64;

// The names so far that are nearest to one: how far they are, and their numbers among the declared ones.
struct Nearest<'n> {
    name: &'n [u8],
    letters: u64,
    distance: usize,
    numbers: Vec<usize>,
}

impl<'n> Drop for Nearest<'n> {
    fn drop(self) {
        let Nearest {
            name: _name,
            letters: _letters,
            distance: _distance,
            numbers: _numbers,
        } = self;
    }
}

impl<'a> NameContext<'a> {
    /// Where up to three names are declared that are nearest to this one, of those in these scopes and their bases.
    pub fn near(self, name: &Bytes, scopes: &[Searched]) -> Result<Vec<Second>, AllocError>
        ensures { IfOk result (λ seconds. AreFew seconds.items) }
    {
        let alloc = self.about.alloc();
        if !self.about.known.asks_near() || !is_compared(name.as_bytes()) {
            return Ok(Vec::new(alloc));
        }
        let scopes = scopes_searched(alloc, scopes)?;
        let mut nearest = Nearest::new(alloc, name.as_bytes());
        self.add_all(&mut nearest, scopes)?;
        self.told(nearest.numbers.as_slice())
    }

    // Puts in the nearest names that are declared in these scopes, and in the bases that they reach, each once.
    fn add_all(self, nearest: &mut Nearest<'_>, mut scopes: BaseQueue) -> Result<(), AllocError> {
        for turn in 0..usize::MAX {
            let Some(scope) = scopes.get(turn) else {
                break;
            };
            self.add_names(nearest, scope)?;
            let more = self.bases_of(scope)?;
            scopes.join(more)?;
        }
        Ok(())
    }

    // The bases of what stands at a path.
    fn bases_of(self, path: &Path) -> Result<&'a [Path], AllocError> {
        let Some(entity) = entity_at(self.view(), path)? else {
            return Ok(&[]);
        };
        if !entity.get().stage().has_bases() {
            return Ok(&[]);
        }
        Ok(entity.get().bases())
    }

    // Puts in the nearest names that are declared in a scope, the first ones first.
    fn add_names(self, nearest: &mut Nearest<'_>, scope: &Path) -> Result<(), AllocError> {
        let mut numbers = Vec::new(self.about.alloc());
        let known = self.about.known;
        let mut next = known.last_in(scope);
        for _name in 0..known.declared_count() {
            let Some(number) = next else {
                break;
            };
            let Some(outline) = known.outline(number) else {
                break;
            };
            if nearest.may_have(outline.letters) {
                numbers.push(number)?;
            }
            next = outline.before;
        }
        for number in numbers.iter().rev() {
            if let Some(path) = known.path(*number) {
                nearest.add(self.about.alloc(), *number, path.name())?;
            }
        }
        Ok(())
    }

    // Where the first of the names with these numbers are declared.
    fn told(self, numbers: &[usize]) -> Result<Vec<Second>, AllocError>
        ensures { IfOk result (λ seconds. AreFew seconds.items) }
    {
        let about = self.about;
        let mut seconds = Vec::new(about.alloc());
        'told: for number in &numbers[..told_count(numbers.len())] {
            let Some(path) = about.known.path(*number) else {
                continue;
            };
            let found = about
                .known
                .declared_spot(about.env, path, about.fault.index)?;
            if let Some(spot) = found {
                push(&mut seconds, Reason::Near, spot)?;
            }
        }
        Ok(seconds)
    }
}

impl<'n> Nearest<'n> {
    // None so far.
    fn new(alloc: Global, name: &'n [u8]) -> Nearest<'n> {
        Nearest {
            name,
            letters: letters_of(name),
            distance: most_edits(name),
            numbers: Vec::new(alloc),
        }
    }

    // Whether a name with these letters may be as near as those so far: each edit takes one at most, and puts in one.
    fn may_have(&self, letters: u64) -> bool {
        let taken = (self.letters & !letters).count_ones() as usize;
        let put = (letters & !self.letters).count_ones() as usize;
        taken <= self.distance && put <= self.distance
    }

    // Puts in the name with a number, if none so far is nearer.
    fn add(&mut self, alloc: Global, number: usize, name: &[u8]) -> Result<(), AllocError> {
        if !is_compared(name) || self.name.len().abs_diff(name.len()) > self.distance {
            return Ok(());
        }
        let distance = generic_levenshtein(alloc, self.name, name)?;
        if distance > self.distance {
            return Ok(());
        }
        if distance < self.distance {
            self.distance = distance;
            self.numbers.clear();
        }
        self.numbers.push(number)?;
        Ok(())
    }
}

// Whether a name is compared with others.
fn is_compared(name: &[u8]) -> bool
    ensures { result ≡ is_compared name.now }
{
    name.len() <= LONGEST_COMPARED
}

// How many edits away a name is at most that is near to this one.
fn most_edits(name: &[u8]) -> usize
    ensures { result ≡ most_edits name.now }
{
    1 + name.len() / 4
}

// The paths of these scopes, each once.
fn scopes_searched(alloc: Global, scopes: &[Searched]) -> Result<BaseQueue, AllocError> {
    let mut paths = Vec::new(alloc);
    for scope in scopes {
        paths.push(scope.path.clone()?)?;
    }
    let mut queue = BaseQueue::new(alloc);
    queue.join(paths.as_slice())?;
    Ok(queue)
}
