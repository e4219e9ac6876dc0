//! Where an id, a version or a typeprefix was given.

ghost use Rattle.std.specs.Prelude.{IfOk};
ghost use Rattle.idl_related.specs.Told.{AreFew};

use crate::about::About;
use crate::names::{last_at, length_of, pragma_of, tree_of};
use crate::second::{Reason, Second};
use idl_entity::Path;
use idl_env::LentKey;
use idl_fault::Code;
use idl_map::Lent;
use idl_parts::{UnitPart, Use, sites};
use idl_tree::{Pragma, Tree};
use std::alloc::{AllocError, Global};

// The number of the token at which what a pragma speaks of begins.
const OPERANDS: usize = 2;

impl<'a> About<'a> {
    /// The unit by which what is found again was given to what stands at a path: the name there.
    pub fn given(self, path: &Path) -> Result<Vec<Second>, AllocError>
        ensures { IfOk result (λ seconds. AreFew seconds.items) }
    {
        match self.giving_unit(path)? {
            Some(unit) => self.at(Reason::Given, unit, self.giving_token(unit)?),
            None => Ok(Vec::new(self.alloc())),
        }
    }

    // The number of that unit. Each unit before the end of a root adds facts once.
    fn giving_unit(self, path: &Path) -> Result<Option<usize>, AllocError> {
        let key = if self.fault.code == Code::RepeatedTypeprefix {
            LentKey::typeprefix(self.alloc(), path.lent())
        } else {
            LentKey::id_of(self.alloc(), path)
        };
        let key = key.owned()?;
        Ok(self.env.written_at(&key).checked_sub(1))
    }

    // The number of the token there that ends the name to which something is given.
    fn giving_token(self, unit: usize) -> Result<Option<usize>, AllocError> {
        let Some(text) = self.known.text(unit) else {
            return Ok(None);
        };
        if let Some(tree) = tree_of(self.alloc(), text)? {
            return given_in(self.alloc(), &tree);
        }
        match pragma_of(self.alloc(), text)? {
            Some(pragma) => Ok(given_by(&pragma)),
            None => Ok(None),
        }
    }
}

// That token of a pragma.
fn given_by(pragma: &Pragma) -> Option<usize> {
    match pragma {
        Pragma::Id(name, _text) => Some(last_at(OPERANDS, name)),
        Pragma::Version(name, _major, _minor) => Some(last_at(OPERANDS, name)),
        Pragma::Prefix(_text) => None,
    }
}

// That token of a unit with this tree.
fn given_in(alloc: Global, tree: &Tree) -> Result<Option<usize>, AllocError> {
    let sites = sites(alloc, tree)?;
    let mut at: usize = 0;
    for site in sites.as_slice() {
        if let UnitPart::Used(Use::AsIdentified | Use::AsPrefixed, name) = site {
            return Ok(Some(last_at(at, name)));
        }
        at = at.saturating_add(length_of(site));
    }
    Ok(None)
}
