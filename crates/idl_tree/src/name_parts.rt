//! The tokens of a scoped name.

ghost use Rattle.std.specs.Prelude.{◌≡◌, ◌≤◌, ◌+◌, ◌*◌, length};
ghost use Rattle.idl_tree.specs.NameParts.{part_at, last_at};
ghost use Rattle.idl_tree.specs.Name.{spell_name};

use crate::name::ScopedName;

/// The number of the token that is a part of a name, where the name begins at this token.
pub fn part_at(at: usize, name: &ScopedName, part: usize) -> usize
    requires { part_at at name.now part ≤ 18446744073709551615 }
    ensures { result ≡ part_at at name.now part }
{
    at + usize::from(name.is_global) + 2 * part
}

/// The number of the token that is the last part of a name.
pub fn last_at(at: usize, name: &ScopedName) -> usize
    requires { last_at at name.now ≤ 18446744073709551615 }
    ensures { result ≡ last_at at name.now }
{
    part_at(at, name, name.rest.len())
}

/// How many tokens a name is.
pub fn name_length(name: &ScopedName) -> usize
    requires { length (spell_name name.now) ≤ 18446744073709551615 }
    ensures { result ≡ length (spell_name name.now) }
{
    last_at(0, name) + 1
}
