//! What keys are made of, lent: by it keys of one digest come in order.

ghost use Rattle.std.specs.Prelude.{◌≡◌, ◌∷◌, []};
ghost use Rattle.std.specs.Cmp.Lexicographic.{slice_cmp};
ghost use Rattle.std.specs.Option.{option_map};
ghost use Rattle.std.specs.Ordering.{nat_cmp};
ghost use Rattle.idl_env.specs.keys.Outline.{outline, outline_cmp};
ghost use Rattle.idl_entity.specs.Path.{names_of};

use crate::keys::key::Key;
use idl_entity::paths::Names;
use std::cmp::Ordering;
use std::marker::Model;

/// What a key is made of: a rank among all that may be asked, names that are lent, and the number of a body.
#[derive(Drop)]
pub(crate) struct Outline<'a> {
    rank: u8,
    names: KeyNames<'a>,
    body: usize,
}

impl<'a> Model for Outline<'a> {
    ghost use Rattle.idl_env.specs.keys.Outline as specs;

    ghost Value = { specs.Outline };

    ghost view = { λ seen. record { rank = seen.rank; names = seen.names; body = seen.body } };
}

// The names of a key, the innermost first: one that stands alone, and those of a path.
#[derive(Drop)]
struct KeyNames<'a> {
    first: Option<&'a [u8]>,
    behind: Names<'a>,
}

impl<'a> Model for KeyNames<'a> {
    ghost use Rattle.std.specs.Prelude.{List, ℕ};
    ghost use Rattle.idl_env.specs.keys.Outline.{names_in};
    ghost use Rattle.std.specs.Option.{option_copied};

    ghost Value = { List (List ℕ) };

    ghost view = { λ names. names_in (option_copied names.first) names.behind };
}

impl<'a> Outline<'a> {
    /// That of a key.
    pub(crate) fn of(key: &'a Key) -> Outline<'a>
        ensures { result ≡ outline key.now }
    {
        match key {
            Key::Cursor => Outline::bare(0),
            Key::Declared(name, path) => Outline::named(1, name.as_bytes(), path.lent()),
            Key::Introduced(name, path, body) => {
                Outline::numbered(2, name.as_bytes(), path.lent(), *body)
            }
            Key::Opened(path) => Outline::at(3, path.lent()),
            Key::Nameless => Outline::bare(4),
            Key::Prefix => Outline::bare(5),
            Key::IdOf(path) => Outline::at(6, path.lent()),
            Key::Typeprefix(path) => Outline::at(7, path.lent()),
        }
    }

    /// A rank alone.
    pub(crate) fn bare(rank: u8) -> Outline<'a>
        ensures { result ≡ record { rank = rank; names = []; body = 0 } }
    {
        let names = KeyNames {
            first: None,
            behind: Names::none(),
        };
        Outline {
            rank,
            names,
            body: 0,
        }
    }

    /// A rank, and a name in front of others.
    pub(crate) fn named(rank: u8, name: &'a [u8], around: Names<'a>) -> Outline<'a>
        ensures { result ≡ record { rank = rank; names = name.now ∷ around.entry; body = 0 } }
    {
        Outline::numbered(rank, name, around, 0)
    }

    /// The same, and the number of a body.
    pub(crate) fn numbered(rank: u8, name: &'a [u8], around: Names<'a>, body: usize) -> Outline<'a>
        ensures { result ≡ record { rank = rank; names = name.now ∷ around.entry; body = body } }
    {
        let names = KeyNames {
            first: Some(name),
            behind: around,
        };
        Outline { rank, names, body }
    }

    /// A rank, and the names of a path.
    pub(crate) fn at(rank: u8, path: Names<'a>) -> Outline<'a>
        ensures { result ≡ record { rank = rank; names = path.entry; body = 0 } }
    {
        let names = KeyNames {
            first: None,
            behind: path,
        };
        Outline {
            rank,
            names,
            body: 0,
        }
    }

    /// Which of two comes first.
    pub(crate) fn order(self, other: Outline<'_>) -> Ordering
        ensures { result ≡ outline_cmp self.entry other.entry }
    {
        match self.rank.cmp(&other.rank) {
            Ordering::Equal => {}
            order => return order,
        }
        match order_of(self.names, other.names) {
            Ordering::Equal => self.body.cmp(&other.body),
            order => order,
        }
    }
}

impl<'a> KeyNames<'a> {
    // The first name, and those behind it; nothing where there is none.
    fn split_first(self) -> Option<(&'a [u8], KeyNames<'a>)>
        ensures { names_of (option_map (λ p. (p.0.now, p.1)) result) ≡ self.entry }
    {
        let KeyNames { first, behind } = self;
        if let Some(name) = first {
            let others = KeyNames {
                first: None,
                behind,
            };
            return Some((name, others));
        }
        let (name, behind) = behind.split_first()?;
        let others = KeyNames {
            first: None,
            behind,
        };
        Some((name, others))
    }
}

// Which of two lists of names comes first.
#[tactic(auto, using(idl_entity::proofs::PathLemmas::equal_first, idl_entity::proofs::PathLemmas::unequal_first))]
fn order_of(first: KeyNames<'_>, second: KeyNames<'_>) -> Ordering
    ensures { result ≡ slice_cmp (slice_cmp nat_cmp) first.entry second.entry }
{
    let mut own = first.split_first();
    let mut other = second.split_first();
    while let Some((mine, behind)) = own {
        let Some((theirs, others)) = other else {
            return Ordering::Greater;
        };
        let order = mine.cmp(theirs);
        if order != Ordering::Equal {
            return order;
        }
        own = behind.split_first();
        other = others.split_first();
    }
    if other.is_some() {
        Ordering::Less
    } else {
        Ordering::Equal
    }
}
