//! A listing with what is looked up in it often, each worked out once.

ghost use Rattle.std.specs.Prelude.{◌≡◌, [], IfOk, map};
ghost use Rattle.std.specs.Option.{option_map_or};
ghost use Rattle.idl_changes.specs.Listing.{enumerators_at};
ghost use Rattle.idl_changes.specs.Offered.{ancestors, called_in, offered};
ghost use Rattle.idl_changes.specs.Plain.{enumerators, plain};

use crate::keys::NumberedText;
use crate::listing::{Listing, enumerators_of};
use crate::offered::{all_ancestors, all_called, all_offers, list_at};
use crate::plain::{named_by, plain, plain_aliases};
use idl_base::{Bytes, Seq};
use idl_map::Map;
use idl_repo::details::{LayeredType, RowTree};
use std::alloc::{AllocError, Global};
use std::marker::Model;

/// One of two listings. To every contract it is the list of its entries.
pub struct Side<'a> {
    listing: Listing<'a>,
    // The plain types of aliases.
    plains: Vec<Option<LayeredType>>,
    // What each entry inherits.
    inherited: Vec<Seq<usize>>,
    // What is in the scope of each.
    called: Vec<Seq<usize>>,
    // What each offers under a name.
    offers: Map<NumberedText, usize>,
}

impl<'a> Model for Side<'a> {
    ghost use Rattle.std.specs.Prelude.{List};
    ghost use Rattle.idl_changes.specs.Tables.{IsSide};
    ghost use Rattle.idl_repo.specs.declared.details.row_tree.RowTree.{RowTree};

    ghost Value = { List RowTree };

    ghost view = { λ side. side.listing };

    ghost invariant = { λ side.
        IsSide side.listing side.plains.items side.inherited.items side.called.items side.offers };
}

impl<'a> Drop for Side<'a> {
    fn drop(self) {
        let Side {
            listing: _listing,
            plains: _plains,
            inherited: _inherited,
            called: _called,
            offers: _offers,
        } = self;
    }
}

impl<'a> Side<'a> {
    /// A listing with its tables.
    pub fn new(alloc: Global, trees: &'a [&'a RowTree]) -> Result<Side<'a>, AllocError>
        ensures { IfOk result (λ side. side ≡ map (λ tree. tree.now) trees.entry.now) }
    {
        let listing = Listing::new(alloc, trees)?;
        let plains = plain_aliases(alloc, &listing)?;
        let inherited = all_ancestors(alloc, &listing)?;
        let called = all_called(alloc, &listing)?;
        let offers = all_offers(alloc, &listing, &called, &inherited)?;
        Ok(Side {
            listing,
            plains,
            inherited,
            called,
            offers,
        })
    }

    /// The listing.
    pub fn listing(&self) -> &Listing<'a>
        ensures { result.now ≡ self.now }
    {
        &self.listing
    }

    /// A type without aliases.
    pub fn plain(&self, data_type: &LayeredType) -> Result<LayeredType, AllocError>
        ensures { IfOk result (λ t. t ≡ plain self.now data_type.now) }
    {
        plain(&self.listing, &self.plains, data_type)
    }

    /// The enumerators of a type that is an enum.
    #[tactic(auto, unfolding(crate::specs::Plain::enumerators))]
    pub fn enumerators(&self, data_type: &LayeredType) -> Result<&[Bytes], AllocError>
        ensures { IfOk result (λ names. names.now ≡ enumerators self.now data_type.now) }
    {
        let plain = self.plain(data_type)?;
        let place = named_by(&self.listing, &plain.element);
        Ok(self.enumerators_at(place))
    }

    // Those of the entry at a place, if it is an enum.
    fn enumerators_at(&self, place: Option<usize>) -> &[Bytes]
        ensures { result.now ≡ option_map_or (enumerators_at self.now) place [] }
    {
        let Some(place) = place else {
            return &[];
        };
        match self.listing.entry(place) {
            Some(entry) => enumerators_of(entry),
            None => &[],
        }
    }

    /// What the interface at a place inherits.
    pub fn ancestors(&self, place: usize) -> &[usize]
        ensures { result.now ≡ ancestors self.now place }
    {
        list_at(&self.inherited, place)
    }

    /// What is in the scope of the interface at a place.
    pub fn called_in(&self, place: usize) -> &[usize]
        ensures { result.now ≡ called_in self.now place }
    {
        list_at(&self.called, place)
    }

    /// What the interface at a place offers under a name.
    pub fn offered(&self, place: usize, name: &Bytes) -> Result<Option<usize>, AllocError>
        ensures { IfOk result (λ found. found ≡ offered self.now place name.now) }
    {
        let text = name.clone()?;
        let key = NumberedText {
            text,
            number: place,
        };
        Ok(self.offers.get(&key).copied())
    }
}
