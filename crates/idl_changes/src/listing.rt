//! A listing, and where its entries stand.

ghost use Rattle.std.specs.Prelude.{◌≡◌, ◌+◌, ◌-◌, ◌^◌, ◌++◌, ◌∷◌, ◌<◌, ◌≤◌, [], IfOk, List, OnOk, if◌then◌else◌, length, map, nat_eq, option_copied, slice_get, slice_range};
ghost use Rattle.idl_changes.specs.Listing.{alias_of, bases_of, enumerators_of, interface_at, interface_of, is_called, is_interface, is_local, is_sent_kind, name_of, place_of, scope_of, type_code_of};
ghost use Rattle.idl_changes.specs.Tables.{ArePlaces};
ghost use Rattle.idl_repo.specs.declared.details.row_tree.RowTree.{RowTree};

use idl_base::Bytes;
use idl_entity::Kind;
use idl_map::Map;
use idl_repo::details::{LayeredType, Reference, RowDetails, RowTree, TypeCodeParts};
use std::alloc::{AllocError, Global};
use std::marker::Model;

/// The entries of a listing in order. To every contract it is the list of them.
pub struct Listing<'a> {
    trees: &'a [&'a RowTree],
    // The place to which each path leads, but those of what is called.
    places: Map<Bytes, usize>,
}

impl<'a> Model for Listing<'a> {
    ghost use Rattle.std.specs.Prelude.{List, map};
    ghost use Rattle.idl_changes.specs.Tables.{ArePlaces};
    ghost use Rattle.idl_repo.specs.declared.details.row_tree.RowTree.{RowTree};

    ghost Value = { List RowTree };

    ghost view = { λ listing. map (λ tree. tree.now) listing.trees.now };

    ghost invariant = { λ listing.
        ArePlaces (map (λ tree. tree.now) listing.trees.now) listing.places };
}

impl<'a> Drop for Listing<'a> {
    fn drop(self) {
        let Listing {
            trees: _trees,
            places: _places,
        } = self;
    }
}

impl<'a> Listing<'a> {
    /// The listing of these entries.
    pub fn new(alloc: Global, trees: &'a [&'a RowTree]) -> Result<Listing<'a>, AllocError>
        ensures { IfOk result (λ listing. listing ≡ map (λ tree. tree.now) trees.entry.now) }
    {
        let mut places = Map::new(alloc)?;
        for (place, tree) in trees.iter().enumerate() {
            add_place(&mut places, place, tree)?;
        }
        Ok(Listing { trees, places })
    }

    /// How many entries there are.
    pub fn len(&self) -> usize
        ensures { result ≡ length self.now }
    {
        self.trees.len()
    }

    /// The entries.
    pub fn trees(&self) -> &'a [&'a RowTree]
        ensures { map (λ tree. tree.now) result.now ≡ self.now }
    {
        self.trees
    }

    /// The entry at a place.
    pub fn entry(&self, place: usize) -> Option<&'a RowTree>
        ensures { option_copied result ≡ slice_get self.now place }
    {
        self.trees.get(place).copied()
    }

    /// The place to which a path leads.
    pub fn place_of(&self, path: &Bytes) -> Option<usize>
        ensures { result ≡ place_of self.now path.now }
    {
        self.places.get(path).copied()
    }

    /// The place of the interface to which a path leads, if it is one.
    #[tactic(auto, unfolding(crate::specs::Listing::interface_at))]
    pub fn interface_at(&self, path: &Bytes) -> Option<usize>
        ensures { result ≡ interface_at self.now path.now }
    {
        let place = self.place_of(path)?;
        let entry = self.entry(place)?;
        if is_interface(entry) {
            Some(place)
        } else {
            None
        }
    }

    /// The place of the interface in whose scope an entry is.
    pub fn interface_of(&self, entry: &RowTree) -> Result<Option<usize>, AllocError>
        ensures { IfOk result (λ place. place ≡ interface_of self.now entry.now) }
    {
        let scope = scope_of(&entry.path)?;
        Ok(self.interface_at(&scope))
    }
}

// Puts in the place of one more entry, if its path leads to it.
fn add_place(places: &mut Map<Bytes, usize>, place: usize, tree: &RowTree) -> Result<(), AllocError>
    ensures { OnOk result ((L : List RowTree) → place ≡ length L → ArePlaces L places.old
        → ArePlaces (L ++ tree.now ∷ []) places.new) }
{
    if is_called(tree) {
        return Ok(());
    }
    if places.get(&tree.path).is_some() {
        return Ok(());
    }
    places.insert(tree.path.clone()?, place)?;
    Ok(())
}

/// The name of what has this path.
pub fn name_of(path: &Bytes) -> Result<Bytes, AllocError>
    ensures { IfOk result (λ name. name ≡ name_of path.now) }
{
    path.part(name_start(path.as_bytes()), path.len())
}

/// The path of the scope in which it is.
#[tactic(auto, unfolding(crate::specs::Listing::scope_of))]
pub fn scope_of(path: &Bytes) -> Result<Bytes, AllocError>
    ensures { IfOk result (λ scope. scope ≡ scope_of path.now) }
{
    path.part(0, name_start(path.as_bytes()).saturating_sub(2))
}

// Where the name begins in a path: behind the last colon.
#[tactic(auto, unfolding(crate::specs::Listing::name_of))]
fn name_start(path: &[u8]) -> usize
    ensures within { result ≤ length path.now }
    ensures name { slice_range path.now result (length path.now) ≡ name_of path.now }
    ensures rest { result + length (name_of path.now) ≡ length path.now }
{
    let mut start = 0;
    for (place, byte) in path.iter().enumerate() {
        start = start_behind(start, place, *byte);
    }
    start
}

// Where the name begins behind a byte at a place, where it begins there before it.
fn start_behind(start: usize, place: usize, byte: u8) -> usize
    requires { place < 2 ^ 64 - 1 }
    ensures { result ≡ (if nat_eq byte 58 then place + 1 else start) }
{
    if byte == b':' { place + 1 } else { start }
}

/// Whether it is an operation or an attribute.
pub fn is_called(entry: &RowTree) -> bool
    ensures { result ≡ is_called entry.now }
{
    match entry.kind {
        Kind::Operation | Kind::Attribute => true,
        _ => false,
    }
}

/// Whether it is an interface.
pub fn is_interface(entry: &RowTree) -> bool
    ensures { result ≡ is_interface entry.now }
{
    entry.kind == Kind::Interface
}

/// Whether what is of this kind has an id that goes over the wire.
pub fn is_sent_kind(kind: Kind) -> bool
    ensures { result ≡ is_sent_kind kind }
{
    match kind {
        Kind::Interface | Kind::Structure | Kind::Union | Kind::Enumeration | Kind::Exception =>
            true,
        _ => false,
    }
}

/// What an entry is another name for, if it is an alias.
pub fn alias_of(entry: &RowTree) -> Option<&LayeredType>
    ensures { option_copied result ≡ alias_of entry.now }
{
    if entry.kind != Kind::Alias {
        return None;
    }
    match type_code_of(&entry.details)? {
        TypeCodeParts::Alias(data_type) => Some(data_type),
        _ => None,
    }
}

/// The enumerators of an entry, if it is an enum.
pub fn enumerators_of(entry: &RowTree) -> &[Bytes]
    ensures { result.now ≡ enumerators_of entry.now }
{
    match type_code_of(&entry.details) {
        Some(TypeCodeParts::Enumeration(names)) => names.as_slice(),
        _ => &[],
    }
}

/// Whether an entry is a local interface.
pub fn is_local(entry: &RowTree) -> bool
    ensures { result ≡ is_local entry.now }
{
    match type_code_of(&entry.details) {
        Some(TypeCodeParts::LocalInterface) => true,
        _ => false,
    }
}

/// The bases of an interface, or that of a struct.
pub fn bases_of(entry: &RowTree) -> &[Reference]
    ensures { result.now ≡ bases_of entry.now.details }
{
    match &entry.details {
        RowDetails::Type(declared) => declared.bases.as_slice(),
        _ => &[],
    }
}

// What a row tells of a TypeCode, if it has one.
fn type_code_of(details: &RowDetails) -> Option<&TypeCodeParts>
    ensures { option_copied result ≡ type_code_of details.now }
{
    match details {
        RowDetails::Type(declared) => Some(&declared.code.parts),
        _ => None,
    }
}
