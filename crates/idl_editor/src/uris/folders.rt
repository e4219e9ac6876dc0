//! The folders of a workspace, and the names that files have in it.

ghost use Rattle.std.specs.Prelude.{◌≡◌, ◌↔◌, ◌∷◌, ◌++◌, [], true, false, IfOk, IfSome, IsTrue, MatchOption, OnErr, OnOk, Some, if◌then◌else◌};
ghost use Rattle.std.specs.Option.{option_copied, option_map};
ghost use Rattle.idl_source.specs.names.Path.{is_rooted};
ghost use Rattle.idl_editor.specs.uris.Folders.{AreApart, are_apart, are_told_apart, escaped, goes_up, leads_out, may_be_added, name_in, name_of, named, path_for, rest_in};

use crate::uris::behind::behind;
use idl_source::Name;
use idl_source::path::is_rooted;
use percent_encoding::{AsciiSet, CONTROLS, ascii_set, percent_decode, percent_encode};
use std::alloc::{AllocError, Global};
use std::marker::Model;

/// The bytes of a path that a name escapes: those that no name has, and `%`.
pub const ESCAPED_IN_NAMES: AsciiSet = ascii_set!(CONTROLS.add(b' ').add(b'%'));

/// A folder of a workspace: its path, and what the names of its files begin with.
#[derive(Drop)]
pub struct Folder {
    path: Vec<u8>,
    front: Vec<u8>,
}

impl Model for Folder {
    ghost use Rattle.idl_editor.specs.uris.Folders.{FolderNamed};

    ghost Value = { FolderNamed };

    ghost view = { λ folder. record { path = folder.path.items; front = folder.front.items } };
}

/// The folders of a workspace. Of names in one and in another one neither's front begins the other's, but for steps up behind that of
/// an earlier one.
#[derive(Drop)]
pub struct Folders {
    folders: Vec<Folder>,
}

impl Model for Folders {
    ghost use Rattle.std.specs.Prelude.{List};
    ghost use Rattle.idl_editor.specs.uris.Folders.{AreApart, FolderNamed};

    ghost Value = { List FolderNamed };

    ghost view = { λ it. it.folders.items };

    ghost invariant = { λ it. AreApart it.folders.items };
}

impl Folders {
    /// No folders: a name is a whole path.
    pub fn new(alloc: Global) -> Folders
        ensures { result ≡ [] }
    {
        Folders {
            folders: Vec::new(alloc),
        }
    }

    /// The folders, in the order in which they were added.
    pub fn as_slice(&self) -> &[Folder]
        ensures { result.now ≡ self.now }
    {
        self.folders.as_slice()
    }

    /// Adds a folder at this path, with what the names of its files begin with, unless that begins the names of another one, or
    /// another one's begin it, or it begins with `/`. It may go on from another one's with `../`. Tells whether it was added.
    pub fn add(&mut self, path: &[u8], front: &[u8]) -> Result<bool, AllocError>
        ensures added { IfOk result (λ added. self.new
            ≡ (if added then self.old ++ (record { path = path.now; front = front.now }) ∷ []
            else self.old)) }
        ensures apart { IfOk result (λ added. IsTrue added
            ↔ IsTrue (may_be_added self.old front.now)) }
        ensures kept { OnErr result (self.new ≡ self.old) }
    {
        if !self.may_be_added(front) {
            return Ok(false);
        }
        let alloc = *self.folders.allocator();
        let path = Vec::from_slice(alloc, path)?;
        let front = Vec::from_slice(alloc, front)?;
        self.folders.push(Folder { path, front })?;
        Ok(true)
    }

    // Whether names that begin so are told from those of the folders.
    fn may_be_added(&self, front: &[u8]) -> bool
        ensures { result ≡ may_be_added self.now front.now }
    {
        if is_rooted(front) {
            return false;
        }
        for folder in &self.folders {
            if !are_told_apart(&folder.front, front) {
                return false;
            }
        }
        true
    }

    /// The name of the file at a path, by the first folder that it is in, and else the whole path; `None` where that is no name.
    pub fn name_of(&self, path: &[u8]) -> Result<Option<Name>, AllocError>
        ensures value { IfOk result (λ name. name ≡ named (name_of self.now path.now)) }
        ensures leads { IsTrue (is_rooted path.now) → IfOk result (λ name.
            IfSome name (λ n. path_for self.now n ≡ Some path.now)) }
    {
        self.stays_apart();
        let text = self.text_of(path)?;
        Ok(Name::new(&text))
    }

    // Names in one folder aren't those in another one.
    fn stays_apart(&self)
        ensures { AreApart self.now }
    {
        let _folders = &self.folders;
    }

    // The name of the file at a path, which may be none.
    fn text_of(&self, path: &[u8]) -> Result<Vec<u8>, AllocError>
        ensures { IfOk result (λ text. text.items ≡ name_of self.now path.now) }
    {
        let mut name = Vec::new(*self.folders.allocator());
        for folder in &self.folders {
            if folder.push_name(path, &mut name)? {
                return Ok(name);
            }
        }
        push_escaped(path, &mut name)?;
        Ok(name)
    }

    /// The path that a name leads to, if there is one.
    pub fn path_for(&self, name: &[u8]) -> Result<Option<Vec<u8>>, AllocError>
        ensures { IfOk result (λ path. option_map (λ p. p.items) path ≡ path_for self.now name.now) }
    {
        let mut path = Vec::new(*self.folders.allocator());
        if is_rooted(name) {
            percent_decode(name).append_to(&mut path)?;
            return Ok(Some(path));
        }
        for folder in &self.folders {
            if let Some(rest) = folder.rest_of(name) {
                path.extend_from_slice(&folder.path)?;
                path.push(b'/')?;
                percent_decode(rest).append_to(&mut path)?;
                return Ok(Some(path));
            }
        }
        Ok(None)
    }
}

impl Folder {
    /// What the names of its files begin with.
    pub fn front(&self) -> &[u8]
        ensures { result.now ≡ self.now.front }
    {
        self.front.as_slice()
    }

    // What stands in a name behind the front, if it is the name of a file in the folder.
    fn rest_of<'n>(&self, name: &'n [u8]) -> Option<&'n [u8]>
        ensures { option_copied result ≡ rest_in self.now name.now }
    {
        match behind(&self.front, name) {
            Some(rest) if !leads_out(rest) => Some(rest),
            _ => None,
        }
    }

    // Puts in the name of the file at a path, if that is in the folder, and tells so.
    fn push_name(&self, path: &[u8], name: &mut Vec<u8>) -> Result<bool, AllocError>
        ensures { IfOk result (λ is_in. MatchOption (name_in self.now path.now)
            ((is_in ≡ false) × (name.new.items ≡ name.old.items))
            (λ n. (is_in ≡ true) × (name.new.items ≡ name.old.items ++ n))) }
    {
        let Some(rest) = behind(&self.path, path) else {
            return Ok(false);
        };
        let Some(rest) = behind(b"/", rest) else {
            return Ok(false);
        };
        if leads_out(rest) {
            return Ok(false);
        }
        name.extend_from_slice(&self.front)?;
        push_escaped(rest, name)?;
        Ok(true)
    }
}

// Whether a path leads out of where it counts from.
fn leads_out(path: &[u8]) -> bool
    ensures { result ≡ leads_out path.now }
{
    is_rooted(path) || behind(b"../", path).is_some()
}

// Whether what stays in a folder and begins with one text doesn't begin with the other one.
fn are_told_apart(one: &[u8], other: &[u8]) -> bool
    ensures { result ≡ are_told_apart one.now other.now }
{
    are_apart(one, other) || goes_up(one, other)
}

// Whether neither of two texts begins the other one.
fn are_apart(one: &[u8], other: &[u8]) -> bool
    ensures { result ≡ are_apart one.now other.now }
{
    behind(one, other).is_none() && behind(other, one).is_none()
}

// Whether the other text is the one with a step up behind it, and maybe more.
fn goes_up(one: &[u8], other: &[u8]) -> bool
    ensures { result ≡ goes_up one.now other.now }
{
    match behind(one, other) {
        Some(rest) => behind(b"../", rest).is_some(),
        None => false,
    }
}

// Puts in a path as names have it.
#[tactic(auto, using(crate::proofs::FolderLemmas::name_escaped))]
fn push_escaped(path: &[u8], name: &mut Vec<u8>) -> Result<(), AllocError>
    ensures { OnOk result (name.new.items ≡ name.old.items ++ escaped path.now) }
{
    let mut text = String::new(*name.allocator());
    percent_encode(path, ESCAPED_IN_NAMES).append_to(&mut text)?;
    name.extend_from_slice(text.as_bytes())
}
