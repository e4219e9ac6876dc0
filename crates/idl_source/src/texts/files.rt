//! Files by name, and the edits of a set of files.

ghost use Rattle.std.specs.Prelude.{◌≡◌, ◌≢◌, ◌↔◌, ◌≤◌, ◌+◌, ◌++◌, ◌||◌, IsFalse, IsTrue, IfOk, IfErr, length, nat_lt};
ghost use Rattle.std.specs.List.{list_any};
ghost use Rattle.std.specs.Option.{option_copied};
ghost use Rattle.std.specs.FinMap as map;
ghost use Rattle.idl_source.specs.Limits.{longest_line, most_lines};
ghost use Rattle.idl_source.specs.names.Name.{is_name};
ghost use Rattle.idl_source.specs.texts.Texts.{after_put, after_remove, after_splice, is_over};

use crate::names::name::Name;
use crate::names::span::Span;
use crate::refusal::Refusal;
use crate::texts::entries::{NamedFile, entries_with, entries_without, place_of};
use crate::texts::file::File;
use crate::texts::line::Line;
use crate::{MAX_FILES, MAX_LINE, MAX_LINES};
use std::alloc::{AllocError, Global};
use std::marker::Model;
use std::rc::Rc;

/// Files by name, a finite map to every contract. An edit makes new files, which share with the old ones what stays.
///
/// A look-up takes time that grows with the logarithm of their number, and an edit copies pointers alone.
#[derive(Drop)]
pub struct Files {
    entries: Vec<Rc<NamedFile>>,
}

impl Model for Files {
    ghost use Rattle.std.specs.Prelude.{IsTrue};
    ghost use Rattle.std.specs.Ordering.{nat_cmp};
    ghost use Rattle.std.specs.Cmp.Lexicographic.{slice_cmp};
    ghost use Rattle.std.specs.FinMap as map;
    ghost use Rattle.idl_source.specs.texts.Texts.{Texts, texts_code};

    ghost Value = { Texts };

    ghost coded = { texts_code };

    ghost use Rattle.idl_source.specs.texts.Entries.{entries_of};

    ghost view = { λ files. map.from_sorted (entries_of files.entries.items) };

    ghost invariant = { λ files. IsTrue (map.is_sorted (slice_cmp nat_cmp) (entries_of files.entries.items)) };
}

impl Files {
    /// No files. It takes no memory.
    pub fn new(alloc: Global) -> Files
        ensures { result ≡ map.empty }
    {
        Files {
            entries: Vec::new(alloc),
        }
    }

    /// How many files there are.
    pub fn len(&self) -> usize
        ensures { result ≡ map.len self.now }
    {
        self.entries.len()
    }

    /// Whether there is no file.
    pub fn is_empty(&self) -> bool
        ensures { IsTrue result ↔ (self.now ≡ map.empty) }
    {
        self.entries.is_empty()
    }

    /// The file of this name.
    pub fn get(&self, name: &[u8]) -> Option<&File>
        ensures { option_copied result ≡ map.get self.now name.now }
    {
        match place_of(&self.entries, name) {
            Ok(place) => Some(&self.entries[place].file),
            Err(_) => None,
        }
    }

    /// The files with these lines under this name, in place of those that it has. The old files stay as they are.
    ///
    /// It is refused, in this order, where the name isn't one, and where there are more than [`MAX_LINES`] lines, a line
    /// has more than [`MAX_LINE`] bytes, or the name is new and there are [`MAX_FILES`] files. Memory may be refused too.
    pub fn put(&self, name: &[u8], lines: Vec<Line>) -> Result<Files, Refusal>
        ensures ok { IfOk result (λ files. after_put self.now name.now lines.items ≡ Ok files) }
        ensures err { IfErr result
            (λ refusal. refusal ≢ Refusal.NoMemory
            → after_put self.now name.now lines.items ≡ Err refusal) }
    {
        let name = allowed_name(name)?;
        if self.is_over(&name, &lines) {
            return Err(Refusal::OverLimit);
        }
        let files = self.with(name, lines)?;
        Ok(files)
    }

    /// The files with new lines in the place of a span of this file. The old files stay as they are, and the lines that stay
    /// are shared.
    ///
    /// It is refused, in this order, where the name isn't one, where there is no such file, where the span isn't all in it, and where it would have more than [`MAX_LINES`] lines or a new line has more than [`MAX_LINE`] bytes. Memory may
    /// be refused too.
    pub fn splice(&self, name: &[u8], span: Span, lines: Vec<Line>) -> Result<Files, Refusal>
        ensures ok { IfOk result
            (λ files. after_splice self.now name.now span.from span.del lines.items ≡ Ok files) }
        ensures err { IfErr result
            (λ refusal. refusal ≢ Refusal.NoMemory
            → after_splice self.now name.now span.from span.del lines.items ≡ Err refusal) }
    {
        let name = allowed_name(name)?;
        let Some(file) = self.get(name.as_bytes()) else {
            return Err(Refusal::NoSuchFile);
        };
        let old = file.lines();
        if !span.is_inside(old) {
            return Err(Refusal::OutsideFile);
        }
        if is_splice_over(old.len() - span.del, &lines) {
            return Err(Refusal::OverLimit);
        }
        let start = span.from - 1;
        let lines = spliced(&old[..start], lines, &old[start + span.del..])?;
        let files = self.with(name, lines)?;
        Ok(files)
    }

    /// The files without the one of this name. The old files stay as they are.
    ///
    /// It is refused, in this order, where the name isn't one, and where there is no such file. Memory may be refused too.
    pub fn remove(&self, name: &[u8]) -> Result<Files, Refusal>
        ensures ok { IfOk result (λ files. after_remove self.now name.now ≡ Ok files) }
        ensures err { IfErr result
            (λ refusal. refusal ≢ Refusal.NoMemory → after_remove self.now name.now ≡ Err refusal) }
    {
        let name = allowed_name(name)?;
        match place_of(&self.entries, name.as_bytes()) {
            Ok(place) => {
                let entries = entries_without(&self.entries, place)?;
                Ok(Files { entries })
            }
            Err(_) => Err(Refusal::NoSuchFile),
        }
    }

    // The files with these lines under this name.
    fn with(&self, name: Name, lines: Vec<Line>) -> Result<Files, AllocError>
        requires { length lines.items ≤ 200000 }
        ensures { IfOk result (λ files. files ≡ map.insert self.now name lines.items) }
    {
        let alloc = *self.entries.allocator();
        let file = File::new(alloc, lines)?;
        let entry = Rc::new(alloc, NamedFile { name, file })?;
        let entries = entries_with(&self.entries, entry)?;
        Ok(Files { entries })
    }

    // Whether a file of these lines under this name goes past a limit.
    fn is_over(&self, name: &Name, lines: &[Line]) -> bool
        ensures { result ≡ is_over self.now name.now lines.now }
    {
        if lines.len() > MAX_LINES {
            return true;
        }
        if has_long_line(lines) {
            return true;
        }
        self.len() >= MAX_FILES && self.get(name.as_bytes()).is_none()
    }
}

// The name of these bytes, or the refusal of what is none.
fn allowed_name(bytes: &[u8]) -> Result<Name, Refusal>
    ensures ok { IfOk result (λ name. IsTrue (is_name bytes.now) × (name ≡ bytes.now)) }
    ensures err { IfErr result
        (λ refusal. IsFalse (is_name bytes.now) × (refusal ≡ Refusal.BadName)) }
{
    match Name::new(bytes) {
        Some(name) => Ok(name),
        None => Err(Refusal::BadName),
    }
}

fn has_long_line(lines: &[Line]) -> bool
    ensures { result ≡ list_any (λ line. nat_lt longest_line (length line)) lines.now }
{
    lines.iter().any(|line| line.len() > MAX_LINE)
}

// Whether so many lines and new ones are too many, or a new one is too long.
fn is_splice_over(kept: usize, lines: &[Line]) -> bool
    ensures { result
        ≡ (nat_lt most_lines (kept + length lines.now)
        || list_any (λ line. nat_lt longest_line (length line)) lines.now) }
{
    if kept > MAX_LINES || lines.len() > MAX_LINES - kept {
        return true;
    }
    has_long_line(lines)
}

// The lines in a row. Those before and after are shared.
fn spliced(before: &[Line], mut lines: Vec<Line>, after: &[Line]) -> Result<Vec<Line>, AllocError>
    ensures { IfOk result (λ all. all.items ≡ before.now ++ (lines.items ++ after.now)) }
{
    let mut all = Vec::new(*lines.allocator());
    all.extend_with_clones(before)?;
    all.append(&mut lines)?;
    all.extend_with_clones(after)?;
    Ok(all)
}
