//! The files that a root asks for, found before it is expanded.
//!
//! An explorer reads the lines of a root's files as an expansion does, and stops where an include asks for files that aren't
//! there: who explores can then bring them, and go on over a bank that has them. So a bank is lent to one step at a time, and
//! each file that is entered is explored by who explores, inside the one that includes it. Nothing rests on what is found so:
//! the expansion asks by itself.

ghost use Rattle.std.specs.Prelude.{◌≡◌, ◌<◌, [], All, None, IfOk, OnOk, length};
ghost use Rattle.idl_event.specs.Items.{beginning};
ghost use Rattle.idl_event.specs.declared.asked.key.RootKey.TheVariants.{File};
ghost use Rattle.idl_prep.specs.Explore.{StopsAt};
ghost use Rattle.idl_prep.specs.Root.{absent_files};

use crate::directives::find::{FoundFile, file_named, find};
use crate::directives::line::{DirectiveLine, LineKind, read};
use crate::directives::operand::IncludeOperand;
use crate::walk::groups::{Group, is_walked};
use crate::walk::jump::jump;
use crate::walk::pass::walk_line;
use crate::walk::root::Root;
use crate::walk::root_task::absent;
use crate::walk::walked_file::WalkedFile;
use idl_base::Stack;
use idl_event::{Item, LexedFile, Progress, RootBank};
use idl_fault::{FileName, Place};
use idl_memo::Log;
use idl_source::Name;
use idl_text::{DirectiveKind, FileTokens, LinesLeft, Plain};
use std::alloc::{AllocError, Global};

/// What a root that is explored has said so far, and what is left of its limits.
#[derive(Drop)]
pub struct Explorer<B: RootBank> {
    root: Root<B>,
}

impl<B: RootBank> Explorer<B> {
    /// Nothing was said, and nothing of the limits is spent. It takes no memory.
    pub fn new(alloc: Global) -> Explorer<B> {
        Explorer {
            root: Root::new(alloc, Log::new(alloc)),
        }
    }

    /// The file is too deep to be entered: a limit is passed, and nothing more is asked.
    pub fn refuse(&mut self, file: &OpenFile) -> Result<(), AllocError> {
        self.root.tell(Item::TooDeep(Place {
            file: file.name.clone()?,
            line: 0,
        }))
    }
}

/// A file that is entered: its name, and the file, which is shared with the bank.
#[derive(Drop)]
pub struct OpenFile {
    pub name: FileName,
    pub file: LexedFile,
}

impl OpenFile {
    /// The file of this name, if it is in the bank.
    pub fn of<B: RootBank>(
        alloc: Global,
        name: &Name,
        bank: &B,
    ) -> Result<Option<OpenFile>, AllocError> {
        let name = FileName::new(alloc, name)?;
        match shared_file(alloc, &name, bank)? {
            Some(file) => Ok(Some(OpenFile { name, file })),
            None => Ok(None),
        }
    }
}

// The file of a name, which is shared with the bank, if it is there.
fn shared_file<B: RootBank>(
    alloc: Global,
    name: &FileName,
    bank: &B,
) -> Result<Option<LexedFile>, AllocError> {
    let mut asking = Asking::new(alloc);
    let file = file_named(name, bank, &mut asking.progress)?;
    copied(file)
}

// The file, if there is one.
fn copied(file: Option<&LexedFile>) -> Result<Option<LexedFile>, AllocError> {
    match file {
        Some(file) => Ok(Some(file.clone()?)),
        None => Ok(None),
    }
}

/// Where the exploration of a file has come to.
#[derive(Drop)]
pub enum Waypoint {
    /// At an include that asks for these names, one after the other up to the first that is there, and these aren't.
    Absent(Vec<Name>),
    /// At a file that is entered.
    Entered(OpenFile),
    /// At the end of the file, or past a limit.
    End,
}

/// The exploration of a file: the lines that are left of it, the groups that are open, and the include whose files may be brought
/// before the exploration goes on.
#[derive(Drop)]
pub struct FileWalk<'f> {
    name: &'f FileName,
    left: LinesLeft<'f>,
    groups: Stack<Group>,
    waiting: Option<IncludeOperand>,
}

impl<'f> FileWalk<'f> {
    /// All lines of the file are left. It takes no memory.
    pub fn new(alloc: Global, open: &'f OpenFile) -> FileWalk<'f> {
        FileWalk {
            name: &open.name,
            left: open.file.lines(),
            groups: Stack::new(alloc),
            waiting: None,
        }
    }

    /// Goes on to the next include that asks for files that aren't there, or that enters a file, or to the end. An include tells
    /// its absent files once: after that it enters what is there, if anything is, and else is passed by.
    pub fn advance<B: RootBank>(
        &mut self,
        explorer: &mut Explorer<B>,
        bank: &B,
    ) -> Result<Waypoint, AllocError>
        ensures { IfOk result (λ next. StopsAt (B.at bank.now) next) }
    {
        let root = &mut explorer.root;
        let site = WalkedFile {
            file: self.name,
            bank,
        };
        if let Some(open) = self.brought(root, &site)? {
            return Ok(Waypoint::Entered(open));
        }
        let mut asking = Asking::past_limits(root.allocator(), self.name)?;
        self.walk_lines(root, &site, &mut asking.progress)
    }

    // The file that the waiting include enters, whose files may have been brought since it was told.
    fn brought<B: RootBank>(
        &mut self,
        root: &Root<B>,
        site: &WalkedFile<'_, B>,
    ) -> Result<Option<OpenFile>, AllocError> {
        match self.waiting.take() {
            Some(operand) => entered_by(root, site, &operand),
            None => Ok(None),
        }
    }

    // Walks lines to the next include that stops, or to the end.
    fn walk_lines<B: RootBank>(
        &mut self,
        root: &mut Root<B>,
        site: &WalkedFile<'_, B>,
        asking: &mut Progress<B>,
    ) -> Result<Waypoint, AllocError>
        ensures { IfOk result (λ next. StopsAt (B.at site.now.bank.now) next) }
    {
        'lines: while !self.left.is_empty() {
            if root.is_over() {
                return Ok(Waypoint::End);
            }
            let Some(operand) = self.walk_on(root, site, asking)? else {
                continue;
            };
            match stop_at(root, site, operand, &mut self.waiting)? {
                Waypoint::End => {}
                next => return Ok(next),
            }
        }
        Ok(Waypoint::End)
    }

    // Walks the next lines: gives the operand of the include that they are, if they are one.
    fn walk_on<B: RootBank>(
        &mut self,
        root: &mut Root<B>,
        site: &WalkedFile<'_, B>,
        asking: &mut Progress<B>,
    ) -> Result<Option<IncludeOperand>, AllocError>
        requires { 0 < length self.old.left }
        ensures { OnOk result (length self.new.left < length self.old.left) }
    {
        if let Some((text, behind)) = self.left.first_text() {
            if is_walked(&self.groups) {
                root.emit_unlogged(site, &text, asking)?;
            }
            self.left = jump(root, &self.groups, site.file, behind)?;
            return Ok(None);
        }
        let (line, rest) = self.left.first_line();
        let operand = walk_one(root, &mut self.groups, site, &line)?;
        self.left = jump(root, &self.groups, site.file, rest)?;
        Ok(operand)
    }
}

// The file that an include of this operand enters, if it is there.
fn entered_by<B: RootBank>(
    root: &Root<B>,
    site: &WalkedFile<'_, B>,
    operand: &IncludeOperand,
) -> Result<Option<OpenFile>, AllocError> {
    let asked = ask(root, site, operand)?;
    entered(root, asked.found)
}

// Where an include of this operand stops: at the files that it asks for, if they aren't there, and it waits for them; or at the
// one that it enters.
fn stop_at<B: RootBank>(
    root: &Root<B>,
    site: &WalkedFile<'_, B>,
    operand: IncludeOperand,
    waiting: &mut Option<IncludeOperand>,
) -> Result<Waypoint, AllocError>
    ensures { IfOk result (λ next. StopsAt (B.at site.now.bank.now) next) }
{
    let asked = ask(root, site, &operand)?;
    if !asked.absent.is_empty() {
        *waiting = Some(operand);
        return Ok(Waypoint::Absent(asked.absent));
    }
    match entered(root, asked.found)? {
        Some(open) => Ok(Waypoint::Entered(open)),
        None => Ok(Waypoint::End),
    }
}

// A line that is no text: gives the operand of the include that it is, if it is one that isn't skipped.
fn walk_one<B: RootBank>(
    root: &mut Root<B>,
    groups: &mut Stack<Group>,
    site: &WalkedFile<'_, B>,
    tokens: &FileTokens<'_>,
) -> Result<Option<IncludeOperand>, AllocError> {
    match read(tokens) {
        LineKind::Directed(directive) if is_include(&directive) && is_walked(groups) => {
            root.turn(site.file, &directive)?;
            let operand = root.operand_of(site, &directive)?;
            if root.is_over() {
                return Ok(None);
            }
            Ok(operand)
        }
        _ => {
            walk_line(root, groups, site, tokens)?;
            Ok(None)
        }
    }
}

// Whether it is an include.
fn is_include(directive: &DirectiveLine<'_>) -> bool {
    matches!(directive.kind, DirectiveKind::Alone(Plain::Include))
}

// What an include asks for: the files that aren't there, and the one that is found.
#[derive(Drop)]
struct IncludeSearch<'b> {
    absent: Vec<Name>,
    found: Option<FoundFile<'b>>,
}

// What is asked of a bank by no root: nothing of it is kept.
struct Asking<B: RootBank> {
    progress: Progress<B>,
}

impl<B: RootBank> Drop for Asking<B> {
    fn drop(self) {
        let Asking {
            progress: _progress,
        } = self;
    }
}

impl<B: RootBank> Asking<B> {
    // Nothing was asked. It takes no memory.
    fn new(alloc: Global) -> Asking<B>
        ensures { result.progress ≡ beginning [] }
    {
        Asking {
            progress: Progress::new(alloc, Log::new(alloc)),
        }
    }

    // Nothing was asked, and it is past its limits, so that it logs nothing of what is asked.
    fn past_limits(alloc: Global, file: &FileName) -> Result<Asking<B>, AllocError> {
        let place = Place {
            file: file.clone()?,
            line: 0,
        };
        let mut asking = Asking::new(alloc);
        asking.progress.tell(Item::TooDeep(place))?;
        Ok(asking)
    }

    // The files that were asked for and that aren't there.
    fn absent(self, alloc: Global) -> Result<Vec<Name>, AllocError>
        ensures { IfOk result (λ names. names.items ≡ absent_files self.progress.log) }
    {
        let Asking { progress } = self;
        let (_events, mut log) = progress.into_parts();
        absent(alloc, &log.kept::<B>(alloc)?)
    }
}

// What an include of this operand asks for.
fn ask<'b, B: RootBank>(
    root: &Root<B>,
    site: &WalkedFile<'b, B>,
    operand: &IncludeOperand,
) -> Result<IncludeSearch<'b>, AllocError>
    ensures { let bank = B.at site.now.bank.now in
        IfOk result (λ asked. All (λ name. bank (File name) ≡ None) asked.absent.items) }
{
    let alloc = root.allocator();
    let mut asking = Asking::new(alloc);
    let found = find(site.file, operand, site.bank, &mut asking.progress)?;
    let absent = asking.absent(alloc)?;
    Ok(IncludeSearch { absent, found })
}

// The file that is entered where this one is found, if it is.
fn entered<B: RootBank>(
    root: &Root<B>,
    found: Option<FoundFile<'_>>,
) -> Result<Option<OpenFile>, AllocError> {
    match found {
        Some(FoundFile { name, file }) if !root.is_once(&name) => {
            let file = file.clone()?;
            Ok(Some(OpenFile { name, file }))
        }
        _ => Ok(None),
    }
}
