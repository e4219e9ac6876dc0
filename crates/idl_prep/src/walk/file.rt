//! The lines of a file, with the files that they include.

ghost use Rattle.std.specs.Prelude.{◌≡◌, OnOk};
ghost use Rattle.idl_prep.specs.Pass.{entered};
ghost use Rattle.idl_prep.specs.Root.{enter, walk_file};
ghost use Rattle.idl_prep.specs.State.{ended, onward};

use crate::directives::inclusion::Inclusion;
use crate::walk::jump::jump;
use crate::walk::pass::{end_file, walk_line, walk_texts};
use crate::walk::root::Root;
use crate::walk::walked_file::WalkedFile;
use idl_base::Stack;
use idl_event::{Event, Item, LexedFile, RootBank};
use std::alloc::AllocError;

/// A file of these tokens, in which so many files may still be entered inside one another.
#[cycle(files)]
pub fn walk_file<B: RootBank>(
    root: &mut Root<B>,
    room: usize,
    site: &WalkedFile<'_, B>,
    file: &LexedFile,
) -> Result<(), AllocError>
    ensures { let walk = walk_file (enter room) site.now.file.now file.now in
        OnOk result (ended root.new ≡ onward (B.at site.now.bank.now) walk root.old) }
{
    let mut groups = Stack::new(root.allocator());
    let mut left = file.lines();
    'lines: while !left.is_empty() {
        if root.is_over() {
            return Ok(());
        }
        if let Some((text, behind)) = left.first_text() {
            walk_texts(root, &groups, site, &text)?;
            left = jump(root, &groups, site.file, behind)?;
            continue;
        }
        let (line, rest) = left.first_line();
        let inclusion = walk_line(root, &mut groups, site, &line)?;
        enter_file(root, room, inclusion, site.bank)?;
        left = jump(root, &groups, site.file, rest)?;
    }
    end_file(root, groups, site.file)
}

// A file is entered, if there is one, unless it is too deep, and left when its lines are done.
#[cycle(files)]
fn enter_file<B: RootBank>(
    root: &mut Root<B>,
    room: usize,
    inclusion: Option<Inclusion<'_>>,
    bank: &B,
) -> Result<(), AllocError>
    ensures { OnOk result (ended root.new
        ≡ onward (B.at bank.now) (entered (enter room) inclusion.entry) root.old) }
{
    let Some(inclusion) = inclusion else {
        return Ok(());
    };
    if room == 0 {
        return root.tell(Item::TooDeep(inclusion.into_place()));
    }
    let file = &inclusion.name;
    root.tell(Item::Kept(Event::Entered(file.clone()?)))?;
    walk_file(root, room - 1, &WalkedFile { file, bank }, inclusion.file)?;
    root.tell(Item::Kept(Event::Left(file.clone()?)))
}
