//! What is found is told, of each file of which it has become another.

ghost use Rattle.std.specs.Prelude.{◌≡◌, OnOk};
ghost use Rattle.idl_server.specs.Files.{IsKept};
ghost use Rattle.idl_editor.specs.messages.Said.{said_by};
ghost use Rattle.idl_server.specs.Messages.{answered};
ghost use Rattle.idl_server.specs.Published.{ArePublished};

use crate::workspace::Workspace;
use idl_editor::documents::{uri_for, version_for};
use idl_editor::messages::Outbox;
use idl_editor::told::found_params;
use idl_project::Finding;
use idl_source::Name;
use indexmap::{IndexMap, IndexSet};
use std::alloc::{AllocError, Global};

/// What was told last of each file of which anything was, as text; in which files each root finds anything; and of which files it is to
/// be told anew.
#[derive(Drop)]
pub(crate) struct PublishedDiagnostics {
    texts: IndexMap<Name, Vec<u8>>,
    finders: IndexMap<Name, IndexSet<Name>>,
    pending: IndexSet<Name>,
}

impl PublishedDiagnostics {
    /// Nothing was told.
    pub fn new(alloc: Global) -> PublishedDiagnostics {
        PublishedDiagnostics {
            texts: IndexMap::new(alloc),
            finders: IndexMap::new(alloc),
            pending: IndexSet::new(alloc),
        }
    }

    /// Tells what is found of each file of which that has become another since it was told last. Where memory is refused, what is left is
    /// told the next time.
    pub fn publish(&mut self, workspace: &mut Workspace, out: &mut Outbox) -> Result<(), AllocError>
        ensures kept { IsKept workspace.old workspace.new }
        ensures published { OnOk result (ArePublished workspace.new
            (said_by out.old) (said_by out.new)) }
        ensures answers { OnOk result (answered (said_by out.new) ≡ answered (said_by out.old)) }
    {
        self.gather(workspace)?;
        workspace.touched.clear();
        workspace.dropped.clear();
        'files: for _ in 0..u64::MAX {
            let Some(name) = self.next_pending() else {
                return Ok(());
            };
            self.publish_file(workspace, &name, out)?;
            self.pending.swap_remove(&name);
        }
        Ok(())
    }

    // A file of which it is to be told anew what is found.
    fn next_pending(&self) -> Option<Name> {
        match self.pending.last() {
            Some(name) => Some(name.copied()),
            None => None,
        }
    }

    // Adds the files in which touched and dropped roots found anything, or find it now.
    fn gather(&mut self, workspace: &Workspace) -> Result<(), AllocError> {
        'dropped: for root in workspace.dropped.iter() {
            self.add_found(root)?;
            self.finders.shift_remove(root);
        }
        'touched: for root in workspace.touched.iter() {
            self.add_found(root)?;
            let findings = match workspace.session.findings(root.as_bytes()) {
                Some(findings) => findings,
                None => &[],
            };
            self.keep_found(root, findings)?;
            self.add_found(root)?;
        }
        Ok(())
    }

    // Adds the files in which a root finds anything, as it was kept last.
    fn add_found(&mut self, root: &Name) -> Result<(), AllocError> {
        match self.finders.get(root) {
            Some(files) => add_all(&mut self.pending, files),
            None => Ok(()),
        }
    }

    // Keeps in which files a root finds anything.
    fn keep_found(&mut self, root: &Name, findings: &[Finding]) -> Result<(), AllocError> {
        let files = files_of(*self.finders.allocator(), findings)?;
        self.finders.insert(root.copied(), files)?;
        Ok(())
    }

    // Tells what is found in a file, if that is another than was told.
    fn publish_file(
        &mut self,
        workspace: &Workspace,
        name: &Name,
        out: &mut Outbox,
    ) -> Result<(), AllocError>
        ensures published { OnOk result (ArePublished workspace.now
            (said_by out.old) (said_by out.new)) }
        ensures answers { OnOk result (answered (said_by out.new) ≡ answered (said_by out.old)) }
    {
        let list = workspace.diagnostics_in(name)?;
        let text = list.to_vec(out.alloc())?;
        if self.has_told(name, &text) {
            return Ok(());
        }
        let uri = uri_for(&workspace.documents, &workspace.folders, name)?;
        let version = version_for(&workspace.documents, name);
        let params = found_params(out.alloc(), uri, version, list)?;
        out.tell("textDocument/publishDiagnostics", &params)?;
        self.texts.insert(name.copied(), text)?;
        Ok(())
    }

    // Whether this is what was told last of a file. Of a file of which nothing was, that was no finding.
    fn has_told(&self, name: &Name, text: &[u8]) -> bool {
        match self.texts.get(name) {
            Some(told) => told.as_slice() == text,
            None => text == b"[]".as_slice(),
        }
    }
}

// The files that findings are in.
fn files_of(alloc: Global, findings: &[Finding]) -> Result<IndexSet<Name>, AllocError> {
    let mut files = IndexSet::new(alloc);
    'findings: for finding in findings {
        files.insert(finding.place.file.name())?;
    }
    Ok(files)
}

fn add_all(files: &mut IndexSet<Name>, more: &IndexSet<Name>) -> Result<(), AllocError> {
    'more: for name in more.iter() {
        files.insert(name.copied())?;
    }
    Ok(())
}
