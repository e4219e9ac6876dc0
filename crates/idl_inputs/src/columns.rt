//! Where tokens begin that are found in files, for who asks for many of them.

ghost use Rattle.std.specs.Prelude.{◌≡◌, IfOk};
ghost use Rattle.std.specs.FinMap as finite;
ghost use Rattle.std.specs.Option.{option_copied};
ghost use Rattle.idl_inputs.specs.Columns.{column_at};

use crate::bank::SessionBank;
use idl_fault::{FileName, Place};
use idl_source::Line;
use idl_text::ChunkColumns;
use indexmap::IndexMap;
use std::alloc::{AllocError, Global};
use std::marker::Model;

// A chunk of a file, by how many lines of the file are before it.
#[derive(PartialEq, Eq, Hash, Drop)]
struct ChunkPlace {
    file: FileName,
    before: usize,
}

/// Columns of tokens in the files of a bank. A chunk of a file is laid out when the first of its tokens is asked for, and once. To every
/// contract it is the files.
pub struct Columns<'a> {
    alloc: Global,
    bank: &'a SessionBank,
    chunks: IndexMap<ChunkPlace, ChunkColumns<'a>>,
}

impl<'a> Model for Columns<'a> {
    ghost use Rattle.idl_source.specs.texts.Texts.{Texts, texts_code};
    ghost use Rattle.idl_inputs.specs.Columns.{AreOfFiles};

    ghost Value = { Texts };

    ghost coded = { texts_code };

    ghost view = { λ columns. columns.bank.now.files };

    ghost invariant = { λ columns. AreOfFiles columns.bank.now.files columns.chunks.entries };
}

impl<'a> Drop for Columns<'a> {
    fn drop(self) {
        let Columns {
            alloc: _alloc,
            bank: _bank,
            chunks: _chunks,
        } = self;
    }
}

impl<'a> Columns<'a> {
    /// Before the first is asked for.
    pub fn new(alloc: Global, bank: &'a SessionBank) -> Columns<'a>
        ensures { result ≡ bank.now.files }
    {
        Columns {
            alloc,
            bank,
            chunks: IndexMap::new(alloc),
        }
    }

    /// How many bytes of its line are before a token of a file, by its place, its number there and its spelling.
    pub fn column(
        &mut self,
        place: &Place,
        number: Option<usize>,
        text: &[u8],
    ) -> Result<Option<usize>, AllocError>
        ensures column { IfOk result (λ column.
            column ≡ column_at self.old place.now number text.now) }
        ensures same { self.new ≡ self.old }
    {
        let bank = self.bank;
        let Some(file) = bank.lexed(&place.file) else {
            return Ok(None);
        };
        let chunk = ChunkPlace {
            file: place.file.clone()?,
            before: file.lines_before(place.line),
        };
        if let Some(columns) = self.chunks.get(&chunk) {
            return Ok(columns.column(place.line, number, text));
        }
        let columns = file.chunk_columns(self.alloc, place.line)?;
        let column = columns.column(place.line, number, text);
        self.chunks.insert(chunk, columns)?;
        Ok(column)
    }

    /// The lines of the file of this name, or nothing where there is no such file. It takes no memory.
    pub fn file(&self, name: &[u8]) -> Option<&'a [Line]>
        ensures { option_copied result ≡ finite.get self.now name.now }
    {
        match self.bank.files().get(name) {
            Some(file) => Some(file.lines()),
            None => None,
        }
    }

    /// Where memory comes from, for what a caller has to hand in.
    pub fn allocator(&self) -> Global {
        self.alloc
    }
}
