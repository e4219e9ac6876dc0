//! What the tests share: the program over files of a text, and rows of what it gives.

ghost use Rattle.idl_loader.specs.Holding.{Untold};

use idl_loader::{Loaded, Loader, Status};
use idl_program::{Devices, run_program};
use idl_source::Name;
use idl_source::devices::{BufferSink, SliceSource};
use std::alloc::{AllocError, Global};
use std::test::Fail;

/// Memory, and how many bytes standard output and standard error take.
#[derive(Clone, Copy)]
pub struct OutputRoom {
    pub alloc: Global,
    pub output: usize,
    pub errors: usize,
}

/// Room for all that is written.
pub fn ample(alloc: Global) -> OutputRoom {
    OutputRoom {
        alloc,
        output: 100_000,
        errors: 100_000,
    }
}

/// Files in a text: each is `NAME: LINE | LINE`, and ` ¶ ` stands between two. `¬` in a line is a carriage return. A file `NAME!` can't be
/// read, and there is no memory for a file `NAME?`.
#[derive(Drop)]
pub struct TextFiles<'a> {
    alloc: Global,
    text: &'a str,
}

impl<'a> TextFiles<'a> {
    pub fn new(alloc: Global, text: &'a str) -> TextFiles<'a> {
        TextFiles { alloc, text }
    }
}

impl<'a> Loader for TextFiles<'a> {
    ghost told = { λ _ _. Untold };

    fn load(&mut self, name: &Name) -> Loaded {
        let name = name.as_bytes();
        for file in self.text.split(" ¶ ") {
            let (title, lines) = file.split_once(": ").unwrap_or((file, ""));
            if title.as_bytes() == name {
                return loaded(file_bytes(self.alloc, lines));
            }
            match title.as_bytes().split_last() {
                Some((&b'!', title)) if title == name => return Loaded::Failed,
                Some((&b'?', title)) if title == name => return Loaded::NoMemory,
                _ => {}
            }
        }
        Loaded::Missing
    }
}

/// The bytes of a file, unless there was no memory for them.
pub fn loaded(bytes: Result<Vec<u8>, AllocError>) -> Loaded {
    match bytes {
        Ok(bytes) => Loaded::Bytes(bytes),
        Err(_) => Loaded::NoMemory,
    }
}

// The bytes of a file.
fn file_bytes(alloc: Global, lines: &str) -> Result<Vec<u8>, AllocError> {
    let mut bytes = Vec::new(alloc);
    if lines.is_empty() {
        return Ok(bytes);
    }
    for line in lines.split(" | ") {
        let line = line.replace(alloc, "¬", "\r")?;
        bytes.extend_from_slice(line.as_bytes())?;
        bytes.push(b'\n')?;
    }
    Ok(bytes)
}

/// What the program gives over files of a text: its status, what it wrote to standard output, and what to standard error, with ` / ` for a
/// newline.
pub fn given(alloc: Global, command: &str, files: &str) -> Result<String, AllocError> {
    let words = command.strip_prefix("idlc").unwrap_or(command);
    told(ample(alloc), words, TextFiles::new(alloc, files), "")
}

/// The same for these words, over the files of a loader and this input.
pub fn told<L: Loader + Drop>(
    room: OutputRoom,
    words: &str,
    loader: L,
    input: &str,
) -> Result<String, AllocError> {
    let list = list_of(room.alloc, words)?;
    let mut devices = Devices {
        loader,
        source: SliceSource::new(input.as_bytes()),
        output: BufferSink::new(room.alloc, room.output)?,
        errors: BufferSink::new(room.alloc, room.errors)?,
    };
    let status = run_program(room.alloc, &list, &mut devices);
    text_of(room.alloc, status, &devices.output, &devices.errors)
}

// The status, and what was written.
fn text_of(
    alloc: Global,
    status: Status,
    output: &BufferSink,
    errors: &BufferSink,
) -> Result<String, AllocError> {
    let mut text = format!(in alloc; "{}", status.code())?;
    push_lines(alloc, " out ", output.as_bytes(), &mut text)?;
    push_lines(alloc, " err ", errors.as_bytes(), &mut text)?;
    Ok(text)
}

// The lines that were written, if any, behind this.
fn push_lines(
    alloc: Global,
    front: &str,
    lines: &[u8],
    text: &mut String,
) -> Result<(), AllocError> {
    if lines.is_empty() {
        return Ok(());
    }
    let lines = String::from_utf8_lossy(alloc, lines)?;
    let lines = lines.replace(alloc, "\n", " /")?;
    text.push_str(front)?;
    text.push_str(lines.as_str())
}

// Words that stand in a text, parted by blanks.
fn list_of<'w>(alloc: Global, words: &'w str) -> Result<Vec<&'w str>, AllocError> {
    let mut list = Vec::new(alloc);
    for word in words.split(' ') {
        if !word.is_empty() {
            list.push(word)?;
        }
    }
    Ok(list)
}

/// Each row of these tables has the program with its words, files, and what it gives, with ` => ` between.
pub fn are_given(alloc: Global, tables: &[&str]) -> Result<(), Fail> {
    for table in tables {
        for row in table.split('\n') {
            is_given(alloc, row)?;
        }
    }
    Ok(())
}

/// The same of one row.
pub fn is_given(alloc: Global, row: &str) -> Result<(), Fail> {
    let (command, files, want) = parts_of(row);
    let found = given(alloc, command, files)?;
    if found.as_str() == want {
        return Ok(());
    }
    Err(Fail::new(format_args!("{found}, of {row}")))
}

/// The three parts of a row.
pub fn parts_of(row: &str) -> (&str, &str, &str) {
    let (words, rest) = row.split_once(" => ").unwrap_or((row, ""));
    let (files, want) = rest.split_once(" => ").unwrap_or((rest, ""));
    (words, files, want)
}
