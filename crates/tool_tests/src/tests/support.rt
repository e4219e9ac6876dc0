//! What the tests share: the program over files of a text, and rows of what it gives.

ghost use Rattle.idl_loader.specs.Holding.{Untold};

use idl_loader::{Loaded, Loader, PathLoader, Service, ServiceFault, Status};
use idl_source::devices::{BufferSink, SliceSource};
use idl_source::{Name, Sink, Source};
use idl_tool::idl_driver::Devices;
use idl_tool::run_tool;
use std::alloc::{AllocError, Global};
use std::test::Fail;

// Files in a text: each is `NAME: LINE | LINE`, and ` ¶ ` stands between two. `¬` in a line is a carriage return. A file `NAME!` can't be read.
#[derive(Drop)]
pub struct TextFiles<'a> {
    pub alloc: Global,
    pub text: &'a str,
}

impl<'a> TextFiles<'a> {
    // The file of a name.
    fn find(&self, name: &[u8]) -> Loaded {
        for file in self.text.split(" ¶ ") {
            let (title, lines) = file.split_once(": ").unwrap_or((file, ""));
            if title.as_bytes() == name {
                return match file_bytes(self.alloc, lines) {
                    Ok(bytes) => Loaded::Bytes(bytes),
                    Err(_) => Loaded::NoMemory,
                };
            }
            match title.as_bytes().split_last() {
                Some((&b'!', title)) if title == name => return Loaded::Failed,
                _ => {}
            }
        }
        Loaded::Missing
    }
}

impl<'a> Loader for TextFiles<'a> {
    ghost told = { λ _ _. Untold };

    fn load(&mut self, name: &Name) -> Loaded {
        self.find(name.as_bytes())
    }
}

impl<'a> PathLoader for TextFiles<'a> {
    ghost told_of = { λ _ _. Untold };

    fn load_path(&mut self, path: &[u8]) -> Loaded {
        self.find(path)
    }
}

// The bytes of a file.
fn file_bytes(alloc: Global, lines: &str) -> Result<Vec<u8>, AllocError> {
    let mut bytes = Vec::new(alloc);
    if lines.is_empty() {
        return Ok(bytes);
    }
    for line in lines.split(" | ") {
        let line = line.replace(alloc, "¬", "\r")?;
        bytes.extend_from_slice(line.as_bytes())?;
        bytes.push(b'\n')?;
    }
    Ok(bytes)
}

// Serves an editor as where no message comes.
#[derive(Drop)]
struct NoMessages;

impl Service for NoMessages {
    fn serve<L: PathLoader, S: Source, O: Sink>(
        &self,
        _loader: &mut L,
        _source: &mut S,
        _output: &mut O,
    ) -> Result<Status, ServiceFault> {
        Ok(Status::Faulty)
    }
}

/// What the program gives over files of a text: its status, what it wrote to standard output, and what to standard error, with ` / ` for a
/// newline.
pub fn given(alloc: Global, command: &str, files: &str) -> Result<String, AllocError> {
    let words = command.strip_prefix("idltool").unwrap_or(command);
    told(alloc, words, files, 100_000)
}

/// The same for these words, with so many bytes of room for standard output.
pub fn told(alloc: Global, words: &str, files: &str, room: usize) -> Result<String, AllocError> {
    let list = list_of(alloc, words)?;
    let mut devices = Devices {
        loader: TextFiles { alloc, text: files },
        source: SliceSource::new(b""),
        output: BufferSink::new(alloc, room)?,
        errors: BufferSink::new(alloc, 100_000)?,
    };
    let status = run_tool(alloc, &list, &NoMessages, &mut devices);
    text_of(alloc, status, &devices.output, &devices.errors)
}

// The status, and what was written.
fn text_of(
    alloc: Global,
    status: Status,
    output: &BufferSink,
    errors: &BufferSink,
) -> Result<String, AllocError> {
    let mut text = format!(in alloc; "{}", status.code())?;
    push_lines(alloc, " out ", output.as_bytes(), &mut text)?;
    push_lines(alloc, " err ", errors.as_bytes(), &mut text)?;
    Ok(text)
}

// The lines that were written, if any, behind this.
fn push_lines(
    alloc: Global,
    front: &str,
    lines: &[u8],
    text: &mut String,
) -> Result<(), AllocError> {
    if lines.is_empty() {
        return Ok(());
    }
    let lines = String::from_utf8_lossy(alloc, lines)?;
    let lines = lines.replace(alloc, "\n", " /")?;
    text.push_str(front)?;
    text.push_str(lines.as_str())
}

// Words that stand in a text, parted by blanks.
fn list_of<'w>(alloc: Global, words: &'w str) -> Result<Vec<&'w str>, AllocError> {
    let mut list = Vec::new(alloc);
    for word in words.split(' ') {
        if !word.is_empty() {
            list.push(word)?;
        }
    }
    Ok(list)
}

/// Each row of these tables has the program with its words, files, and what it gives, with ` => ` between.
pub fn are_given(alloc: Global, tables: &[&str]) -> Result<(), Fail> {
    for table in tables {
        for row in table.split('\n') {
            is_given(alloc, row)?;
        }
    }
    Ok(())
}

/// The same of one row.
pub fn is_given(alloc: Global, row: &str) -> Result<(), Fail> {
    let (command, rest) = row.split_once(" => ").unwrap_or((row, ""));
    let (files, want) = rest.split_once(" => ").unwrap_or((rest, ""));
    let found = given(alloc, command, files)?;
    if found.as_str() == want {
        return Ok(());
    }
    Err(Fail::new(format_args!("{found}, of {row}")))
}

/// The same of a row in which each of these names, with blanks between, stands for `@`.
pub fn are_given_so(alloc: Global, names: &str, row: &str) -> Result<(), Fail> {
    for name in names.split(' ') {
        let row = row.replace(alloc, "@", name)?;
        is_given(alloc, row.as_str())?;
    }
    Ok(())
}
