//! Edits of files that are done as one: each root is compiled once for all of them, a file that is again as it was is no work, and an
//! edit that is refused takes back those before it.

use super::sessions::answers;
use idl_session::{FileEdit, Session, Span};
use idl_source::cut;
use std::alloc::{AllocError, Global};
use std::test::Fail;

// Two roots, of which the first alone asks for the second file.
static ROOTS: &str =
    "put x.h 1\ntypedef long X;\nput y.h 1\ntypedef long Y;\nput a.idl 2\n#include \"x.h\"\n#include \"y.h\"\nput b.idl \
     1\n#include \"x.h\"\nroot a.idl\nroot b.idl\n";

// The edit of a name alone removes its file, and a line behind a name is put in place of it, or before its lines behind ` + `.
fn edit_of<'a>(alloc: Global, words: &'a str) -> Result<FileEdit<'a>, AllocError> {
    let span = Span { from: 1, del: 0 };
    let (name, text) = words.split_once(' ').unwrap_or((words, ""));
    let name = name.as_bytes();
    Ok(match text.strip_prefix("+ ") {
        Some(text) => FileEdit::Splice(name, span, cut(alloc, text.as_bytes())?),
        None if text.is_empty() => FileEdit::Remove(name),
        None => FileEdit::Put(name, cut(alloc, text.as_bytes())?),
    })
}

fn edits_of<'a>(alloc: Global, words: &'a str) -> Result<Vec<FileEdit<'a>>, AllocError> {
    let mut edits = Vec::new(alloc);
    for edit in words.split(" · ") {
        edits.push(edit_of(alloc, edit)?)?;
    }
    Ok(edits)
}

// Behind these edits so many roots were expanded anew, or that one of them is refused by that number; the second root is such a row.
fn comes_to(alloc: Global, words: &str, want: (u64, usize, u8), row: &str) -> Result<(), Fail> {
    let mut session = Session::new(alloc);
    answers(alloc, &mut session, ROOTS, "ok\nok\nok\nok\nok\nok\n")?;
    let edits = edits_of(alloc, words)?;
    let told = match session.batch(edits) {
        Ok(work) => (work.expanded, 0, 0),
        Err((at, refusal)) => (0, at, refusal.number()),
    };
    if told != want {
        return Err(Fail::new(format_args!("{words}: {told:?}, not {want:?}")));
    }
    answers(alloc, &mut session, "dump b.idl\n", row)
}

#[test]
fn edits_of_files_are_done_as_one(rt: HostRuntime) -> Result<(), Fail> {
    let (short, long) = ("rows 1\ntypedef short X;\n", "rows 1\ntypedef long X;\n");
    let alloc = rt.alloc();
    comes_to(alloc, "x.h typedef short X; · y.h ;", (2, 0, 0), short)?;
    comes_to(
        alloc,
        "x.h · y.h + ; · x.h typedef long X;",
        (1, 0, 0),
        long,
    )?;
    comes_to(alloc, "x.h typedef short X; · a\n ;", (0, 1, 2), long)?;
    comes_to(alloc, "x.h typedef short X; · y.h · y.h", (0, 2, 3), long)
}
