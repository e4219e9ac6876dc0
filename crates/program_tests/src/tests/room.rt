//! Roots that ask for as many files as there may be.

ghost use Rattle.idl_loader.specs.Holding.{Untold};

use super::support::{ample, loaded, told};
use idl_loader::{Loaded, Loader};
use idl_source::Name;
use std::alloc::{AllocError, Global};
use std::test::Fail;

// A root that includes so many headers between a first and a last line. `a.idl` includes `b.idl`, which defines `A`, and every other file is
// empty.
#[derive(Drop)]
struct Headers<'a> {
    alloc: Global,
    first: &'a str,
    count: usize,
    last: &'a str,
}

impl<'a> Loader for Headers<'a> {
    ghost told = { λ _ _. Untold };

    fn load(&mut self, name: &Name) -> Loaded {
        loaded(match name.as_bytes() {
            b"r.idl" => root(self),
            b"a.idl" => Vec::from_slice(self.alloc, b"#include \"b.idl\"\n"),
            b"b.idl" => Vec::from_slice(self.alloc, b"#define A\n"),
            _ => Ok(Vec::new(self.alloc)),
        })
    }
}

// The lines of the root.
fn root(headers: &Headers<'_>) -> Result<Vec<u8>, AllocError> {
    let mut text = String::from_str(headers.alloc, headers.first)?;
    for number in 0..headers.count {
        write!(text, "#include \"f{number}.idl\"\n")?;
    }
    text.push_str(headers.last)?;
    Vec::from_slice(headers.alloc, text.as_bytes())
}

// The first lines of a root, the second of which begins a group that the first turns away.
const GUARD: &str = "#include \"a.idl\"\n#ifndef A\n";

const TOO_MANY: &str = "2 err idlc: f4093.idl: refused 5 /";

// Words, the first line, how many headers, the last line, and what is given.
static ROWS: [(&str, &str, usize, &str, &str); 3] = [
    // Each header has a copy in the directory, which isn't asked for, since the header is there.
    ("-Iinc r.idl", "", 2_100, "", "0"),
    // With the root and `a.idl` the headers would be too many, but `b.idl` turns them away.
    ("r.idl", GUARD, 4_094, "#endif\n", "0"),
    // These are too many.
    ("r.idl", "#include \"a.idl\"\n", 4_094, "", TOO_MANY),
];

#[test]
fn files_that_are_not_asked_for_take_no_room(rt: HostRuntime) -> Result<(), Fail> {
    let alloc = rt.alloc();
    for (words, first, count, last, want) in ROWS.iter() {
        let headers = Headers {
            alloc,
            first,
            count: *count,
            last,
        };
        let got = told(ample(alloc), words, headers, "")?;
        assert_eq!(rt; got.as_str(), *want);
    }
    Ok(())
}
