//! Each name is tried once, over all roots.

ghost use Rattle.idl_loader.specs.Holding.{Untold};

use super::support::{TextFiles, ample, parts_of, told};
use idl_loader::{Loaded, Loader};
use idl_source::Name;
use std::test::Fail;

// Files of which none can be read a second time, nor be looked for.
#[derive(Drop)]
struct Once<'a> {
    files: TextFiles<'a>,
    tried: Vec<Name>,
}

impl<'a> Loader for Once<'a> {
    ghost told = { λ _ _. Untold };

    fn load(&mut self, name: &Name) -> Loaded {
        if self.tried.contains(name) {
            return Loaded::Failed;
        }
        match self.tried.push(name.copied()) {
            Ok(()) => self.files.load(name),
            Err(_) => Loaded::NoMemory,
        }
    }
}

// Words, files, and what is given.
static ROWS: [&str; 6] = [
    // A header that roots share.
    "a.idl b.idl => a.idl: #include \"h.idl\" ¶ b.idl: #include \"h.idl\" | #include \"h.idl\" ¶ h.idl: #pragma once | \
     typedef long T; => 0",
    // A root that is a header of the root before it.
    "a.idl h.idl => a.idl: #include \"h.idl\" ¶ h.idl: typedef long T; => 0",
    // What is missing beside the file and there in a directory; and what is missing everywhere.
    "-Iinc a.idl b.idl => a.idl: #include \"h.idl\" | #include \"x.idl\" ¶ b.idl: #include <h.idl> | #include \
     \"x.idl\" ¶ inc/h.idl: typedef long T; => 1 err a.idl:2: E10 \"x.idl\" /b.idl:2: E10 \"x.idl\" /",
    // A root that is missing, as it was when it was included.
    "a.idl x.idl => a.idl: #include \"x.idl\" => 1 err a.idl:1: E10 \"x.idl\" /x.idl:0: E10 x.idl /",
    // A file that defines the name of the next one.
    "a.idl => a.idl: #include \"m.idl\" | #include M | #ifdef N | #include N | #endif ¶ m.idl: #define M \"n.idl\" ¶ \
     n.idl: #define N \"zz.idl\" | #include \"o.idl\" ¶ o.idl: #undef M => 1 err a.idl:4: E10 \"zz.idl\" /",
    // What isn't asked for any more once the file before it is there isn't tried.
    "a.idl => a.idl: #include \"m.idl\" | #ifndef M | #include \"b.idl\" | #endif ¶ m.idl: #define M ¶ b.idl! => 0",
];

#[test]
fn a_name_is_tried_once(rt: HostRuntime) -> Result<(), Fail> {
    for row in ROWS.iter() {
        let (words, files, want) = parts_of(row);
        let loader = Once {
            files: TextFiles::new(rt.alloc(), files),
            tried: Vec::new(rt.alloc()),
        };
        let got = told(ample(rt.alloc()), words, loader, "")?;
        assert_eq!(rt; got.as_str(), want, "{row}");
    }
    Ok(())
}
