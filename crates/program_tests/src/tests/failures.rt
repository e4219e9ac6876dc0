//! What ends the program: files that can't be read, and devices that fail.

use super::support::{OutputRoom, TextFiles, are_given, told};
use std::test::Fail;

static ROWS: [&str; 3] = [
    "idlc a.idl => a.idl! => 2 err idlc: a.idl: cannot read /\nidlc a.idl => a.idl? => 2 err idlc: a.idl: refused 9 /\n\
     idlc a.idl => a.idl: #include \"b.idl\" ¶ b.idl! => 2 err idlc: b.idl: cannot read /",
    // A file that isn't asked for any more once those before it are there ends nothing.
    "idlc -d a.idl => a.idl: #include \"m.idl\" | #ifdef M | #include \"b.idl\" | #endif ¶ b.idl! => 1 err a.idl:1: \
     E10 \"m.idl\" /\nidlc -d a.idl => a.idl: #include \"m.idl\" | #ifndef M | #include \"b.idl\" | #endif ¶ m.idl: \
     #define M ¶ b.idl! => 0",
    // The first trouble in the order of asking is told.
    "idlc a.idl => a.idl: #include \"b.idl\" | #include \"c.idl\" ¶ b.idl! ¶ c.idl? => 2 err idlc: b.idl: cannot read \
     /\nidlc a.idl b.idl => a.idl: typedef T X; ¶ b.idl! => 2 err idlc: b.idl: cannot read /",
];

#[test]
fn loaders_fail_so(rt: HostRuntime) -> Result<(), Fail> {
    are_given(rt.alloc(), &ROWS)
}

// Words, what each sink takes, and what is given in the end.
static FULL: [(&str, usize, usize, &str); 6] = [
    (
        "-d a.idl",
        15,
        99,
        "2 out typedef long X; err idlc: write failed /",
    ),
    ("-d a.idl", 0, 5, "2 err idlc:"),
    ("b.idl", 99, 10, "2 err b.idl:1: E"),
    ("b.idl", 99, 0, "2"),
    ("--session", 3, 99, "2 out wor err idlc: write failed /"),
    ("--version", 3, 99, "2 out idl err idlc: write failed /"),
];

#[test]
fn sinks_fail_so(rt: HostRuntime) -> Result<(), Fail> {
    for (words, output, errors, want) in FULL.iter() {
        let room = OutputRoom {
            alloc: rt.alloc(),
            output: *output,
            errors: *errors,
        };
        let loader = TextFiles::new(rt.alloc(), "a.idl: typedef long X; ¶ b.idl: typedef T X;");
        let got = told(room, words, loader, "work\n")?;
        assert_eq!(rt; got.as_str(), *want);
    }
    Ok(())
}
