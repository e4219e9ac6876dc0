//! Words and files with what the program writes of them.

use super::support::{are_given, given};
use std::test::Fail;

// The rules of the options, each with the least files that show it.
static ROWS: [&str; 5] = [
    "idlc -DN=long -d a.idl => a.idl: typedef N X; => 0 out typedef long X; /\nidlc -d --listing ./r.idl => r.idl: \
     #include \"s/b.idl\" | typedef B C; ¶ s/b.idl: typedef long B;¬ => 0 out typedef long B; /typedef ::B C; /alias B \
     IDL:B:1.0 tk_alias(IDL:B:1.0,B,tk_long) /alias C IDL:C:1.0 tk_alias(IDL:C:1.0,C,@IDL:B:1.0) /\nidlc w.idl => \
     w.idl: interface F; => 0 err w.idl:1: W80 F /\nidlc z.idl =>  => 1 err z.idl:0: E10 z.idl /\nidlc -U1x a.idl =>  \
     => 2 err idlc: 1x: refused 6 /\nidlc --session a.idl =>  => 2 err idlc: bad arguments /\nidlc =>  => 2 err idlc: \
     bad arguments /\nidlc -d =>  => 2 err idlc: bad arguments /\nidlc --no-such a.idl =>  => 2 err idlc: bad \
     arguments /\nidlc -V =>  => 2 err idlc: bad arguments /\nidlc -h =>  => 2 err idlc: bad arguments /\nidlc \
     --session --session =>  => 2 err idlc: bad arguments /",
    // A body is 1 without a value, empty behind a `=`, and the last of one name stands. All -U come after all -D.
    "idlc -DN -d a.idl => a.idl: const long X = N; => 0 out const long X = 1; /\nidlc -DN= -d a.idl => a.idl: N \
     typedef N long X; => 0 out typedef long X; /\nidlc -DN=short -D N=long -d a.idl => a.idl: typedef N X; => 0 out \
     typedef long X; /\nidlc -UN -DN=long a.idl => a.idl: typedef N X; => 1 err a.idl:1: E30 N /\nidlc -UM a.idl => \
     a.idl: typedef long X; => 0\nidlc -D1x=2 a.idl =>  => 2 err idlc: 1x=2: refused 6 /",
    // Directories are searched in order, behind that of the file itself.
    "idlc -Ip -I q/ -d a.idl => a.idl: #include <b.idl> ¶ q/b.idl: typedef long Q; ¶ p/b.idl: typedef long P; => 0 out \
     typedef long P; /\nidlc -I./q/. -d d/a.idl => d/a.idl: #include \"b.idl\" ¶ q/b.idl: typedef long Q; ¶ d/b.idl: \
     typedef long D; => 0 out typedef long D; /",
    // A FILE named twice, in whatever form, counts once, and each is a root of its own.
    "idlc -d a.idl ./a.idl b.idl x/../a.idl => a.idl: typedef long A; ¶ b.idl: typedef long A; => 0 out typedef long \
     A; /typedef long A; /\nidlc ../a.idl => ../a.idl: typedef T X; => 1 err ../a.idl:1: E30 T /\nidlc a.idl/ => \
     a.idl: typedef long X; => 0\nidlc .. a.idl =>  => 2 err idlc: ..: refused 2 /\nidlc a.idl é.idl =>  => 2 err \
     idlc: é.idl: refused 2 /",
    // Errors of each root in order, and a file that two of them include is loaded once.
    "idlc b.idl a.idl => a.idl: #include \"c.idl\" ¶ b.idl: #include \"c.idl\" ¶ c.idl: typedef T C; => 1 err c.idl:1: \
     E30 T /c.idl:1: E30 T /",
];

#[test]
fn words_give_these_rows(rt: HostRuntime) -> Result<(), Fail> {
    are_given(rt.alloc(), &ROWS)
}

#[test]
fn help_and_version_are_told(rt: HostRuntime) -> Result<(), Fail> {
    let version = given(rt.alloc(), "idlc --version", "")?;
    assert_eq!(rt; version.as_str(), "0 out idlc 0.1.0 /");
    let help = given(rt.alloc(), "idlc --help", "")?;
    assert!(rt; help.contains("-I <DIRECTORY>"));
    assert!(rt; help.starts_with("0 out "));
    Ok(())
}
