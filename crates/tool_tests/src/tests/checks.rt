//! What `idltool check` tells: each finding once, with its line.

use super::support::are_given;
use std::test::Fail;

static ROWS: [&str; 12] = [
    // The line, and marks below the token; of a sound file nothing is told.
    "idltool check shop.idl => shop.idl: #include \"money.idl\" | interface Shop { |     Money price(); |     Mony total(); \
     | }; ¶ money.idl: typedef long Money; => 1 out shop.idl:4:5: error: `Mony` isn't declared here or in a scope around \
     [E30] /    Mony total(); /    ^^^^ /money.idl:1:14: note: near: Money /\nidltool check a.idl => a.idl: typedef long T; => 0",
    // A finding of two roots is told once, where the first is.
    "idltool check a.idl b.idl => a.idl: #include \"h\" | typedef No A; ¶ b.idl: typedef No B; | #include \"h\" ¶ h: \
     typedef Non X; => 1 out h:1:9: error: `Non` isn't declared here or in a scope around [E30] /typedef Non X; /        \
     ^^^ /a.idl:2:9: error: `No` isn't declared here or in a scope around [E30] /typedef No A; /        ^^ /b.idl:1:9: \
     error: `No` isn't declared here or in a scope around [E30] /typedef No B; /        ^^ /",
    // Of two findings with one row both are told.
    "idltool check a.idl => a.idl: typedef No A; typedef No B; => 1 out a.idl:1:9: error: `No` isn't declared here or in a \
     scope around [E30] /typedef No A; typedef No B; /        ^^ /a.idl:1:23: error: `No` isn't declared here or in a scope \
     around [E30] /typedef No A; typedef No B; /                      ^^ /",
    // A warning leaves the status 0.
    "idltool check w.idl => w.idl: interface F; => 0 out w.idl:1:11: warning: the interface `F` is declared forward and never \
     defined [W80] /interface F; /          ^ /",
    // Where warnings count, it is 1.
    "idltool check --werror w.idl => w.idl: interface F; => 1 out w.idl:1:11: warning: the interface `F` is declared forward \
     and never defined [W80] /interface F; /          ^ /\nidltool check --werror a.idl => a.idl: typedef long T; => 0",
    // After a file with which there is trouble the others are told.
    "idltool check a.idl b.idl c.idl => a.idl! ¶ b.idl: typedef No X; ¶ c.idl: #include \"a.idl\" => 2 out b.idl:1:9: error: `No` \
     isn't declared here or in a scope around [E30] /typedef No X; /        ^^ / err idltool: a.idl: cannot read /idltool: a.idl: \
     cannot read /\nidltool check ä.idl b.idl => b.idl => 2 err idltool: ä.idl: refused 2: name not allowed /\nidltool json a.idl => \
     a.idl! => 2 err idltool: a.idl: cannot read /",
    // What isn't there has no line.
    "idltool check z.idl => a.idl => 1 out z.idl: error: the file z.idl isn't found [E10] /",
    // A token that comes of a macro, and one that goes over joined lines, have no column.
    "idltool check a.idl => a.idl: #define T No | typedef T X; => 1 out a.idl:2: error: `No` isn't declared here or in a scope \
     around [E30] /typedef T X; /\nidltool check a.idl => a.idl: typedef N\\ | o X; => 1 out a.idl:1: error: `No` isn't \
     declared here or in a scope around [E30] /typedef N\\ /",
    // Tokens on lines that are joined have those of their own lines.
    "idltool check a.idl => a.idl: typedef No A;\\ |  typedef No B; typedef Non C; => 1 out a.idl:1:9: error: `No` isn't declared \
     here or in a scope around [E30] /typedef No A;\\ /        ^^ /a.idl:2:10: error: `No` isn't declared here or in a scope \
     around [E30] / typedef No B; typedef Non C; /         ^^ /a.idl:2:24: error: `Non` isn't declared here or in a scope \
     around [E30] / typedef No B; typedef Non C; /                       ^^^ /",
    // A tab stays a tab, another white byte is a blank, and what no terminal can show goes out by its number.
    "idltool check a.idl => a.idl: \ttypedef\tNo X; // ¬. => 1 out a.idl:1:10: error: `No` isn't declared here or in a scope \
     around [E30] /\ttypedef\tNo X; //  . /\t       \t^^ /\nidltool check a.idl => a.idl: /* \u{1b}\u{202e} */ typedef No X; \
     => 1 out a.idl:1:20: error: `No` isn't declared here or in a scope around [E30] //* \\x1b\\xe2\\x80\\xae */ typedef No \
     X; /                               ^^ /",
    // A character is shown, and has one mark; a byte of it that is a token of its own has its number.
    "idltool check a.idl => a.idl: /* Grüße 😀 */ typedef No X; => 1 out a.idl:1:28: error: `No` isn't declared here or in a \
     scope around [E30] //* Grüße 😀 */ typedef No X; /                      ^^ /\nidltool check a.idl => a.idl: typedef long \
     ä; => 1 out a.idl:1:14: error: `\\xc3` begins no token of IDL [E01] /typedef long ä; /             ^ /",
    // Of several second places three are told, and how many more there are.
    "idltool check a.idl => a.idl: interface A { typedef long T; }; | interface B { typedef long T; }; | interface C \
     { typedef long T; }; | interface D { typedef long T; }; | interface E : A, B, C, D { attribute T x; }; => 1 out \
     a.idl:5:38: error: `T` means different things in different bases [E31] /interface E : A, B, C, D { attribute T \
     x; }; /                                     ^ /a.idl:1:28: note: declared: T /a.idl:2:28: note: \
     declared: T /a.idl:3:28: note: declared: T, and 1 more /",
];

#[test]
fn findings_are_told_with_their_lines(rt: HostRuntime) -> Result<(), Fail> {
    are_given(rt.alloc(), &ROWS)
}
