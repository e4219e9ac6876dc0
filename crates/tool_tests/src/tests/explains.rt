//! What `idltool explain` answers, and words that the program doesn't take.

use super::support::{are_given, are_given_so, given, is_given, told};
use std::alloc::Global;
use std::test::Fail;

static ROWS: [&str; 4] = [
    "idltool explain E35 =>  => 0 out E35: `T` was used in this scope before, as a name of another one /    typedef \
     long T; /    module M { typedef T U; typedef short T; }; /a.idl:2: E35 T      mended: /    typedef long T; /    \
     module M { typedef ::T U; typedef short T; }; /Declare it before the use, write the use in full with `::` before \
     it, or give it another name. Upper and lower case make no difference. /",
    "idltool explain w80 =>  => 0 out W80: the interface `F` is declared forward and never defined /    \
     interface F; /a.idl:1: W80 F      mended: /    interface F { }; /It may stay so: no code can call it through this \
     file. Include the file that defines it. /",
    // Of several words each is explained, or none where one names nothing.
    "idltool explain 7 w80 =>  => 0 out refused 7: no such root /    listing a.idl /refused 7      mended: /    root \
     a.idl /    listing a.idl /Questions are for roots: say root NAME first. / /W80: the interface `F` is declared \
     forward and never defined /    interface F; /a.idl:1: W80 F      mended: /    interface F { }; /It may stay so: \
     no code can call it through this file. Include the file that defines it. /",
    "idltool explain E35 E99 =>  => 2 err idltool: E99: no code and no refusal /",
];

#[test]
fn a_word_is_explained(rt: HostRuntime) -> Result<(), Fail> {
    are_given(rt.alloc(), &ROWS)?;
    let none = "idltool explain @ =>  => 2 err idltool: @: no code and no refusal /";
    are_given_so(rt.alloc(), "E99 E3 11 07", none)?;
    let alike = given(rt.alloc(), "idltool explain e35", "")?;
    let upper = given(rt.alloc(), "idltool explain E35", "")?;
    assert_eq!(rt; alike.as_str(), upper.as_str());
    Ok(())
}

#[test]
fn all_are_told_without_a_word(rt: HostRuntime) -> Result<(), Fail> {
    let got = given(rt.alloc(), "idltool explain", "")?;
    assert_eq!(rt; got.split(" /").count(), 71);
    assert!(rt;
        got.starts_with("0 out E01: `TOKEN` begins no token of IDL /E02: the literal TOKEN ")
    );
    assert!(rt; got.ends_with(" /refused 10: input ended inside a command /"));
    Ok(())
}

#[test]
fn wrong_words_are_told(rt: HostRuntime) -> Result<(), Fail> {
    let wrong =
        ", explain -l, lsp --pipe, help E35, deps, deps -t a.idl, check, check -d a.idl, E35, deps --session a.idl, json, diff a";
    for words in wrong.split(',') {
        tells_its_usage(rt.alloc(), words, "2 err ")?;
    }
    let shown =
        "--help, -h, help, help check, explain -h, deps -h, check -h, json -h, diff -h, lsp -h";
    for words in shown.split(',') {
        tells_its_usage(rt.alloc(), words, "0 out ")?;
    }
    is_given(rt.alloc(), "idltool --version =>  => 0 out idltool 0.1.0 /")?;
    // An editor is served by what is handed in, which ends the program.
    is_given(rt.alloc(), "idltool lsp =>  => 1")?;
    is_given(rt.alloc(), "idltool lsp --stdio =>  => 1")
}

// What is given begins so, and tells how the program is used.
fn tells_its_usage(alloc: Global, words: &str, begin: &str) -> Result<(), Fail> {
    let command = format!(in alloc; "idltool {words}")?;
    let found = given(alloc, command.as_str(), "a.idl: typedef long T;")?;
    if found.starts_with(begin) && found.contains("Usage: idltool") {
        return Ok(());
    }
    Err(Fail::new(format_args!("{words}: {found}")))
}

// Where the output takes no more, the program fails, and says so.
#[test]
fn a_closed_output_is_told(rt: HostRuntime) -> Result<(), Fail> {
    let words = "explain E35, deps a.idl, check b.idl, json b.idl, diff a.idl c.idl, deps -h";
    for words in words.split(',') {
        tells_a_closed_output(rt.alloc(), words)?;
    }
    Ok(())
}

fn tells_a_closed_output(alloc: Global, words: &str) -> Result<(), Fail> {
    let files = "a.idl: typedef long T; ¶ b.idl: typedef No T; ¶ c.idl";
    let found = told(alloc, words, files, 4)?;
    if found.starts_with("2 out ") && found.ends_with(" err idltool: write failed /") {
        return Ok(());
    }
    Err(Fail::new(format_args!("{words}: {found}")))
}
