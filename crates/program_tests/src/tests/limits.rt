//! What no session of the gate's run shows: an input that ends inside a command, what reaches a limit with many lines and goes past it, and
//! sources of many lines that are made to exhaust a compiler.

use super::sessions::{answers, have_replies};
use idl_session::Session;
use idl_session::Stop::{ReadFailed, WriteFailed};
use std::test::Fail;

#[test]
fn a_last_line_without_newline_counts_if_it_has_a_byte(rt: HostRuntime) -> Result<(), Fail> {
    let mut session = Session::new(rt.alloc());
    answers(rt.alloc(), &mut session, "", "")?;
    answers(rt.alloc(), &mut session, "put a.idl 2\n\na", "ok\n")?;
    let (given, want) = ("put a 1\n\n\nundef X", "ok\nrefused 1\nok\n");
    answers(rt.alloc(), &mut session, given, want)
}

#[test]
fn stops_have_words(rt: HostRuntime) -> Result<(), Fail> {
    let said = format!(in rt.alloc(); "{ReadFailed};{WriteFailed}")?;
    assert_eq!(rt; said.as_str(), "read failed;write failed");
    Ok(())
}

static COMMANDS: [&str; 21] = [
    // The input ends inside a command: that is told before a name that is not allowed.
    "put a.idl 3\ntypedef long X;\ntypedef long X;\n=refused 10",
    "splice a//b 1 0 2\na\n=refused 10",
    "put a.idl 200000`200000×\n`\n=ok",
    "put a.idl 200001`200001×\n`\n=refused 5",
    "put a//b 200001`200001×\n`\n=refused 2",
    "splice a.idl 1 0 200001`200001×\n`\n=refused 3",
    "put a.idl 1\n`4096×x`\n=ok",
    "put a.idl 1\n`4097×x`\n=refused 5",
    "put a.idl 2\n`4097×x`\n=refused 10",
    "define X `4096×x`\n=ok",
    "define X `4097×x`\n=refused 5",
    "define 1x `4097×x`\n=refused 5",
    "search`256× d`\n=ok",
    "search`257× d`\n=refused 5",
    "search`257× d` a//b\n=refused 2",
    // A command of that length is one line, and too long for a name.
    "root `8187×x`\n=refused 2",
    "root `8188×x`\n=refused 1\nroot a.idl\n=ok",
    // What is there already goes past no limit.
    "`4096×put f@ 0\n=ok\n`put f0 0\n=refused 5\nput f1 0\n=ok",
    "`256×root f@\n=ok\n`root f0\n=refused 5\nroot f1\n=refused 8",
    "`4096×define f@ x\n=ok\n`define f0 x\n=refused 5\ndefine f1 x\n=ok",
    // A file of many lines behind a guard costs a look-up each time but the first.
    "put g.idl 50000\n#ifndef G\n#define G`49997×\n;`\n#endif\n=ok\nput f.idl 10000`10000×\n#include \"g.idl\"`\n\
     =ok\nroot f.idl\n=ok\nabsent f.idl\n=rows 0",
];

#[test]
fn files_commands_and_projects_are_bounded(rt: HostRuntime) -> Result<(), Fail> {
    have_replies(rt.alloc(), &COMMANDS)
}

static LONG: [&str; 11] = [
    // Groups in one another; the last branch is told twice.
    "put a 180001\n`90000×#if 1\n`typedef long X;`90000×\n#endif`\n=ok\nroot a\n=ok\ndump a\n=rows 1\n=typedef long \
     X;",
    "put a 180001\n`90000×#if 1\n`typedef long X;`89999×\n#endif`\n#else\n=ok\nroot a\n=ok\ndiagnostics a\n=rows 1\n\
     =a:1: E13 if\ndump a\n=rows 0",
    // Parentheses of a condition, with signs and operators that wait to the end; macros of which each gives the next one.
    "put a 20005\n#if \\`10000×\n((((((((((\\`\n1\\`10000×\n))))))))))\\`\n\ntypedef long X;\n#endif\n=ok\nroot a\n\
     =ok\ndump a\n=rows 1\n=typedef long X;",
    "put a 2005\n#if (\\`1000×\n1 + ( - \\`\nx\\`1000×\n)\\`\n) == - 998\n#error taken\n#endif\n=ok\nroot a\n=ok\n\
     diagnostics a\n=rows 1\n=a:2004: E16 error taken",
    "put a 1003\n#if \\`1000×\n1 + ( - \\`\nx\n#endif\n=ok\nroot a\n=ok\ndiagnostics a\n=rows 1\n=a:1: E18 if",
    "put a 100001\n#define M0`99999× M@\n#define M@` long\ntypedef M0 X;\n=ok\nroot a\n=ok\ndump a\n=rows 1\n\
     =typedef long X;",
    // A long sum, and long lists.
    "put a 100001\nconst long K = 1`99999×\n+ 1`\n;\n=ok\nroot a\n=ok\ndump a\n=rows 1\n=const long K = 100000;",
    "put a 10001\ntypedef A B`10000×,\nC`;\n=ok\nroot a\n=ok\ndiagnostics a\n=rows 1\n=a:1: E30 A\ndump a\n=rows 0",
    "put a 10001\ntypedef A B`10000×\n[1]`;\n=ok\nroot a\n=ok\ndiagnostics a\n=rows 1\n=a:1: E30 A\ndump a\n=rows 0",
    "put a 10000\nstruct S {`9999×A a;\n`A a;\n=ok\nroot a\n=ok\ndiagnostics a\n=rows 1\n=a:10000: E20 ;\ndump a\n\
     =rows 0",
    // A text that has a zero byte.
    "put a 1\nconst string S = \"a\0\";\n=ok\nroot a\n=ok\ndiagnostics a\n=rows 1\n=a:1: E04 \"a\0\"\ndump a\n=rows \
     0",
];

#[test]
fn long_sources_have_these_rows(rt: HostRuntime) -> Result<(), Fail> {
    have_replies(rt.alloc(), &LONG)
}
