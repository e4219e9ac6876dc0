//! What `idltool diff` tells: what changes from one version of a file to another, and for whom it counts.

use super::support::{are_given, is_given};
use std::alloc::Global;
use std::test::Fail;

static ROWS: [&str; 6] = [
    // Two versions, of which the order of what is raised alone tells nothing.
    "idltool diff old.idl new.idl => old.idl: module Bank { enum Kind { PLAIN, SILVER }; exception Low { }; exception No { }; | interface \
     Account { | void draw(in long amount) raises (Low, No); | long balance(); | }; | }; ¶ new.idl: module Bank { | enum Kind { PLAIN, \
     SILVER, GOLD }; exception Low { }; exception No { }; | interface Account { | void draw(in long long sum) raises (No, Low); | void \
     close(); | }; | }; => 1 out new.idl:2:6: error: enum Bank::Kind: enumerator GOLD is new, number 3 [wire] /new.idl:4:6: note: \
     operation Bank::Account::draw: name of parameter 1, amount -> sum [names] /new.idl:4:6: error: operation Bank::Account::draw: type \
     of parameter amount, long -> long long [wire,client,servant] /old.idl:4:6: error: operation Bank::Account::balance: is gone \
     [wire,client] /new.idl:5:6: note: operation Bank::Account::close: is new [servant] /",
    // Each version has its own directories, before those of both.
    "idltool diff -Ii --old-I o --new-I n a.idl b.idl => a.idl: #include <h> ¶ b.idl: #include <h> ¶ i/h: typedef octet T; ¶ o/h: typedef \
     long T; ¶ n/h: typedef short T; => 1 out n/h:1:15: error: alias T: type, long -> short [wire,client,servant] /\nidltool diff --new-I \
     n -Ii a.idl a.idl => a.idl: #include <h> ¶ i/h ¶ n/h: typedef long T; => 0 out n/h:1:14: note: alias T: is new [new] /",
    // Several files, of which another directory has the old version: what both include is told once, and what moves isn't gone.
    "idltool diff --old v -I. a b => v/a: #include <h> ¶ v/b: #include <h> | struct M { long x; }; ¶ v/h: struct S { long x; }; ¶ a: \
     #include <h> | struct M { long x; }; ¶ b: #include <h> ¶ h: struct S { short x; }; => 1 out h:1:8: error: struct S: type of member x, \
     long -> short [wire,client,servant] /",
    // A file that one version hasn't is empty there, and one that neither has isn't found.
    "idltool diff --old v a b => v/a: struct S { long x; }; ¶ b: struct S { short x; }; => 1 out b:1:8: error: struct S: type of member x, \
     long -> short [wire,client,servant] /\nidltool diff --old v c => v/a => 2 err v/c: error: the file v/c isn't found [E10] /c: error: \
     the file c isn't found [E10] /",
    // Of faulty versions no change is told, but what is found in both.
    "idltool diff a.idl b.idl => a.idl: interface F; ¶ b.idl: typedef No X; => 2 err a.idl:1:11: warning: the interface `F` is declared \
     forward and never defined [W80] /interface F; /          ^ /b.idl:1:9: error: `No` isn't declared here or in a scope around [E30] \
     /typedef No X; /        ^^ /",
    // Changes as data: what is gone, new, new at a place, and another.
    "idltool diff --format json a b => a: struct T { long x; }; typedef long A; ¶ b: struct T { short x; any y; }; typedef long B; => 1 out \
     {\"column\":8,\"file\":\"b\",\"id\":\"IDL:T:1.0\",\"kind\":\"struct\",\"line\":1,\"new\":\"short\",\"old\":\"long\",\"part\":\"type of \
     member x\",\"path\":\"T\",\"weights\":[\"wire\",\"client\",\"servant\"]} /{\"column\":8,\"file\":\"b\",\"id\":\"IDL:T:1.0\",\
     \"kind\":\"struct\",\"line\":1,\"number\":2,\"part\":\"member y\",\"path\":\"T\",\"weights\":[\"wire\",\"client\",\"servant\"],\
     \"word\":\"is new\"} /{\"column\":36,\"file\":\"a\",\"id\":\"IDL:A:1.0\",\"kind\":\"alias\",\"line\":1,\"path\":\"A\",\"weights\":\
     [\"client\",\"servant\"],\"word\":\"is gone\"} /{\"column\":44,\"file\":\"b\",\"id\":\"IDL:B:1.0\",\"kind\":\"alias\",\"line\":1,\
     \"path\":\"B\",\"weights\":[\"new\"],\"word\":\"is new\"} /\nidltool diff --format text --fail-on names a b => a: typedef long A; ¶ b: \
     typedef long B; => 0 out a:1:14: note: alias A: is gone [client,servant] /b:1:14: note: alias B: is new [new] /",
];

#[test]
fn changes_are_told(rt: HostRuntime) -> Result<(), Fail> {
    are_given(rt.alloc(), &ROWS)
}

// A text in which what stands in brackets changes, and what is told of that.
static EDITS: [&str; 3] = [
    // Entries: an order that tells nothing; what is gone, new, or of another kind; paths of one id.
    "module M { enum E { a }; union U switch (E) { case a: any x; }; interface I { void f(in string s); }; };[->] => 0\nmodule N { \
     exception A { }; exception B { }; interface C { void bind() raises ([A, B->B, A, B]); }; }; => 0\ninterface I { }; interface J { }; \
     interface K : [I, J->J, I] { }; => 0\ntypedef long [T->U]; => 1 out a:1:14: error: alias T: is gone [client,servant] /b:1:14: note: \
     alias U: is new [new] /\n[struct->exception] T { long x; }; => 1 out b:1:11: error: struct T: kind, struct -> exception \
     [wire,client,servant] /\nconst long [A = 1; | #pragma ID A->B = 1; | #pragma ID B] \"X:1\" => 1 out b:1:12: error: const A: path, A \
     -> B [client,servant] /\ntypedef long [A; | #pragma ID A->B; | #pragma ID B] \"X:1\" => 1 out b:1:14: error: alias A: path, A -> B \
     [client,servant] /",
    // Types, each told where it is declared.
    "interface I { }; [interface T->local interface T : I] { }; => 1 out b:1:34: error: interface T: local, no -> yes \
     [wire,client,servant] /\ninterface I { void f(); }; interface J { }; interface T [: J->: I] { }; => 1 out b:1:55: error: interface \
     T: base J is gone [wire,client] /b:1:55: note: interface T: base I is new [servant] /\ninterface T; interface I { void f(); }; \
     interface T [: I->]{ void g(); }; => 1 out b:1:11: error: interface T: base I is gone [wire,client] /\nstruct T { [long x, y->short z]; }; typedef \
     sequence<T> U; => 1 out b:1:8: error: struct T: member x is gone [wire,client,servant] /b:1:8: error: struct T: member y is gone \
     [wire,client,servant] /b:1:8: error: struct T: member z is new, number 1 [wire,client,servant] /\nstruct T { [long x; short y->short \
     y; long x]; }; => 1 out b:1:8: error: struct T: order of members, x y -> y x [wire,client,servant] /\nenum T { a, [b->c, d] }; => 1 \
     out b:1:6: error: enum T: enumerator b is gone [wire,client,servant] /b:1:6: error: enum T: enumerator c is new, number 2 [wire] \
     /b:1:6: error: enum T: enumerator d is new, number 3 [wire] /\ntypedef sequence<long, [3->4]> T; => 1 out b:1:27: error: alias T: \
     type, sequence<long, 3> -> sequence<long, 4> [wire,client,servant] /\ntypedef long A; struct T { [long->A] x; }; => 0 out b:1:24: \
     note: struct T: type of member x, long -> A [names] /\nunion T switch ([long->short]) { case 1: any x; }; => 1 out b:1:7: error: \
     union T: discriminator, long -> short [wire,client,servant] /\nunion T switch (long) { case 1: [case 2: any x->any y; default: \
     Object z]; }; => 1 out b:1:7: error: union T: name of case 1, x -> y [client,servant] /b:1:7: error: union T: type of case 2, any -> \
     Object [wire,client,servant] /b:1:7: error: union T: name of case 2, x -> z [client,servant] /b:1:7: error: union T: default is new \
     [wire] /",
    // Constants, attributes and operations.
    "const [long T = 1->short T = 2]; => 1 out b:1:13: error: const T: type, long -> short [client,servant] /b:1:13: error: const T: \
     value, 1 -> 2 [client,servant] /\nexception E { }; interface I { [attribute long a getraises (E)->readonly attribute short a]; }; => \
     1 out b:1:57: error: attribute I::a: type, long -> short [wire,client,servant] /b:1:57: error: attribute I::a: readonly, no -> yes \
     [wire,client] /b:1:57: error: attribute I::a: exception of get E is gone [client,servant] /\nexception E { }; interface I { \
     attribute long a[-> setraises (E)]; }; => 1 out b:1:47: error: attribute I::a: exception of set E is new [wire,client] /\ninterface \
     I { [void f(->oneway void f(in any x]); }; => 1 out b:1:27: error: operation I::f: parameter x is new, number 1 \
     [wire,client,servant] /b:1:27: error: operation I::f: oneway, no -> yes [wire] /\ninterface I { void f(in any [x->y]); }; => 0 out \
     b:1:20: note: operation I::f: name of parameter 1, x -> y [names] /\nlocal interface I { void f([->in any x]); }; => 1 out b:1:26: \
     error: operation I::f: parameter x is new, number 1 [client,servant] /\nexception E { }; interface I { [any f(in any x) raises (E) \
     context (\"a->long f(inout long x) context (\"b]\"); }; => 1 out b:1:37: error: operation I::f: type, any -> long \
     [wire,client,servant] /b:1:37: error: operation I::f: direction of parameter x, in -> inout [wire,client,servant] /b:1:37: error: \
     operation I::f: type of parameter x, any -> long [wire,client,servant] /b:1:37: error: operation I::f: exception E is gone \
     [client,servant] /b:1:37: error: operation I::f: context, \"a\" -> \"b\" [wire,client,servant] /",
];

#[test]
fn each_change_is_told(rt: HostRuntime) -> Result<(), Fail> {
    for table in &EDITS {
        for row in table.split('\n') {
            is_told(rt.alloc(), row)?;
        }
    }
    Ok(())
}

fn is_told(alloc: Global, row: &str) -> Result<(), Fail> {
    let (text, want) = row.split_once(" => ").unwrap_or((row, ""));
    let (front, rest) = text.split_once("[").unwrap_or((text, ""));
    let (edit, back) = rest.split_once("]").unwrap_or((rest, ""));
    let (old, new) = edit.split_once("->").unwrap_or((edit, ""));
    let row = format!(in alloc;
        "idltool diff a b => a: {front}{old}{back} ¶ b: {front}{new}{back} => {want}"
    )?;
    is_given(alloc, row.as_str())
}
