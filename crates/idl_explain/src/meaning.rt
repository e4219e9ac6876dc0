//! What each code means of names, types, values and ids, with an example: those from E30 on.
//!
//! This file is made of docs/codes.tsv by .ci/codes.

use crate::explanation::{ExampleOutcome, Explanation, Words};
use idl_fault::Code;

pub static NAME_NOT_FOUND: Explanation = Explanation {
    told: ExampleOutcome::Row(2, Code::NameNotFound, "Mony"),
    words: Words::Around("`", "` isn't declared here or in a scope around"),
    example: "typedef long Money;\ninterface Shop { Mony total(); };",
    mended: "typedef long Money;\ninterface Shop { Money total(); };",
    hint: "Look at the spelling, at a missing include, and at rows above: a declaration with an error declares nothing. Names are declared before use.",
};

pub static AMBIGUOUS_NAME: Explanation = Explanation {
    told: ExampleOutcome::Row(3, Code::AmbiguousName, "T"),
    words: Words::Around("`", "` means different things in different bases"),
    example: "interface A { typedef long T; };\ninterface B { typedef short T; };\ninterface C : A, B { attribute T x; };",
    mended: "interface A { typedef long T; };\ninterface B { typedef short T; };\ninterface C : A, B { attribute A::T x; };",
    hint: "Say which one is meant: A::T or B::T.",
};

pub static OTHER_CASE: Explanation = Explanation {
    told: ExampleOutcome::Row(2, Code::OtherCase, "money"),
    words: Words::Around("`", "` is declared with other upper and lower case"),
    example: "typedef long Money;\ntypedef money Price;",
    mended: "typedef long Money;\ntypedef Money Price;",
    hint: "Write it as the declaration does.",
};

pub static ALREADY_DECLARED: Explanation = Explanation {
    told: ExampleOutcome::Row(2, Code::AlreadyDeclared, "X"),
    words: Words::Around("`", "` is declared already in this scope"),
    example: "typedef long X;\ntypedef short X;",
    mended: "typedef long X;\ntypedef short Y;",
    hint: "Upper and lower case make no difference. Enumerators and types written in place are declared in the scope around.",
};

pub static NAME_OF_SCOPE: Explanation = Explanation {
    told: ExampleOutcome::Row(1, Code::NameOfScope, "bank"),
    words: Words::Around("`", "` is the name of the scope that it is declared in"),
    example: "module Bank { typedef long bank; };",
    mended: "module Bank { typedef long number; };",
    hint: "Give it another name; upper and lower case make no difference.",
};

pub static DECLARED_AFTER_USE: Explanation = Explanation {
    told: ExampleOutcome::Row(2, Code::DeclaredAfterUse, "T"),
    words: Words::Around(
        "`",
        "` was used in this scope before, as a name of another one",
    ),
    example: "typedef long T;\nmodule M { typedef T U; typedef short T; };",
    mended: "typedef long T;\nmodule M { typedef ::T U; typedef short T; };",
    hint: "Declare it before the use, write the use in full with `::` before it, or give it another name. Upper and lower case make no difference.",
};

pub static LIKE_KEYWORD: Explanation = Explanation {
    told: ExampleOutcome::Row(1, Code::LikeKeyword, "Boolean"),
    words: Words::Around(
        "`",
        "` differs from a keyword in upper and lower case alone",
    ),
    example: "typedef long Boolean;",
    mended: "typedef long _Boolean;",
    hint: "Put `_` before it, which isn't part of the name. For a file that you can't edit: -D Boolean=_Boolean.",
};

pub static WRONG_KIND: Explanation = Explanation {
    told: ExampleOutcome::Row(2, Code::WrongKind, "K"),
    words: Words::Around("`", "` is of another kind than what is wanted here"),
    example: "const long K = 3;\ntypedef K T;",
    mended: "const long K = 3;\ntypedef long T[K];",
    hint: "Types, constants, exceptions (raises) and interfaces (bases) can't stand for one another; a constant isn't used in its own value.",
};

pub static NO_SCOPE: Explanation = Explanation {
    told: ExampleOutcome::Row(2, Code::NoScope, "T"),
    words: Words::Around("`", "` is no scope, so it holds no names"),
    example: "typedef long T;\ntypedef T::X Y;",
    mended: "module T { typedef long X; };\ntypedef T::X Y;",
    hint: "Only a module, interface, struct, union or exception can stand before `::` or have a typeprefix; a typedef of one can't.",
};

pub static OTHER_FORWARD: Explanation = Explanation {
    told: ExampleOutcome::Row(2, Code::OtherForward, "F"),
    words: Words::Around(
        "`",
        "` was declared forward as another kind, or with another `local`",
    ),
    example: "interface F;\nstruct F { long a; };\ninterface F { };",
    mended: "struct F;\nstruct F { long a; };",
    hint: "Let the forward declaration and the definition say the same: interface, local interface, struct or union.",
};

pub static INCOMPLETE_BASE: Explanation = Explanation {
    told: ExampleOutcome::Row(2, Code::IncompleteBase, "A"),
    words: Words::Around("the base `", "` isn't defined yet"),
    example: "interface A;\ninterface B : A { };\ninterface A { };",
    mended: "interface A { };\ninterface B : A { };",
    hint: "A forward declaration isn't enough for a base: put its definition before.",
};

pub static REPEATED_BASE: Explanation = Explanation {
    told: ExampleOutcome::Row(2, Code::RepeatedBase, "A"),
    words: Words::Around("the base `", "` is named twice"),
    example: "interface A { };\ninterface B : A, A { };",
    mended: "interface A { };\ninterface B : A { };",
    hint: "Name it once; through other bases it may come again.",
};

pub static DECLARED_AGAIN: Explanation = Explanation {
    told: ExampleOutcome::Row(3, Code::DeclaredAgain, "B"),
    words: Words::Around(
        "an operation or attribute is inherited twice or declared again: `",
        "`",
    ),
    example: "interface A { void f(); };\ninterface B { void f(); };\ninterface C : A, B { };",
    mended: "interface A { void f(); };\ninterface B { void g(); };\ninterface C : A, B { };",
    hint: "Operations and attributes of all bases need names of their own; upper and lower case make no difference. If a base is named, it brings the second one.",
};

pub static LOCAL_BASE: Explanation = Explanation {
    told: ExampleOutcome::Row(2, Code::LocalBase, "L"),
    words: Words::Around("`", "` is local, and this interface isn't"),
    example: "local interface L { };\ninterface B : L { };",
    mended: "local interface L { };\nlocal interface B : L { };",
    hint: "Make the interface local, or the base not.",
};

pub static REACHED_THROUGH_BASE: Explanation = Explanation {
    told: ExampleOutcome::Row(2, Code::ReachedThroughBase, "A"),
    words: Words::Around("`", "` is reached through the base of the struct already"),
    example: "struct B { long a; };\nstruct D : B { short A; };",
    mended: "struct B { long a; };\nstruct D : B { short b; };",
    hint: "What a struct declares needs a name of its own among all that its base has: members, types, enumerators; upper and lower case make no difference.",
};

pub static OTHER_TYPE: Explanation = Explanation {
    told: ExampleOutcome::Row(1, Code::OtherType, "1"),
    words: Words::Around("`", "` doesn't fit the type that is wanted"),
    example: "const string S = 1;",
    mended: "const string S = \"1\";",
    hint: "Values aren't turned from one kind to another; operators work on integers alone.",
};

pub static OUT_OF_RANGE: Explanation = Explanation {
    told: ExampleOutcome::Row(1, Code::OutOfRange, "40000"),
    words: Words::Around("`", "` goes out of the range of its type"),
    example: "const short K = 40000;",
    mended: "const long K = 40000;",
    hint: "short ends at 32767, long at 2147483647, octet at 255; parts of an expression count, too: 32 bits, for long long 64. A text has its bound.",
};

pub static DIVISION_BY_ZERO: Explanation = Explanation {
    told: ExampleOutcome::Row(1, Code::DivisionByZero, "/"),
    words: Words::Whole("division by zero"),
    example: "const long K = 1 / 0;",
    mended: "const long K = 1 / 2;",
    hint: "Look at the constants behind the operator.",
};

pub static BAD_SHIFT: Explanation = Explanation {
    told: ExampleOutcome::Row(1, Code::BadShift, "<<"),
    words: Words::Whole(
        "bad shift: a count is 0 to 63, and `>>` wants a left side that isn't negative",
    ),
    example: "const long K = 1 << 64;",
    mended: "const long K = 1 << 16;",
    hint: "What the shift gives has to fit, too.",
};

pub static BOUND_NOT_POSITIVE: Explanation = Explanation {
    told: ExampleOutcome::Row(1, Code::BoundNotPositive, "0"),
    words: Words::Whole("a bound is 1 or more"),
    example: "typedef long A[0];",
    mended: "typedef long A[1];",
    hint: "This is for arrays, sequences and strings; without a bound write sequence<long> or string.",
};

pub static NO_CONSTANT_TYPE: Explanation = Explanation {
    told: ExampleOutcome::Row(2, Code::NoConstantType, "F"),
    words: Words::Around("no constant can have the type `", "`"),
    example: "typedef float F;\nconst F K = 1;",
    mended: "typedef long F;\nconst F K = 1;",
    hint: "Constants are integers, characters, booleans, octets, texts and enums.",
};

pub static INCOMPLETE_TYPE: Explanation = Explanation {
    told: ExampleOutcome::Row(2, Code::IncompleteType, "Node"),
    words: Words::Around(
        "`",
        "` isn't complete yet, and can only be the element of a sequence",
    ),
    example: "struct Node {\nNode next;\n};",
    mended: "struct Node {\nsequence<Node> next;\n};",
    hint: "Define it before, or use a sequence of it, with a bound of 1 for one that may be missing.",
};

pub static BAD_DISCRIMINATOR: Explanation = Explanation {
    told: ExampleOutcome::Row(2, Code::BadDiscriminator, "D"),
    words: Words::Around("`", "` can't be the type of a discriminator"),
    example: "typedef string D;\nunion U switch (D) { case 1: long a; };",
    mended: "typedef long D;\nunion U switch (D) { case 1: long a; };",
    hint: "Take an integer, char, wchar, boolean, octet or enum.",
};

pub static REPEATED_LABEL: Explanation = Explanation {
    told: ExampleOutcome::Row(3, Code::RepeatedLabel, "1"),
    words: Words::Around("the label `", "` is there already"),
    example: "union U switch (long) {\ncase 1: long a;\ncase 1: short b;\n};",
    mended: "union U switch (long) {\ncase 1: long a;\ncase 2: short b;\n};",
    hint: "Values count, not spellings: 1 and 0x1 are the same label.",
};

pub static USELESS_DEFAULT: Explanation = Explanation {
    told: ExampleOutcome::Row(4, Code::UselessDefault, "}"),
    words: Words::Whole("`default` has no value left: all are labelled"),
    example: "union U switch (boolean) {\ncase TRUE: long a; case FALSE: long b;\ndefault: long c;\n};",
    mended: "union U switch (boolean) {\ncase TRUE: long a;\ndefault: long c;\n};",
    hint: "Take `default` out, or one of the labels.",
};

pub static BAD_ONEWAY: Explanation = Explanation {
    told: ExampleOutcome::Row(1, Code::BadOneway, "long"),
    words: Words::Around(
        "a oneway operation gives nothing back: `",
        "` can't stand here",
    ),
    example: "interface I { oneway long f(); };",
    mended: "interface I { oneway void f(); };",
    hint: "It returns void, has only `in` parameters and no raises.",
};

pub static OTHER_PREFIX: Explanation = Explanation {
    told: ExampleOutcome::Row(4, Code::OtherPrefix, "F"),
    words: Words::Around("`", "` is declared again under another #pragma prefix"),
    example: "#pragma prefix \"A\"\ninterface F { };\n#pragma prefix \"B\"\ninterface F;",
    mended: "#pragma prefix \"A\"\ninterface F { };\ninterface F;",
    hint: "Its id would be two. Put the same prefix before both; one that is set in an included file ends with that file.",
};

pub static REPEATED_ID: Explanation = Explanation {
    told: ExampleOutcome::Row(3, Code::RepeatedId, "T"),
    words: Words::Around("`", "` has its repository id already"),
    example: "typedef long T;\n#pragma ID T \"IDL:a/T:1.0\"\n#pragma ID T \"IDL:b/T:1.0\"",
    mended: "typedef long T;\n#pragma ID T \"IDL:a/T:1.0\"",
    hint: "Give the id once, by typeid or #pragma ID, even if it is the same text; behind a version it can only be the id that this makes.",
};

pub static REPEATED_VERSION: Explanation = Explanation {
    told: ExampleOutcome::Row(3, Code::RepeatedVersion, "T"),
    words: Words::Around("`", "` has its version or id already"),
    example: "typedef long T;\n#pragma version T 2.0\n#pragma version T 2.1",
    mended: "typedef long T;\n#pragma version T 2.1",
    hint: "Give the version once; behind typeid or #pragma ID there is none.",
};

pub static BAD_ID_TEXT: Explanation = Explanation {
    told: ExampleOutcome::Row(1, Code::BadIdText, "\"omg org\""),
    words: Words::Around("", " can be no prefix or repository id"),
    example: "#pragma prefix \"omg org\"",
    mended: "#pragma prefix \"omg.org\"",
    hint: "Bytes 33 to 126 without blanks; an id has a colon, as IDL:M/T:1.0.",
};

pub static NO_REPOSITORY_ID: Explanation = Explanation {
    told: ExampleOutcome::Row(2, Code::NoRepositoryId, "a"),
    words: Words::Around("`", "` is of a kind that has no repository id"),
    example: "struct S { long a; };\n#pragma ID S::a \"IDL:S/a:1.0\"",
    mended: "struct S { long a; };\n#pragma ID S \"IDL:S:1.0\"",
    hint: "Members, parameters and enumerators have none.",
};

pub static NEVER_DEFINED: Explanation = Explanation {
    told: ExampleOutcome::Row(1, Code::NeverDefined, "N"),
    words: Words::Around("`", "` is declared forward and never defined"),
    example: "struct N;\ntypedef sequence<N> NS;",
    mended: "struct N;\ntypedef sequence<N> NS;\nstruct N { long a; };",
    hint: "Define it in this file or in one that it includes; only an interface may stay undefined.",
};

pub static REPEATED_TYPEPREFIX: Explanation = Explanation {
    told: ExampleOutcome::Row(3, Code::RepeatedTypeprefix, "M"),
    words: Words::Around("`", "` has its typeprefix already"),
    example: "module M { typedef long T; };\ntypeprefix M \"A\";\ntypeprefix M \"B\";",
    mended: "module M { typedef long T; };\ntypeprefix M \"A\";",
    hint: "Give the typeprefix of a scope once, even if it is the same text; a scope in it may have its own.",
};

pub static INTERFACE_NEVER_DEFINED: Explanation = Explanation {
    told: ExampleOutcome::Row(1, Code::InterfaceNeverDefined, "F"),
    words: Words::Around("the interface `", "` is declared forward and never defined"),
    example: "interface F;",
    mended: "interface F { };",
    hint: "It may stay so: no code can call it through this file. Include the file that defines it.",
};
