//! What each code means of tokens, directives and units, with an example: those before E30.
//!
//! This file is made of docs/codes.tsv by .ci/codes.

use crate::explanation::{ExampleOutcome, Explanation, Words};
use idl_fault::Code;

pub static BAD_TOKEN: Explanation = Explanation {
    told: ExampleOutcome::Row(1, Code::BadToken, "@"),
    words: Words::Around("`", "` begins no token of IDL"),
    example: "typedef long @X;",
    mended: "typedef long X;",
    hint: "Take the byte out. Annotations (`@key`) are left out; `?`, `!`, `#`, `.` are marks of the preprocessor alone; a `_` stands before a letter.",
};

pub static UNCLOSED_LITERAL: Explanation = Explanation {
    told: ExampleOutcome::Row(1, Code::UnclosedLiteral, "\"abc;"),
    words: Words::Around("the literal ", " isn't closed on its line"),
    example: "const string S = \"abc;",
    mended: "const string S = \"abc\";",
    hint: "Put the closing quote on the same line; the parts of a long text stand behind one another: \"ab\" \"cd\".",
};

pub static NOT_ONE_CHARACTER: Explanation = Explanation {
    told: ExampleOutcome::Row(1, Code::NotOneCharacter, "'ab'"),
    words: Words::Around("", " isn't exactly one character"),
    example: "const char C = 'ab';",
    mended: "const char C = 'a';",
    hint: "A text of more characters is a string and stands in double quotes.",
};

pub static BAD_ESCAPE: Explanation = Explanation {
    told: ExampleOutcome::Row(1, Code::BadEscape, "\"C:\\dir\""),
    words: Words::Around(
        "",
        " has an escape that IDL doesn't know, or a zero character",
    ),
    example: "const string S = \"C:\\dir\";",
    mended: "const string S = \"C:\\\\dir\";",
    hint: "A backslash in a text is written twice. Escapes are \\n \\t \\v \\b \\r \\f \\a \\? \\' \\\", octal and \\x digits, and \\u in wide texts.",
};

pub static MALFORMED_INTEGER: Explanation = Explanation {
    told: ExampleOutcome::Row(1, Code::MalformedInteger, "08"),
    words: Words::Around("`", "` is no integer"),
    example: "const long K = 08;",
    mended: "const long K = 8;",
    hint: "A leading 0 makes octal digits, 0 to 7; 0x needs a hexadecimal digit; letters behind a number (10L) aren't IDL.",
};

pub static FLOATING_LITERAL: Explanation = Explanation {
    told: ExampleOutcome::Row(1, Code::FloatingLiteral, "1.5"),
    words: Words::Around(
        "`",
        "` is a floating or fixed number, and only integers have values here",
    ),
    example: "const long K = 1.5;",
    mended: "const long K = 15;",
    hint: "Constants of float, double and fixed are left out; the types float and double may be used for members and parameters.",
};

pub static INTEGER_TOO_LARGE: Explanation = Explanation {
    told: ExampleOutcome::Row(1, Code::IntegerTooLarge, "18446744073709551616"),
    words: Words::Around("`", "` is 2^64 or more"),
    example: "const unsigned long long K = 18446744073709551616;",
    mended: "const unsigned long long K = 18446744073709551615;",
    hint: "No integer type holds it; the largest is 18446744073709551615.",
};

pub static MIXED_WIDTHS: Explanation = Explanation {
    told: ExampleOutcome::Row(1, Code::MixedWidths, "L\"cd\""),
    words: Words::Around("", " stands directly behind a text of the other width"),
    example: "const string S = \"ab\" L\"cd\";",
    mended: "const string S = \"ab\" \"cd\";",
    hint: "Texts that stand side by side are joined: write all of them with L or none.",
};

pub static UNCLOSED_COMMENT: Explanation = Explanation {
    told: ExampleOutcome::Row(1, Code::UnclosedComment, "/*"),
    words: Words::Whole("a comment that begins here is never closed"),
    example: "typedef long X; /* a length",
    mended: "typedef long X; /* a length */",
    hint: "Put `*/` where the comment ends; all behind `/*` was read as comment, to the end of the file.",
};

pub static NOT_FOUND: Explanation = Explanation {
    told: ExampleOutcome::Row(1, Code::NotFound, "\"B.idl\""),
    words: Words::Around("the file ", " isn't found"),
    example: "#include \"B.idl\"",
    mended: "#include \"b.idl\"",
    hint: "Look at the spelling and at upper and lower case; \"x\" is looked for beside the including file, then along -I, <x> along -I alone.",
};

pub static MALFORMED_INCLUDE: Explanation = Explanation {
    told: ExampleOutcome::Row(1, Code::MalformedInclude, "include"),
    words: Words::Whole("`include` wants \"FILE\" or <FILE> behind it"),
    example: "#include b.idl",
    mended: "#include \"b.idl\"",
    hint: "A macro may stand there, too, if it gives one text in quotes.",
};

pub static OUT_OF_PLACE: Explanation = Explanation {
    told: ExampleOutcome::Row(4, Code::OutOfPlace, "endif"),
    words: Words::Around("`", "` belongs to no open #if, or stands behind its #else"),
    example: "#if 1\ntypedef long X;\n#endif\n#endif",
    mended: "#if 1\ntypedef long X;\n#endif",
    hint: "Count the #if, #ifdef and #ifndef of this file: each has one #endif and one #else at most, in the same file.",
};

pub static NOT_CLOSED: Explanation = Explanation {
    told: ExampleOutcome::Row(1, Code::NotClosed, "ifdef"),
    words: Words::Around("`#", "` has no #endif in this file"),
    example: "#ifdef DEBUG\ntypedef long X;",
    mended: "#ifdef DEBUG\ntypedef long X;\n#endif",
    hint: "Put #endif behind the lines that the condition is for.",
};

pub static MALFORMED_MACRO: Explanation = Explanation {
    told: ExampleOutcome::Row(1, Code::MalformedMacro, "define"),
    words: Words::Around(
        "`",
        "` wants the word of a macro, and macros have no parameters here",
    ),
    example: "#define MAX(a) a",
    mended: "#define MAX 10",
    hint: "A body that begins with a parenthesis needs a blank before it: #define N (1). `defined` can be no macro.",
};

pub static UNKNOWN_DIRECTIVE: Explanation = Explanation {
    told: ExampleOutcome::Row(1, Code::UnknownDirective, "inclde"),
    words: Words::Around("`#", "` is no directive"),
    example: "#inclde \"b.idl\"",
    mended: "#include \"b.idl\"",
    hint: "Known are include define undef if ifdef ifndef elif else endif error pragma; warning and ident are passed over; #line is left out.",
};

pub static ERROR: Explanation = Explanation {
    told: ExampleOutcome::Row(2, Code::Error, "error define VERSION"),
    words: Words::Around("the file itself says: ", ""),
    example: "#ifndef VERSION\n#error define VERSION\n#endif",
    mended: "#define VERSION 2\n#ifndef VERSION\n#error define VERSION\n#endif",
    hint: "Do what the text asks for, mostly with -DNAME=VALUE.",
};

pub static OTHER_DEFINITION: Explanation = Explanation {
    told: ExampleOutcome::Row(2, Code::OtherDefinition, "N"),
    words: Words::Around("the macro `", "` is defined already, with another body"),
    example: "#define N 1\n#define N 2",
    mended: "#define N 1\n#undef N\n#define N 2",
    hint: "The first body stays. Put #undef before, or #ifndef round it; a macro of -D counts, too.",
};

pub static BAD_CONDITION: Explanation = Explanation {
    told: ExampleOutcome::Row(1, Code::BadCondition, "if"),
    words: Words::Around("the condition of `#", "` has no value"),
    example: "#if VERSION >\ntypedef long X;\n#endif",
    mended: "#if VERSION > 1\ntypedef long X;\n#endif",
    hint: "Names that are no macro are 0. Wrong are a missing operand, division by zero, overflow, characters and `?:`. The group is skipped.",
};

pub static PAST_LIMIT: Explanation = Explanation {
    told: ExampleOutcome::Row(1, Code::PastLimit, ""),
    words: Words::Whole("the expansion ends here: 64 files deep, or a million tokens or turns"),
    example: "#include \"a.idl\"",
    mended: "#ifndef A_IDL\n#define A_IDL\n#include \"a.idl\"\n#endif",
    hint: "Mostly a file includes itself: put #pragma once into it, or #ifndef, #define and #endif round it.",
};

pub static NO_TREE: Explanation = Explanation {
    told: ExampleOutcome::Row(1, Code::NoTree, ";"),
    words: Words::Around(
        "`",
        "` can't stand here, or the declaration is cut off behind it",
    ),
    example: "typedef long X;;",
    mended: "typedef long X;",
    hint: "Look for a missing or extra `;`, comma or brace, here or just before; two closing `>` of sequences need a blank between them.",
};

pub static LEFT_OUT: Explanation = Explanation {
    told: ExampleOutcome::Row(1, Code::LeftOut, "valuetype"),
    words: Words::Around("`", "` is a part of IDL that this compiler leaves out"),
    example: "valuetype V { };",
    mended: "struct V { long a; };",
    hint: "Left out are value types, components, homes, events, fixed, and constants of float and double. As a name, write it with `_` before it.",
};

pub static MISPLACED_UNIT: Explanation = Explanation {
    told: ExampleOutcome::Row(1, Code::MisplacedUnit, "attribute"),
    words: Words::Around("what begins with `", "` can't stand in this scope"),
    example: "attribute long size;",
    mended: "interface I {\nattribute long size;\n};",
    hint: "Operations and attributes stand in interfaces; modules and interfaces don't. A `}` here closes nothing: count the braces above.",
};

pub static OPEN_SCOPE: Explanation = Explanation {
    told: ExampleOutcome::Row(2, Code::OpenScope, ""),
    words: Words::Whole("the file ends while a module or an interface is open"),
    example: "module M {\ntypedef long X;",
    mended: "module M {\ntypedef long X;\n};",
    hint: "Put `};` where the module or interface ends.",
};

pub static NESTED_TOO_DEEP: Explanation = Explanation {
    told: ExampleOutcome::Row(1, Code::NestedTooDeep, "("),
    words: Words::Around("nested more than 64 deep at `", "`"),
    example: "const long K = (((((((((((((((((((((((((((((((((((((((((((((((((((((((((((((((((1)))))))))))))))))))))))))))))))))))))))))))))))))))))))))))))))));",
    mended: "const long K = ((1));",
    hint: "Take needless parentheses out, or give an inner type a name of its own by a typedef.",
};

pub static PRAGMA_INSIDE: Explanation = Explanation {
    told: ExampleOutcome::Row(2, Code::PragmaInside, "pragma"),
    words: Words::Whole("a pragma stands in the middle of a declaration"),
    example: "struct S {\n#pragma prefix \"P\"\nlong a;\n};",
    mended: "#pragma prefix \"P\"\nstruct S {\nlong a;\n};",
    hint: "Put it before the declaration or behind its `;`. In the body of a module or an interface it may stand between declarations.",
};

pub static MALFORMED_PRAGMA: Explanation = Explanation {
    told: ExampleOutcome::Row(1, Code::MalformedPragma, "pragma"),
    words: Words::Whole("this pragma isn't written as it must be"),
    example: "#pragma prefix omg.org",
    mended: "#pragma prefix \"omg.org\"",
    hint: "Forms: prefix \"TEXT\"; ID NAME \"TEXT\"; version NAME MAJOR.MINOR, both at most 65535.",
};
