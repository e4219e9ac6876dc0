//! What `idltool deps` answers: rules of make, by the files that roots ask for.

use super::support::{are_given, are_given_so};
use std::test::Fail;

static ROWS: [&str; 5] = [
    // A file that isn't found in the first directory counts once it is there.
    "idltool deps -Iinc -Itypes shop.idl => shop.idl: #include <money.idl> | typedef Money Price; ¶ types/money.idl: \
     typedef long Money; => 0 out shop.listing: shop.idl $(wildcard inc/money.idl) types/money.idl /types/money.idl: /",
    // Errors in the sources are told, and leave the rules as they are.
    "idltool deps a.idl => a.idl: #include \"h\" | typedef No X; ¶ h => 1 out a.listing: a.idl h /h: / err a.idl:2:9: error: `No` \
     isn't declared here or in a scope around [E30] /typedef No X; /        ^^ /\nidltool deps a.idl => a.idl: #include \"no.idl\" \
     => 1 out a.listing: a.idl $(wildcard no.idl) / err a.idl:1:10: error: the file \"no.idl\" isn't found [E10] /#include \"no.idl\" \
     /         ^^^^^^^^ /\nidltool deps z.idl => a.idl => 1 out z.listing: $(wildcard z.idl) / err z.idl: error: the file z.idl \
     isn't found [E10] /",
    // Of what isn't there nothing stands in the rules where it is left out, whatever its name is.
    "idltool deps --present -t shop.h -Iinc -Itypes shop.idl => shop.idl: #include <money.idl> | typedef Money Price; ¶ \
     types/money.idl: typedef long Money; => 0 out shop.h: shop.idl types/money.idl /types/money.idl: /\nidltool deps \
     --present a.idl => a.idl: #include \"a:b\" => 1 out a.listing: a.idl / err a.idl:1:10: error: the file \"a:b\" isn't \
     found [E10] /#include \"a:b\" /         ^^^^^ /",
    // What make gives a meaning to has a mark before it.
    "idltool deps a$#%.idl => a$#%.idl: #include \"h%\" ¶ h% => 0 out a$$\\#\\%.listing: a$$\\#%.idl h% /h\\%: /\n\
     idltool deps .A.idl => .A.idl => 0 out .A.listing: .A.idl /",
    // Trouble with a FILE leaves the rules of the others as they are, and that with another word ends the program.
    "idltool deps b.idl a.idl c.idl => b.idl ¶ a.idl: #include \"h\" ¶ h! ¶ c.idl => 2 out b.listing: b.idl /c.listing: c.idl / \
     err idltool: h: cannot read /\nidltool deps -U1x a.idl => a.idl => 2 err idltool: 1x: refused 6: macro not allowed /\nidltool \
     deps a//../..//. a.idl => a.idl => 2 out a.listing: a.idl / err idltool: a//../..//.: refused 2: name not allowed /",
];

#[test]
fn rules_are_told(rt: HostRuntime) -> Result<(), Fail> {
    are_given(rt.alloc(), &ROWS)
}

// Names of which make would read something else; those of the second text no include can have.
const OTHERS: &str = "a:b a=b a;b a(b a)b a*b a?b a|b a\\b a&b a'b a[b ~a ~/a .PHONY .ONE_SHELL";

const QUOTES: &str = "a<b a\"b";

// What is given for words and files, in which `@` stands for a name.
static TROUBLE: [&str; 2] = [
    "idltool deps @ => @ => 2 err idltool: @: no name for make /",
    "idltool deps -t @ h => h => 2 err idltool: @: no name for make /",
];

const INCLUDED: &str =
    "idltool deps -I. r => r: #include <@> ¶ @ => 2 err idltool: @: no name for make /";

#[test]
fn names_that_make_can_not_take_are_trouble(rt: HostRuntime) -> Result<(), Fail> {
    for row in &TROUBLE {
        are_given_so(rt.alloc(), OTHERS, row)?;
        are_given_so(rt.alloc(), QUOTES, row)?;
    }
    are_given_so(rt.alloc(), OTHERS, INCLUDED)?;
    let taken = "a_b a.b a/b a+b a-b a,b a@b a!b a~b .a -a";
    are_given_so(
        rt.alloc(),
        taken,
        "idltool deps -- @ => @ => 0 out @.listing: @ /",
    )
}
