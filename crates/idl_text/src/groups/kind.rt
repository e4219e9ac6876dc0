//! Kinds of directives.

ghost use Rattle.std.specs.Prelude.{◌≡◌, map};
ghost use Rattle.idl_text.specs.Line.{directive_kind, words};
ghost use Rattle.idl_text.specs.Tree.{is_else};
ghost use Rattle.idl_lex.specs.kinds.WordTable.{entry_of};

use idl_lex::kinds::{WordEntry, value_of};

/// A directive of one line.
#[derive(Clone, Copy)]
pub enum Plain {
    Include,
    Define,
    Undef,
    Error,
    Pragma,
    /// `warning` and `ident`, which are passed over.
    Ignored,
    Unknown,
}

/// A directive that opens a group.
#[derive(Clone, Copy)]
pub enum Test {
    If,
    Ifdef,
    Ifndef,
}

/// What a directive does.
#[derive(Clone, Copy)]
pub enum DirectiveKind {
    /// It stands alone.
    Alone(Plain),
    /// It opens a group.
    Opening(Test),
    Elif,
    Else,
    Endif,
}

// A directive's word, and its kind.
const WORDS: [WordEntry<DirectiveKind>; 13] = [
    (b"include", DirectiveKind::Alone(Plain::Include)),
    (b"define", DirectiveKind::Alone(Plain::Define)),
    (b"undef", DirectiveKind::Alone(Plain::Undef)),
    (b"if", DirectiveKind::Opening(Test::If)),
    (b"ifdef", DirectiveKind::Opening(Test::Ifdef)),
    (b"ifndef", DirectiveKind::Opening(Test::Ifndef)),
    (b"elif", DirectiveKind::Elif),
    (b"else", DirectiveKind::Else),
    (b"endif", DirectiveKind::Endif),
    (b"error", DirectiveKind::Alone(Plain::Error)),
    (b"pragma", DirectiveKind::Alone(Plain::Pragma)),
    (b"warning", DirectiveKind::Alone(Plain::Ignored)),
    (b"ident", DirectiveKind::Alone(Plain::Ignored)),
];

impl DirectiveKind {
    /// The kind of the directive with this word.
    pub fn of(word: &[u8]) -> DirectiveKind
        ensures { result ≡ directive_kind word.now }
    {
        value_of(table(), word).unwrap_or(DirectiveKind::Alone(Plain::Unknown))
    }

    /// Whether it is `else`.
    pub fn is_else(self) -> bool
        ensures { result ≡ is_else self }
    {
        match self {
            DirectiveKind::Else => true,
            _ => false,
        }
    }
}

#[tactic(auto, unfolding(crate::specs::Line::words))]
fn table() -> &'static [WordEntry<DirectiveKind>]
    ensures { map entry_of result.now ≡ words }
{
    &WORDS
}
