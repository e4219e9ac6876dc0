//! The table of keywords, and the look-up of a word in it.

ghost use Rattle.std.specs.Prelude.{◌≡◌, ◌%◌, ◌↔◌, IsTrue, length, map};
ghost use Rattle.std.specs.Option.{option_map};
ghost use Rattle.idl_lex.specs.kinds.Keywords.{folded, keywords, like_keyword};
ghost use Rattle.idl_lex.specs.kinds.KeywordTable.{if_alike, place, places};
ghost use Rattle.idl_lex.specs.kinds.WordTable.{entry_of};

use crate::kinds::keyword::Keyword;
use crate::kinds::kind::TokenKind;
use crate::kinds::word_table::WordEntry;

// Each keyword with the kind of its spelling. Those that begin with one letter, whatever its case, stand together.
const KEYWORDS: [WordEntry<TokenKind>; 72] = [
    (b"abstract", TokenKind::Refused),
    (b"any", TokenKind::Accepted(Keyword::Any)),
    (b"attribute", TokenKind::Accepted(Keyword::Attribute)),
    (b"boolean", TokenKind::Accepted(Keyword::Boolean)),
    (b"case", TokenKind::Accepted(Keyword::Case)),
    (b"char", TokenKind::Accepted(Keyword::Char)),
    (b"component", TokenKind::Refused),
    (b"const", TokenKind::Accepted(Keyword::Const)),
    (b"consumes", TokenKind::Refused),
    (b"context", TokenKind::Accepted(Keyword::Context)),
    (b"custom", TokenKind::Refused),
    (b"default", TokenKind::Accepted(Keyword::Default)),
    (b"double", TokenKind::Accepted(Keyword::Double)),
    (b"emits", TokenKind::Refused),
    (b"enum", TokenKind::Accepted(Keyword::Enum)),
    (b"eventtype", TokenKind::Refused),
    (b"exception", TokenKind::Accepted(Keyword::Exception)),
    (b"factory", TokenKind::Refused),
    (b"FALSE", TokenKind::Accepted(Keyword::False)),
    (b"finder", TokenKind::Refused),
    (b"fixed", TokenKind::Refused),
    (b"float", TokenKind::Accepted(Keyword::Float)),
    (b"getraises", TokenKind::Accepted(Keyword::Getraises)),
    (b"home", TokenKind::Refused),
    (b"import", TokenKind::Refused),
    (b"in", TokenKind::Accepted(Keyword::In)),
    (b"inout", TokenKind::Accepted(Keyword::Inout)),
    (b"int16", TokenKind::Accepted(Keyword::Int16)),
    (b"int32", TokenKind::Accepted(Keyword::Int32)),
    (b"int64", TokenKind::Accepted(Keyword::Int64)),
    (b"int8", TokenKind::Accepted(Keyword::Int8)),
    (b"interface", TokenKind::Accepted(Keyword::Interface)),
    (b"local", TokenKind::Accepted(Keyword::Local)),
    (b"long", TokenKind::Accepted(Keyword::Long)),
    (b"module", TokenKind::Accepted(Keyword::Module)),
    (b"multiple", TokenKind::Refused),
    (b"native", TokenKind::Accepted(Keyword::Native)),
    (b"Object", TokenKind::Accepted(Keyword::Object)),
    (b"octet", TokenKind::Accepted(Keyword::Octet)),
    (b"oneway", TokenKind::Accepted(Keyword::Oneway)),
    (b"out", TokenKind::Accepted(Keyword::Out)),
    (b"primarykey", TokenKind::Refused),
    (b"private", TokenKind::Refused),
    (b"provides", TokenKind::Refused),
    (b"public", TokenKind::Refused),
    (b"publishes", TokenKind::Refused),
    (b"raises", TokenKind::Accepted(Keyword::Raises)),
    (b"readonly", TokenKind::Accepted(Keyword::Readonly)),
    (b"sequence", TokenKind::Accepted(Keyword::Sequence)),
    (b"setraises", TokenKind::Accepted(Keyword::Setraises)),
    (b"short", TokenKind::Accepted(Keyword::Short)),
    (b"string", TokenKind::Accepted(Keyword::String)),
    (b"struct", TokenKind::Accepted(Keyword::Struct)),
    (b"supports", TokenKind::Refused),
    (b"switch", TokenKind::Accepted(Keyword::Switch)),
    (b"TRUE", TokenKind::Accepted(Keyword::True)),
    (b"truncatable", TokenKind::Refused),
    (b"typedef", TokenKind::Accepted(Keyword::Typedef)),
    (b"typeid", TokenKind::Accepted(Keyword::Typeid)),
    (b"typeprefix", TokenKind::Accepted(Keyword::Typeprefix)),
    (b"uint16", TokenKind::Accepted(Keyword::Uint16)),
    (b"uint32", TokenKind::Accepted(Keyword::Uint32)),
    (b"uint64", TokenKind::Accepted(Keyword::Uint64)),
    (b"uint8", TokenKind::Accepted(Keyword::Uint8)),
    (b"union", TokenKind::Accepted(Keyword::Union)),
    (b"unsigned", TokenKind::Accepted(Keyword::Unsigned)),
    (b"uses", TokenKind::Refused),
    (b"ValueBase", TokenKind::Refused),
    (b"valuetype", TokenKind::Refused),
    (b"void", TokenKind::Accepted(Keyword::Void)),
    (b"wchar", TokenKind::Accepted(Keyword::Wchar)),
    (b"wstring", TokenKind::Accepted(Keyword::Wstring)),
];

// Where each keyword stands in the table, by what three of its letters and its length make together; 255 for what none makes.
const PLACES: [u8; 256] = [
    37, 255, 255, 255, 255, 255, 255, 11, 255, 255, 67, 255, 255, 255, 255, 255, 255, 35, 3, 255,
    29, 255, 47, 27, 20, 19, 32, 255, 255, 255, 63, 255, 5, 24, 255, 255, 52, 255, 255, 255, 57,
    255, 255, 42, 71, 255, 255, 255, 255, 255, 255, 255, 255, 43, 255, 41, 255, 255, 255, 255, 255,
    255, 2, 68, 255, 23, 1, 255, 255, 255, 255, 44, 255, 28, 255, 255, 25, 255, 13, 255, 255, 62,
    255, 255, 60, 255, 255, 255, 255, 255, 50, 255, 255, 255, 255, 17, 255, 255, 255, 255, 21, 70,
    255, 255, 255, 255, 255, 56, 255, 255, 255, 40, 255, 255, 255, 255, 255, 255, 14, 255, 8, 255,
    255, 26, 255, 255, 255, 255, 255, 255, 255, 255, 255, 16, 61, 255, 255, 255, 255, 58, 255, 255,
    39, 59, 255, 255, 255, 255, 255, 255, 255, 255, 255, 255, 255, 255, 255, 255, 255, 255, 255,
    255, 255, 255, 255, 46, 12, 255, 255, 255, 255, 255, 255, 255, 255, 34, 255, 255, 255, 255,
    255, 255, 48, 51, 255, 255, 255, 255, 255, 31, 255, 255, 255, 38, 255, 255, 255, 55, 66, 255,
    255, 255, 36, 255, 255, 255, 255, 255, 10, 255, 9, 7, 54, 255, 255, 255, 255, 255, 6, 255, 255,
    22, 33, 53, 255, 30, 255, 255, 255, 255, 45, 255, 255, 49, 255, 69, 255, 255, 255, 255, 255,
    64, 4, 255, 0, 255, 18, 255, 255, 255, 65, 255, 255, 255, 15, 255,
];

// A place past the table.
const NOWHERE: usize = 255;

// A keyword has at least two bytes, and so many at the most.
const LONGEST: usize = 11;

/// The keyword that the word is but for the case of letters.
pub fn like_keyword(word: &[u8]) -> Option<WordEntry<TokenKind>>
    ensures { option_map entry_of result ≡ like_keyword word.now }
{
    match keyword_at(word) {
        Some(entry) if are_alike(entry.0, word) => Some(entry),
        _ => None,
    }
}

/// The one keyword that the word can be but for the case of letters, if it can be one.
pub fn keyword_at(word: &[u8]) -> Option<WordEntry<TokenKind>>
    ensures { like_keyword word.now ≡ if_alike word.now (option_map entry_of result) }
{
    let keywords = table();
    let place = place_of(word);
    if keywords.len() <= place {
        return None;
    }
    Some(keywords[place])
}

#[tactic(auto, unfolding(crate::specs::kinds::Keywords::keywords))]
fn table() -> &'static [WordEntry<TokenKind>]
    ensures all { map entry_of result.now ≡ keywords }
    ensures len { length result.now ≡ 72 }
{
    &KEYWORDS
}

// Where the table has the one keyword that the word can be, but for the case of letters, if it can be one.
fn place_of(word: &[u8]) -> usize
    ensures { result ≡ place (folded word.now) }
{
    let len = word.len();
    if len < 2 || LONGEST < len {
        return NOWHERE;
    }
    let mixed = letter(word[0]) + 144 * letter(word[1]) + 153 * letter(word[len - 2]) + len;
    places()[mixed % 256] as usize
}

// Which letter the byte is, if it is one: a capital one and a small one are the same.
fn letter(b: u8) -> usize
    ensures { result ≡ b % 32 }
{
    (b % 32) as usize
}

#[tactic(auto, unfolding(crate::specs::kinds::KeywordTable::places))]
fn places() -> &'static [u8]
    ensures { result.now ≡ places }
{
    &PLACES
}

/// Whether two words are the same but for the case of letters.
pub fn are_alike(a: &[u8], b: &[u8]) -> bool
    ensures { IsTrue result ↔ (folded a.now ≡ folded b.now) }
{
    if a.len() != b.len() {
        return false;
    }
    for (i, byte) in a.iter().enumerate() {
        if *byte != b[i] && !byte.eq_ignore_ascii_case(&b[i]) {
            return false;
        }
    }
    true
}
