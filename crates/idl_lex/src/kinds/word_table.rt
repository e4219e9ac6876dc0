//! Short tables of words.

ghost use Rattle.std.specs.Prelude.{◌≡◌, map};
ghost use Rattle.idl_lex.specs.kinds.WordTable.{entry_of, value_of};

/// A word, and what it stands for.
pub type WordEntry<V> = (&'static [u8], V);

/// What a word stands for in a table: what its first entry has, or nothing. It looks at one entry after another.
pub fn value_of<V: Copy>(entries: &[WordEntry<V>], word: &[u8]) -> Option<V>
    ensures { result ≡ value_of (map entry_of entries.now) word.now }
{
    for entry in entries {
        if entry.0 == word {
            return Some(entry.1);
        }
    }
    None
}
