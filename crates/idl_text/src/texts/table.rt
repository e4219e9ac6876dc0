//! The texts of a file, by where they begin.

ghost use Rattle.std.specs.Prelude.{◌≡◌, IfSome};
ghost use Rattle.std.specs.List.{Contains};

use idl_lex::Token;

/// A text of a file: with which of the file's tokens it begins, how many tokens it has, and its words, in the order in which
/// they stand there first.
pub struct TextSpan {
    pub from: usize,
    pub count: usize,
    pub words: Vec<Token>,
}

impl Drop for TextSpan {
    fn drop(self) {
        let TextSpan {
            from: _from,
            count: _count,
            words: _words,
        } = self;
    }
}

/// The texts of a file, in their order.
pub struct TextTable {
    pub texts: Vec<TextSpan>,
}

impl Drop for TextTable {
    fn drop(self) {
        let TextTable { texts: _texts } = self;
    }
}

impl TextTable {
    /// The text that begins with this token, if one is found.
    pub fn text_from(&self, from: usize) -> Option<&TextSpan>
        ensures { IfSome result
            (λ text. Contains self.now.texts.items text.now × (text.now.from ≡ from)) }
    {
        match self.texts.binary_search_by_key(&from, |text| text.from) {
            Ok(place) => Some(&self.texts[place]),
            Err(_) => None,
        }
    }
}
