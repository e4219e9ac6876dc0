//! What stands before a place on its line, as far as the tokens there depend on it.

ghost use Rattle.std.specs.Prelude.{◌≡◌, Bool};
ghost use Rattle.idl_lex.specs.bytes.Context.{closes, is_gap, is_newline, ends_block};

use crate::bytes::byte::is_space;
use crate::kinds::word::is_word;
use idl_source::NEWLINE;

/// How a line begins, as far as it goes.
#[derive(Clone, Copy)]
pub enum Beginning {
    /// With no token.
    Nothing,
    /// With `#` alone.
    Hash,
    /// With `#` and `include`.
    Include,
    /// With another token or other two.
    Other,
}

/// What stands before a place on its line.
#[derive(Clone, Copy)]
pub struct Context {
    /// How the line begins.
    pub beginning: Beginning,
    /// Whether a word ends at this place.
    pub follows_word: bool,
}

impl Beginning {
    ghost use Rattle.std.specs.Prelude.{◌≡◌, ◌∷◌, [], ℕ, true};
    ghost use Rattle.idl_lex.specs.bytes.Context.{is_hash, is_nothing, is_include, beginning_after};
    ghost use Rattle.idl_lex.specs.kinds.Marks.{is_lone_mark};
    ghost use Rattle.idl_lex.specs.kinds.Word.{is_word};

    /// Whether there is no token.
    pub fn is_nothing(self) -> bool
        ensures { result ≡ is_nothing self }
    {
        match self {
            Beginning::Nothing => true,
            _ => false,
        }
    }

    /// Whether the line includes a file.
    pub fn is_include(self) -> bool
        ensures { result ≡ is_include self }
    {
        match self {
            Beginning::Include => true,
            _ => false,
        }
    }

    // Whether `#` is the one token.
    fn is_hash(self) -> bool
        ensures { result ≡ is_hash self }
    {
        match self {
            Beginning::Hash => true,
            _ => false,
        }
    }

    // The beginning with one token more that is neither `#` nor `include`.
    fn with_other(self) -> Beginning
        ensures { (b : ℕ) → is_lone_mark b ≡ true → result ≡ beginning_after self (b ∷ []) }
    {
        match self {
            Beginning::Include => Beginning::Include,
            _ => Beginning::Other,
        }
    }

    // The beginning with one word more.
    fn with_word(self, word: &[u8]) -> Beginning
        requires { is_word word.now ≡ true }
        ensures { result ≡ beginning_after self word.now }
    {
        if self.is_include() || self.is_hash() && word == b"include".as_slice() {
            Beginning::Include
        } else {
            Beginning::Other
        }
    }

    /// The beginning with one token more.
    fn with(self, spelling: &[u8]) -> Beginning
        ensures { result ≡ beginning_after self spelling.now }
    {
        match self {
            Beginning::Nothing if spelling == b"#".as_slice() => Beginning::Hash,
            Beginning::Hash if spelling == b"include".as_slice() => Beginning::Include,
            Beginning::Include => Beginning::Include,
            _ => Beginning::Other,
        }
    }
}

impl Context {
    ghost use Rattle.std.specs.Prelude.{◌≡◌, ◌∷◌, [], ℕ, true};
    ghost use Rattle.idl_lex.specs.bytes.Byte.{is_space};
    ghost use Rattle.idl_lex.specs.bytes.Context.{line_start, context_after};
    ghost use Rattle.idl_lex.specs.kinds.Marks.{is_lone_mark};
    ghost use Rattle.idl_lex.specs.kinds.Word.{is_word};

    /// Where a line begins.
    pub fn line_start() -> Context
        ensures { result ≡ line_start }
    {
        Context {
            beginning: Beginning::Nothing,
            follows_word: false,
        }
    }

    /// What stands before a place where one white byte more stands before it.
    pub fn after_space(self, b: u8) -> Context
        requires { is_space b ≡ true }
        ensures { result ≡ context_after self (b ∷ []) }
    {
        if b == NEWLINE {
            return Context::line_start();
        }
        Context {
            beginning: self.beginning,
            follows_word: false,
        }
    }

    /// What stands before a place where one word more stands before it.
    pub fn after_word(self, word: &[u8]) -> Context
        requires { is_word word.now ≡ true }
        ensures { result ≡ context_after self word.now }
    {
        Context {
            beginning: self.beginning.with_word(word),
            follows_word: true,
        }
    }

    /// What stands before a place where one lone mark more stands before it.
    pub fn after_mark(self) -> Context
        ensures { (b : ℕ) → is_lone_mark b ≡ true → result ≡ context_after self (b ∷ []) }
    {
        Context {
            beginning: self.beginning.with_other(),
            follows_word: false,
        }
    }

    /// What stands before a place where one piece more stands before it.
    pub fn after(self, piece: &[u8]) -> Context
        ensures { result ≡ context_after self piece.now }
    {
        if is_newline(piece) {
            Context::line_start()
        } else if is_gap(piece) {
            Context {
                beginning: self.beginning,
                follows_word: false,
            }
        } else {
            Context {
                beginning: self.beginning.with(piece),
                follows_word: is_word(piece),
            }
        }
    }
}

/// Whether a piece is no token: a white byte, a newline, or a comment that is closed.
pub fn is_gap(piece: &[u8]) -> bool
    ensures { result ≡ is_gap piece.now }
{
    match piece {
        [] => true,
        [b, ..] if is_space(*b) => true,
        [b'/', rest @ ..] => closes(rest),
        _ => false,
    }
}

/// Whether `*/` stands here.
pub fn ends_block(bytes: &[u8]) -> bool
    ensures { result ≡ ends_block Bool.false bytes.now }
{
    let mut is_after_star = false;
    for b in bytes {
        if is_after_star && *b == b'/' {
            return true;
        }
        is_after_star = *b == b'*';
    }
    false
}

// Whether a piece is a newline.
fn is_newline(piece: &[u8]) -> bool
    ensures { result ≡ is_newline piece.now }
{
    match piece {
        [NEWLINE, ..] => true,
        _ => false,
    }
}

// Whether these bytes after a `/` make a comment that is closed.
fn closes(rest: &[u8]) -> bool
    ensures { result ≡ closes rest.now }
{
    match rest {
        [b'/', ..] => true,
        [b'*', rest @ ..] => ends_block(rest),
        _ => false,
    }
}
