//! Marks: what stands between words and literals.

/// A mark of the language.
#[derive(Clone, Copy, Debug, PartialEq, Eq)]
pub enum Mark {
    /// `;`
    Semicolon,
    /// `,`
    Comma,
    /// `{`
    OpenBrace,
    /// `}`
    CloseBrace,
    /// `(`
    OpenParenthesis,
    /// `)`
    CloseParenthesis,
    /// `::`
    ColonColon,
    /// `:`
    Colon,
    /// `<`
    Less,
    /// `>`
    Greater,
    /// `=`
    Equals,
    /// `[`
    OpenBracket,
    /// `]`
    CloseBracket,
    /// `+`
    Plus,
    /// `-`
    Minus,
    /// `*`
    Star,
    /// `/`
    Slash,
    /// `%`
    Percent,
    /// `~`
    Tilde,
    /// `|`
    Bar,
    /// `^`
    Caret,
    /// `&`
    Ampersand,
    /// `<<`
    ShiftLeft,
    /// `>>`
    ShiftRight,
}

/// A mark that the preprocessor alone knows.
#[derive(Clone, Copy, Debug, PartialEq, Eq)]
pub enum PreprocessorMark {
    /// `#`
    Hash,
    /// `##`
    HashHash,
    /// `!`
    Exclamation,
    /// `?`
    Question,
    /// `.`
    Dot,
    /// `&&`
    AndAnd,
    /// `||`
    OrOr,
    /// `==`
    EqualsEquals,
    /// `!=`
    NotEquals,
    /// `<=`
    LessEquals,
    /// `>=`
    GreaterEquals,
}
