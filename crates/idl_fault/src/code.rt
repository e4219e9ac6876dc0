//! The codes of diagnostics.

ghost use Rattle.std.specs.Prelude.{◌≡◌, ◌≤◌};
ghost use Rattle.idl_fault.specs.Code.{code_text, is_error, number_of};

/// What a diagnostic says, from `E01` to `E75`, and the warning `W80`.
#[derive(Clone, Copy, PartialEq, Eq)]
pub enum Code {
    /// A token that is none of IDL. (E01)
    BadToken,
    /// A literal that isn't closed on its line. (E02)
    UnclosedLiteral,
    /// A character literal that isn't one character. (E03)
    NotOneCharacter,
    /// A bad escape, or the zero character in a string. (E04)
    BadEscape,
    /// A number that is no integer. (E05)
    MalformedInteger,
    /// A floating or fixed literal. (E06)
    FloatingLiteral,
    /// An integer of 2^64 or more. (E07)
    IntegerTooLarge,
    /// A wide string literal directly after a narrow one, or the other way round. (E08)
    MixedWidths,
    /// A comment that isn't closed. (E09)
    UnclosedComment,
    /// A root, or an included file, that isn't found. (E10)
    NotFound,
    /// An `include` without an operand. (E11)
    MalformedInclude,
    /// An `else`, `elif` or `endif` out of place. (E12)
    OutOfPlace,
    /// A group that isn't closed in its file. (E13)
    NotClosed,
    /// A directive that names no macro, or that gives a macro parameters. (E14)
    MalformedMacro,
    /// A directive that isn't known. (E15)
    UnknownDirective,
    /// What an `error` says. (E16)
    Error,
    /// A macro is defined again with other tokens. (E17)
    OtherDefinition,
    /// A condition without a value. (E18)
    BadCondition,
    /// A limit of the expansion of a root. (E19)
    PastLimit,
    /// No tree has this spelling. (E20)
    NoTree,
    /// A construct that this profile leaves out. (E21)
    LeftOut,
    /// A unit that its scope doesn't hold. (E22)
    MisplacedUnit,
    /// A scope that is open at the root's end. (E23)
    OpenScope,
    /// Nesting over 64. (E24)
    NestedTooDeep,
    /// A pragma inside a unit of tokens. (E25)
    PragmaInside,
    /// A malformed pragma, or a version number over 65535. (E26)
    MalformedPragma,
    /// A name that isn't found. (E30)
    NameNotFound,
    /// A name that bases give more than one meaning. (E31)
    AmbiguousName,
    /// A name in another case than the definition's. (E32)
    OtherCase,
    /// A name that is declared already in its scope. (E33)
    AlreadyDeclared,
    /// The scope's own name, declared in it. (E34)
    NameOfScope,
    /// A name that is declared after a use introduced it. (E35)
    DeclaredAfterUse,
    /// A name that differs from a keyword in the case of letters alone. (E36)
    LikeKeyword,
    /// A name of another kind than the one that is wanted. (E37)
    WrongKind,
    /// A name before `::` that is no scope. (E38)
    NoScope,
    /// A forward declaration of another kind, or of another `local`. (E39)
    OtherForward,
    /// A base that is only declared forward, or not closed yet. (E40)
    IncompleteBase,
    /// A base that is named twice. (E41)
    RepeatedBase,
    /// An operation or attribute that is inherited twice, or inherited and declared again. (E42)
    DeclaredAgain,
    /// A local base of an unconstrained interface. (E43)
    LocalBase,
    /// A name declared in a struct that is reached through its base. (E44)
    ReachedThroughBase,
    /// An operand or a value of another kind than the target. (E50)
    OtherType,
    /// A value out of range. (E51)
    OutOfRange,
    /// A division by zero. (E52)
    DivisionByZero,
    /// A bad shift. (E53)
    BadShift,
    /// A bound that isn't positive. (E54)
    BoundNotPositive,
    /// A type that no constant here can have. (E56)
    NoConstantType,
    /// An incomplete struct or union outside a sequence. (E57)
    IncompleteType,
    /// A type that no discriminator can have. (E60)
    BadDiscriminator,
    /// A label, or `default`, again. (E61)
    RepeatedLabel,
    /// A `default` where all values are labelled. (E62)
    UselessDefault,
    /// A oneway operation that gives something back. (E64)
    BadOneway,
    /// A name declared forward that is declared again under another prefix. (E70)
    OtherPrefix,
    /// An id that is given a second time, or another one after a version. (E71)
    RepeatedId,
    /// A version that is given a second time, or after an id. (E72)
    RepeatedVersion,
    /// A text that can be no prefix, or no id. (E73)
    BadIdText,
    /// A name that has no repository id. (E74)
    NoRepositoryId,
    /// A struct or union that is never defined. (E75)
    NeverDefined,
    /// A typeprefix that is given a second time. (E76)
    RepeatedTypeprefix,
    /// An interface that is never defined: the one warning, of the number 80.
    InterfaceNeverDefined,
}

impl Code {
    /// The number of the code, of two digits at most.
    pub fn number(self) -> u8
        ensures number { result ≡ number_of self }
        ensures below { result ≤ 99 }
    {
        match self {
            Code::BadToken => 1,
            Code::UnclosedLiteral => 2,
            Code::NotOneCharacter => 3,
            Code::BadEscape => 4,
            Code::MalformedInteger => 5,
            Code::FloatingLiteral => 6,
            Code::IntegerTooLarge => 7,
            Code::MixedWidths => 8,
            Code::UnclosedComment => 9,
            Code::NotFound => 10,
            Code::MalformedInclude => 11,
            Code::OutOfPlace => 12,
            Code::NotClosed => 13,
            Code::MalformedMacro => 14,
            Code::UnknownDirective => 15,
            Code::Error => 16,
            Code::OtherDefinition => 17,
            Code::BadCondition => 18,
            Code::PastLimit => 19,
            Code::NoTree => 20,
            Code::LeftOut => 21,
            Code::MisplacedUnit => 22,
            Code::OpenScope => 23,
            Code::NestedTooDeep => 24,
            Code::PragmaInside => 25,
            Code::MalformedPragma => 26,
            Code::NameNotFound => 30,
            Code::AmbiguousName => 31,
            Code::OtherCase => 32,
            Code::AlreadyDeclared => 33,
            Code::NameOfScope => 34,
            Code::DeclaredAfterUse => 35,
            Code::LikeKeyword => 36,
            Code::WrongKind => 37,
            Code::NoScope => 38,
            Code::OtherForward => 39,
            Code::IncompleteBase => 40,
            Code::RepeatedBase => 41,
            Code::DeclaredAgain => 42,
            Code::LocalBase => 43,
            Code::ReachedThroughBase => 44,
            Code::OtherType => 50,
            Code::OutOfRange => 51,
            Code::DivisionByZero => 52,
            Code::BadShift => 53,
            Code::BoundNotPositive => 54,
            Code::NoConstantType => 56,
            Code::IncompleteType => 57,
            Code::BadDiscriminator => 60,
            Code::RepeatedLabel => 61,
            Code::UselessDefault => 62,
            Code::BadOneway => 64,
            Code::OtherPrefix => 70,
            Code::RepeatedId => 71,
            Code::RepeatedVersion => 72,
            Code::BadIdText => 73,
            Code::NoRepositoryId => 74,
            Code::NeverDefined => 75,
            Code::RepeatedTypeprefix => 76,
            Code::InterfaceNeverDefined => 80,
        }
    }

    /// Whether it is the code of an error, and not of a warning.
    pub fn is_error(self) -> bool
        ensures { result ≡ is_error self }
    {
        match self {
            Code::InterfaceNeverDefined => false,
            _ => true,
        }
    }

    /// The code as a row shows it: a letter, and the two digits of its number.
    pub fn text(self) -> [u8; 3]
        ensures { result ≡ code_text self }
    {
        let number = self.number();
        let letter = if self.is_error() { b'E' } else { b'W' };
        [letter, b'0' + number / 10, b'0' + number % 10]
    }
}
