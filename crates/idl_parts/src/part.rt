//! Sites.

use idl_base::{Bytes, Seq};
use idl_tree::declarations::{BasicType, Direction, DiscreteType};
use idl_tree::{Expression, ScopedName, Several};

/// What a name is declared as.
#[derive(Clone, Copy)]
pub enum Declaration {
    Module,
    /// An interface that is opened, and whether it is local.
    Interface(bool),
    /// An interface that is declared ahead, and whether it is local.
    InterfaceAhead(bool),
    Structure,
    StructureAhead,
    Union,
    UnionAhead,
    Exception,
    Enumeration,
    Enumerator,
    /// A name for a type.
    Alias,
    Native,
    Constant,
    /// An attribute, and whether it is readonly.
    Attribute(bool),
    /// An operation, and whether it is oneway.
    Operation(bool),
    Parameter(Direction),
    Member,
}

/// What a name is used as.
#[derive(Clone, Copy)]
pub enum Use {
    /// A base of an interface, and whether that interface is local.
    AsBase(bool),
    /// The base of a struct.
    AsStructBase,
    /// The type of what is declared.
    AsType,
    /// The type of a sequence's elements.
    AsElement,
    /// The type of a constant.
    AsConstantType,
    /// The type of a union's discriminator.
    AsDiscriminator,
    /// An operand of an expression.
    AsOperand,
    /// An exception that is raised.
    Raised,
    /// An exception that the writing of an attribute raises.
    RaisedBySet,
    /// What is given an id.
    AsIdentified,
    /// A scope whose ids are given a prefix.
    AsPrefixed,
}

/// What an expression is for.
#[derive(Clone, Copy)]
pub enum Purpose {
    /// The bound of a string or a sequence.
    Bound,
    /// The length of an array.
    Length,
    /// The value of a constant.
    Constant,
    /// The label of a case.
    Label,
}

/// What string literals that are joined are for.
#[derive(Clone, Copy)]
pub enum TextPurpose {
    /// The context of an operation.
    Context,
    /// The id of what a name denotes.
    Id,
    /// What the ids begin with of what is in a scope.
    Prefix,
}

/// What a type that is no name is, beside the type and the bound in it.
#[derive(Clone, Copy)]
pub enum Shape {
    Basic(BasicType),
    /// A string: whether it is wide, and whether it has a bound.
    Text(bool, bool),
    /// A sequence of the type that ended last, and whether it has a bound.
    Sequence(bool),
}

/// A part of a unit: tokens, or what begins or ends between two of them. What it names is lent by the unit's tree.
#[derive(Clone, Copy)]
pub enum UnitPart<'a> {
    /// So many tokens that declare and use nothing.
    Tokens(usize),
    /// A name that is declared.
    Declared(Declaration, &'a Bytes),
    /// A name that is used.
    Used(Use, &'a ScopedName),
    /// String literals that are joined, and what for.
    Joined(TextPurpose, &'a Several<Seq<u16>>),
    /// An expression begins.
    ValueBegins,
    /// That expression ends: what it is for, and its tree.
    ValueEnds(Purpose, &'a Expression),
    /// The scope of what is declared so, by this name, begins.
    ScopeBegins(Declaration, &'a Bytes),
    /// That scope ends.
    ScopeEnds,
    /// A type ends that is no name.
    TypeEnds(Shape),
    /// The lengths of the array that was declared last are told.
    ArrayEnds,
    /// The enum that is declared next has these enumerators.
    Enumerates(&'a Several<Bytes>),
    /// The name that follows is given this text, which stands behind it.
    Identifies(&'a Several<Seq<u16>>),
    /// The discriminator of a union is this type, whose keywords follow.
    Switches(DiscreteType),
    /// The label `default` follows.
    Default,
    /// What a `oneway` operation gives back follows: its result, an `out` or `inout`, or its `raises`.
    GivesBack,
}
