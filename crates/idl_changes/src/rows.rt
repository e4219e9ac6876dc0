//! The table of changes: for whom each of them counts.

ghost use Rattle.std.specs.Prelude.{◌≡◌};
ghost use Rattle.idl_changes.specs.Rows.{eased, item_word, weights_of};

/// For whom a change counts.
#[derive(Clone, Copy)]
pub struct Weights {
    /// A program built from the old listing can't call one built from the new one, or a type has other bytes, another id or another
    /// meaning by place.
    pub wire: bool,
    /// Source that calls or uses what the old listing has doesn't compile against the new one, or means something else.
    pub client: bool,
    /// Source that implements the old interfaces doesn't.
    pub servant: bool,
    /// It neither goes over the wire nor stands in source.
    pub names: bool,
    /// Nothing differs: it is there besides.
    pub added: bool,
}

/// Those of what counts for nobody.
pub const NOBODY: Weights = Weights {
    wire: false,
    client: false,
    servant: false,
    names: false,
    added: false,
};

/// Those of callers: on the wire, and for clients.
pub const CALLERS: Weights = Weights {
    client: true,
    ..WIRE_ALONE
};

const EVERYONE: Weights = Weights {
    servant: true,
    ..CALLERS
};

const WIRE_ALONE: Weights = Weights {
    wire: true,
    ..NOBODY
};

const SOURCE: Weights = Weights {
    client: true,
    ..SERVANTS
};

const SERVANTS: Weights = Weights {
    servant: true,
    ..NOBODY
};

const NAMES_ALONE: Weights = Weights {
    names: true,
    ..NOBODY
};

const ADDED_ALONE: Weights = Weights {
    added: true,
    ..NOBODY
};

/// What stands in a list with names.
#[derive(Clone, Copy)]
pub enum Item {
    Member,
    Parameter,
    Enumerator,
}

/// A line of the table.
#[derive(Clone, Copy)]
pub enum Line {
    SentGone,
    UnsentGone,
    CalledGone,
    CalledNew,
    EntryNew,
    SentId,
    OtherId,
    Path,
    Kind,
    Local,
    BaseGone,
    /// A base that is new and brings more to call.
    BringingBase,
    /// One that brings nothing.
    BareBase,
    ItemGone(Item),
    ItemNew(Item),
    ItemOrder(Item),
    ItemName(Item),
    StructBase,
    Direction,
    CaseGone,
    CaseNew,
    CaseName,
    DefaultGone,
    DefaultNew,
    /// A type that isn't sent the same.
    Type,
    /// One that is, but written otherwise, with a sequence or an array among what it is.
    LayeredType,
    /// One that is, but with another alias alone.
    AliasedType,
    ConstantType,
    ConstantAlias,
    ConstantValue,
    Oneway,
    Context,
    ExceptionNew,
    ExceptionGone,
    ReadonlyOn,
    ReadonlyOff,
}

/// For whom a line of the table counts.
pub fn weights_of(line: Line) -> Weights
    ensures { result ≡ weights_of line }
{
    match line {
        Line::SentGone | Line::Kind | Line::Local | Line::StructBase => EVERYONE,
        Line::Direction | Line::Context | Line::Type => EVERYONE,
        Line::CaseGone | Line::DefaultGone => EVERYONE,
        Line::ItemGone(_item) => EVERYONE,
        Line::ItemNew(Item::Member) | Line::ItemNew(Item::Parameter) => EVERYONE,
        Line::ItemNew(Item::Enumerator) => WIRE_ALONE,
        Line::ItemOrder(Item::Member) | Line::ItemOrder(Item::Parameter) => EVERYONE,
        Line::ItemOrder(Item::Enumerator) => WIRE_ALONE,
        Line::ItemName(Item::Member) | Line::ItemName(Item::Enumerator) => SOURCE,
        Line::ItemName(Item::Parameter) => NAMES_ALONE,
        Line::CalledGone | Line::BaseGone | Line::ExceptionNew | Line::ReadonlyOn => CALLERS,
        Line::SentId | Line::CaseNew | Line::DefaultNew | Line::Oneway => WIRE_ALONE,
        Line::UnsentGone | Line::Path | Line::CaseName | Line::LayeredType => SOURCE,
        Line::ConstantType | Line::ConstantValue | Line::ExceptionGone => SOURCE,
        Line::CalledNew | Line::BringingBase | Line::ReadonlyOff => SERVANTS,
        Line::OtherId | Line::AliasedType | Line::ConstantAlias => NAMES_ALONE,
        Line::EntryNew | Line::BareBase => ADDED_ALONE,
    }
}

/// The word of an item.
pub fn item_word(item: Item) -> &'static [u8]
    ensures { result.now ≡ item_word item }
{
    match item {
        Item::Member => b"member",
        Item::Parameter => b"parameter",
        Item::Enumerator => b"enumerator",
    }
}

/// For whom something counts that is called on a local interface, which never goes over the wire.
pub fn eased(weights: Weights) -> Weights
    ensures { result ≡ eased weights }
{
    if !weights.wire {
        return weights;
    }
    if weights.client || weights.servant {
        return Weights {
            wire: false,
            ..weights
        };
    }
    SOURCE
}
