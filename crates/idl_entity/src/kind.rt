//! What is declared, and how far its declaration has come.

ghost use Rattle.std.specs.Prelude.{◌≡◌, Some, refl};
ghost use Rattle.std.specs.Cmp.{nat_cmp_total, nat_eq_equiv, on_equiv, on_per, on_po, on_total, partial_equiv_from_equiv, unsigned_po, unsigned_ties};
ghost use Rattle.std.specs.Ordering.{nat_cmp, on};
ghost use Rattle.idl_entity.specs.declared.kind.Kind.TheVariants.{Interface};
ghost use Rattle.idl_entity.specs.Kind.{kind_number, kind_eq, same_kind, stage_number, stage_eq, same_stage, has_bases, inherits, is_scope};

use idl_base::Datum;
use std::cmp::Ordering;

/// What is declared, and what a scope is of. The global scope is a module, and it is no entity.
#[derive(Clone, Copy)]
pub enum Kind {
    Module,
    Interface,
    Structure,
    Union,
    Exception,
    Enumeration,
    Enumerator,
    Alias,
    Native,
    Constant,
    Attribute,
    Operation,
    Parameter,
    Member,
}

/// How far a declaration has come.
#[derive(Clone, Copy)]
pub enum Stage {
    /// It is declared ahead, and not yet defined.
    Ahead,
    /// Its definition has begun, and its bases don't count yet.
    Begun,
    /// It is open with its bases: the scope in which its own declarations stand.
    Open,
    /// It is defined: an interface is closed.
    Complete,
}

impl Kind {
    // A number for each.
    fn number(self) -> u8
        ensures { result ≡ kind_number self }
    {
        match self {
            Kind::Module => 0,
            Kind::Interface => 1,
            Kind::Structure => 2,
            Kind::Union => 3,
            Kind::Exception => 4,
            Kind::Enumeration => 5,
            Kind::Enumerator => 6,
            Kind::Alias => 7,
            Kind::Native => 8,
            Kind::Constant => 9,
            Kind::Attribute => 10,
            Kind::Operation => 11,
            Kind::Parameter => 12,
            Kind::Member => 13,
        }
    }
}

impl Kind {
    /// Whether a scope of this kind has what its bases have.
    pub fn inherits(self) -> bool
        ensures { result ≡ inherits self }
    {
        self == Kind::Interface || self == Kind::Structure
    }

    /// Whether it is that of an interface.
    pub fn is_interface(self) -> bool
        ensures { result ≡ kind_eq self Interface }
    {
        self == Kind::Interface
    }

    /// Whether further parts of a name are looked for in an entity of this kind.
    pub fn is_scope(self) -> bool
        ensures { result ≡ is_scope self }
    {
        match self {
            Kind::Module | Kind::Interface | Kind::Structure | Kind::Union | Kind::Exception =>
                true,
            _ => false,
        }
    }
}

impl Stage {
    /// Whether what is declared in bases is reached from an entity at this stage.
    pub fn has_bases(self) -> bool
        ensures { result ≡ has_bases self }
    {
        match self {
            Stage::Ahead | Stage::Begun => false,
            Stage::Open | Stage::Complete => true,
        }
    }
}

impl PartialEq for Kind {
    ghost eq = { kind_eq };

    ghost laws = { on_per kind_number (partial_equiv_from_equiv nat_eq_equiv) };

    fn eq(&self, other: &Kind) -> bool
        ensures { result ≡ kind_eq self.now other.now }
    {
        self.number() == other.number()
    }
}

impl Eq for Kind {
    ghost laws = { on_equiv kind_number nat_eq_equiv };
}

impl PartialOrd for Kind {
    ghost partial_cmp = { λ x y. Some (nat_cmp (kind_number x) (kind_number y)) };

    ghost laws = { on_po kind_number unsigned_po };

    fn partial_cmp(&self, other: &Kind) -> Option<Ordering> {
        Some(self.cmp(other))
    }
}

impl Ord for Kind {
    ghost cmp = { on kind_number nat_cmp };

    ghost total = { on_total kind_number nat_cmp_total };

    ghost matches_partial_cmp = { λ x y. refl };

    ghost matches_eq = { λ x y. unsigned_ties (kind_number x) (kind_number y) };

    fn cmp(&self, other: &Kind) -> Ordering {
        self.number().cmp(&other.number())
    }
}

impl Datum for Kind {
    ghost same = { same_kind };

    ghost copy = { λ x y h. h };
}

impl Stage {
    // A number for each.
    fn number(self) -> u8
        ensures { result ≡ stage_number self }
    {
        match self {
            Stage::Ahead => 0,
            Stage::Begun => 1,
            Stage::Open => 2,
            Stage::Complete => 3,
        }
    }
}

impl PartialEq for Stage {
    ghost eq = { stage_eq };

    ghost laws = { on_per stage_number (partial_equiv_from_equiv nat_eq_equiv) };

    fn eq(&self, other: &Stage) -> bool
        ensures { result ≡ stage_eq self.now other.now }
    {
        self.number() == other.number()
    }
}

impl Eq for Stage {
    ghost laws = { on_equiv stage_number nat_eq_equiv };
}

impl PartialOrd for Stage {
    ghost partial_cmp = { λ x y. Some (nat_cmp (stage_number x) (stage_number y)) };

    ghost laws = { on_po stage_number unsigned_po };

    fn partial_cmp(&self, other: &Stage) -> Option<Ordering> {
        Some(self.cmp(other))
    }
}

impl Ord for Stage {
    ghost cmp = { on stage_number nat_cmp };

    ghost total = { on_total stage_number nat_cmp_total };

    ghost matches_partial_cmp = { λ x y. refl };

    ghost matches_eq = { λ x y. unsigned_ties (stage_number x) (stage_number y) };

    fn cmp(&self, other: &Stage) -> Ordering {
        self.number().cmp(&other.number())
    }
}

impl Datum for Stage {
    ghost same = { same_stage };

    ghost copy = { λ x y h. h };
}
