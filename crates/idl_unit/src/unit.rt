//! Units.

ghost use Rattle.std.specs.Prelude.{◌≡◌};
ghost use Rattle.std.proofs.Common.{ap};
ghost use Rattle.idl_unit.specs.declared.unit.UnitText.TheVariants.{Tokens, Pragma};

use crate::site_run::SiteRun;
use idl_base::Datum;
use idl_event::idl_text::TokenRange;
use idl_fault::FileName;
use std::hash::Hash;
use std::marker::Model;

/// The tokens of a unit, wherever they stand. Two are equal where these are, and clones share them.
#[derive(Clone, PartialEq, Eq, PartialOrd, Ord, Hash, Drop)]
pub enum UnitText {
    /// Tokens of the text: an opening, a closing or a declaration.
    Tokens(TokenRange),
    /// A pragma from that word on, and whether it stands inside a unit of tokens.
    Pragma(TokenRange, bool),
}

impl Datum for UnitText {
    ghost use Rattle.std.specs.Cmp.Lexicographic.{bytes_decides, pointwise_decides};
    ghost use Rattle.idl_base.specs.Exact.{both, same_bool};

    ghost same = { elim [
      | Tokens a ↦ elim [ Tokens b ↦ λ h. ap Tokens ((pointwise_decides bytes_decides a b).0 h) | Pragma b c ↦ λ h. cc ]
      | Pragma a c ↦ elim [ Tokens b ↦ λ h. cc | Pragma b d ↦ λ h. let parts = both _ _ h in λ i. Pragma ((pointwise_decides bytes_decides a b).0 parts.0 i) (same_bool c d parts.1 i) ]
    ] };

    ghost copy = { elim [
      | Tokens a ↦ elim [ Tokens b ↦ λ h. ap Tokens h | Pragma b c ↦ λ h. absurd h ]
      | Pragma a c ↦ elim [ Tokens b ↦ λ h. absurd h | Pragma b d ↦ λ h. λ i. Pragma (h.0 i) (h.1 i) ]
    ] };
}

/// One of the units of a root.
pub enum Unit {
    /// A unit with tokens, and where each of them stands; of a pragma, where the word `pragma` stands.
    Spelled(UnitText, SiteRun),
    /// A file is entered, and whether inside a unit of tokens.
    Entered(FileName, bool),
    /// A file is left, and whether inside a unit of tokens.
    Left(FileName, bool),
    /// The end of the root.
    End,
}

impl Drop for Unit {
    fn drop(self) {
        match self {
            Unit::Spelled(_text, _sites) => {}
            Unit::Entered(_file, _inside) | Unit::Left(_file, _inside) => {}
            Unit::End => {}
        }
    }
}

/// The units of a root, in order. To every contract they are their list.
#[derive(Drop)]
pub struct Units {
    units: Vec<Unit>,
}

impl Model for Units {
    ghost use Rattle.std.specs.Prelude.{List};
    ghost use Rattle.idl_unit.specs.declared.unit.Unit.{Unit as RootUnit};

    ghost Value = { List RootUnit };

    ghost view = { λ units. units.units.items };
}

impl Units {
    /// These units. It takes no memory.
    pub fn from_vec(units: Vec<Unit>) -> Units
        ensures { result ≡ units.items }
    {
        Units { units }
    }

    /// The units in order.
    pub fn as_slice(&self) -> &[Unit]
        ensures { result.now ≡ self.now }
    {
        &self.units
    }
}
