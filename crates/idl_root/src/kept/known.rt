//! The results of units that are known before they are come to.

ghost use Rattle.std.specs.Prelude.{◌≡◌, ◌∷◌, ℕ, IfSome, Some, suc};
ghost use Rattle.idl_root.specs.Passed.{known_results};
ghost use Rattle.idl_store.specs.Spots.{result_on};

use idl_kept::{Declarations, KeptDeclaration};
use idl_store::Spot;

/// Results that stand from a spot on.
#[derive(Clone, Copy)]
pub struct Known<'s> {
    declarations: &'s Declarations,
    spot: Spot,
}

impl<'s> Known<'s> {
    /// Those from that spot on.
    pub fn new(declarations: &'s Declarations, spot: Spot) -> Known<'s>
        ensures declarations { result.declarations.now ≡ declarations.now }
        ensures spot { result.spot ≡ spot }
    {
        Known { declarations, spot }
    }

    /// Where they stand.
    pub fn declarations(self) -> &'s Declarations
        ensures { result.now ≡ self.entry.declarations.now }
    {
        self.declarations
    }

    /// The spot of the first.
    pub fn spot(self) -> Spot
        ensures { result ≡ self.entry.spot }
    {
        self.spot
    }

    /// The first of them, and those behind it.
    pub fn split_first(self) -> Option<(&'s KeptDeclaration, Known<'s>)>
        ensures first { IfSome result (λ f.
            result_on self.entry.declarations.now self.entry.spot ≡ Some f.0.now) }
        ensures behind { IfSome result (λ f. (count : ℕ)
            → known_results self.entry (suc count) ≡ f.0.now ∷ known_results f.1 count) }
        ensures declarations { IfSome result (λ f.
            f.1.declarations.now ≡ self.entry.declarations.now) }
    {
        let first = self.declarations.at(self.spot)?;
        let place = self.spot.place.checked_add(1)?;
        let spot = Spot { place, ..self.spot };
        let behind = Known::new(self.declarations, spot);
        Some((first, behind))
    }
}
