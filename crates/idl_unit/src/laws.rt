//! The laws of cuts.

ghost use Rattle.std.specs.Prelude.{◌≡◌, ◌∷◌, ◌++◌, [], List, false, flat_map};
ghost use Rattle.std.specs.List.{enumerate_from};
ghost use Rattle.idl_event.specs.Apart.{sites_in, tokens_in};
ghost use Rattle.idl_event.specs.declared.told.event.Event.{Event};
ghost use Rattle.idl_lex.specs.tokens.Tokens.{Token};
ghost use Rattle.idl_unit.specs.Ending.{ends, token_units};
ghost use Rattle.idl_unit.specs.Held.{other_in, text_in, text_sites};
ghost use Rattle.idl_unit.specs.Parts.{IsCutInto, joined};
ghost use Rattle.idl_unit.specs.Units.{unit_in, units_of};
ghost use Rattle.idl_unit.specs.declared.unit.Unit.TheVariants.{End};

/// Every list of tokens is cut into units, and in one way only.
pub fn one_cut()
    ensures cut { (tokens : List Token) → IsCutInto ends tokens (token_units tokens) }
    ensures only { (tokens : List Token) (units : List (List Token)) → IsCutInto ends tokens units
        → units ≡ token_units tokens }
{}

/// The units of events hold what the events do, in their order: the units of tokens are those of the tokens, which are
/// theirs end to end, at their sites, and the pragmas and file boundaries keep their order.
pub fn nothing_lost()
    ensures units { (events : List Event) → flat_map text_in (units_of events)
        ≡ token_units (tokens_in (enumerate_from 0 events)) }
    ensures tokens { (events : List Event) → joined (flat_map text_in (units_of events))
        ≡ tokens_in (enumerate_from 0 events) }
    ensures sites { (events : List Event) → flat_map text_sites (units_of events)
        ≡ sites_in (enumerate_from 0 events) }
    ensures others { (events : List Event) → flat_map other_in (units_of events)
        ≡ flat_map (unit_in false) (enumerate_from 0 events) ++ End ∷ [] }
{}
