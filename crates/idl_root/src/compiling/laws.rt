//! The laws of what is told.

ghost use Rattle.std.specs.Prelude.{◌≡◌, ◌↔◌, ◌<◌, ◌≤◌, ◌^◌, ◌++◌, ◌∷◌, [], ℕ, All, List, None, Result, false, filter, flat_map, length, map, nat_eq, nat_lt, if◌then◌else◌};
ghost use Rattle.std.specs.List.{enumerate_from, list_any};
ghost use Rattle.idl_block.specs.Blocks.{walk};
ghost use Rattle.idl_env.specs.Facts.{UnitFacts, answers, scopes_in};
ghost use Rattle.idl_env.specs.Turns.{most_turns, turns_for};
ghost use Rattle.idl_env.specs.declared.keys.key.Key.TheVariants.{Cursor};
ghost use Rattle.idl_event.specs.Apart.{tokens_in};
ghost use Rattle.idl_event.specs.declared.told.event.Event.{Event};
ghost use Rattle.idl_fault.specs.Code.{is_error};
ghost use Rattle.idl_fault.specs.declared.code.Code.TheVariants.{OpenScope};
ghost use Rattle.idl_fault.specs.declared.place.Place.{Place};
ghost use Rattle.idl_lex.specs.tokens.Tokens.{Token};
ghost use Rattle.idl_memo.specs.Query.{outcome};
ghost use Rattle.idl_root_blocks.specs.idl_check.walk.Judging.{FitsMemory};
ghost use Rattle.idl_root_blocks.specs.idl_check.walk.Verdict.{tree_of, verdict, verdict_over};
ghost use Rattle.idl_root_blocks.specs.idl_check.declared.walk.verdict.Verdict.{Verdict};
ghost use Rattle.idl_root_blocks.specs.idl_check_laws.Closing.{AreTold};
ghost use Rattle.idl_root.specs.Closing.{ClosesAtFirst};
ghost use Rattle.idl_root.specs.Compile.{Outcome, compile, outcome_of, told};
ghost use Rattle.idl_root.specs.Compiled.{CompilesTo};
ghost use Rattle.idl_root.specs.Details.{details, printed};
ghost use Rattle.idl_root.specs.Judged.{HasTurns, Judged, facts_after, judged_after};
ghost use Rattle.idl_root.specs.Named.{named_after};
ghost use Rattle.idl_root.specs.NamePlaces.{declared_names};
ghost use Rattle.idl_root.specs.Places.{root_pieces};
ghost use Rattle.idl_root.specs.Printed.{closing_finding, entry_row, first_path, listed_in};
ghost use Rattle.idl_root_blocks.specs.Blocks.{parts_of};
ghost use Rattle.idl_root_blocks.specs.Places.{AreStandingOver, facts_over, unit_ways};
ghost use Rattle.idl_root_blocks.specs.Units.{text_of};
ghost use Rattle.idl_tree.specs.declared.unit.Tree.{Tree};
ghost use Rattle.idl_unit.specs.declared.unit.Unit.{Unit as RootUnit};
ghost use Rattle.idl_unit.specs.declared.unit.UnitText.{UnitText};
ghost use Rattle.idl_root.specs.Told.{IsTold};
ghost use Rattle.idl_root.specs.Turns.{FitsU64};
ghost use Rattle.idl_root.specs.Verdict.{IsRead, IsVerdict};
ghost use Rattle.idl_root.specs.declared.compiling.compiled.Compiled.{Compiled};
ghost use Rattle.idl_unit.specs.Units.{units_of};
ghost use Rattle.std.specs.List.Sorted.{IsNonDecreasingBy};
ghost use Rattle.idl_finding.specs.Findings.{finding_row, in_order, numbered};
ghost use Rattle.idl_finding.specs.declared.finding.EventFinding.{EventFinding};

use idl_repo::details::printing;
use idl_repo::listed_row;
use idl_root_blocks::idl_check_laws::{
    acceptance, ahead, least, more_turns, names, numbering, refusal, stopping,
};
use idl_root_blocks::{cutting, standing};
use idl_unit::nothing_lost;

/// What is found is told in the order of events: no finding names an event before that of an earlier one, and each event has
/// the findings that it had, in their order. This does nothing: it carries the law.
pub fn ordering()
    ensures order { (found : List EventFinding)
        → IsNonDecreasingBy (λ f. f.event) (in_order found) }
    ensures kept { (found : List EventFinding) (n : ℕ)
        → filter (λ f. nat_eq n f.event) (in_order found) ≡ filter (λ f. nat_eq n f.event) found }
{}

/// The fault of each unit of a root is told: it is found once, with its code and its token. The rows of a root's diagnostics are
/// those of what is found in it. This does nothing: it carries the laws.
pub fn telling()
    ensures told { (events : List Event) → All IsTold (judged_after [] (units_of events)) }
    ensures rows { (end : Place) (events : List Event)
        → (compile end events).diagnostics ≡ map finding_row (compile end events).findings }
{
    // It does nothing: it carries a law of verdicts.
    numbering();
}

/// The listing of a root without an error is what its details are printed as. This does nothing: it carries the law.
pub fn detailing()
    ensures { (end : Place) (events : List Event) → (compile end events).is_faulty ≡ false
        → (compile end events).listing ≡ printed (details events) }
{
    // They do nothing: they carry laws of the listing, and of trees.
    listed_row();
    printing();
}

/// Each name that the details of a root tell of has a place where it is declared. This does nothing: it carries the law.
pub fn placing()
    ensures { (events : List Event)
        → All (λ entry. 0 < length entry.places) (details events).entries }
{
    // They do nothing: they carry laws of names, and of verdicts.
    names();
    refusal();
    acceptance();
}

/// What is never defined is told where it is declared first: what is wrong with a name at the end of a root stands at the first of
/// its places. This does nothing: it carries the law.
pub fn closing()
    ensures { (events : List Event)
        → let o = outcome_of events in
        let names = declared_names events (named_after [] (units_of events)) in
        All (ClosesAtFirst events o.facts names) o.listed }
{
    // They do nothing: they carry laws of names, of verdicts, and of the listing.
    names();
    ahead();
    refusal();
    acceptance();
    listed_row();
}

/// The facts of a root are what verdicts tell, each over those before it: of them the law of closed interfaces speaks
/// (`inheriting` of `idl_check_laws`). Where they need no more turns than a verdict is taken with, none before them does: so the laws of
/// verdicts (`denoting`, `more_turns`) speak of each unit. This does nothing: it carries the law.
pub fn facts()
    ensures told { (units : List RootUnit) → HasTurns units → AreTold (facts_after [] units) }
    ensures before { (units more : List RootUnit) → HasTurns (units ++ more) → HasTurns units }
{
    // It does nothing: it carries a law of verdicts.
    more_turns();
}

/// What units add and what they come to is told by their text: by no file, and by no place of a token. So blocks (`idl_root_blocks`), of which texts are told alone, are those of units. This does nothing: it carries the law.
pub fn texts()
    ensures facts { (facts : List UnitFacts) (units : List RootUnit)
        → facts_after facts units ≡ facts_over facts (text_of units) }
    ensures verdicts { (facts : List UnitFacts) (units : List RootUnit)
        → map (λ j. j.verdict) (judged_after facts units)
        ≡ (walk unit_ways answers (parts_of (text_of units)) facts).0 }
{}

/// Each block of a root stands, as the laws of blocks (`taking`, `containing` of `idl_root_blocks`) suppose: what stands before it is
/// told, and words count what its units add. This does nothing: it carries the law.
pub fn blocks()
    ensures { (events : List Event)
        → FitsU64 events → AreStandingOver [] (root_pieces events) }
{
    texts();
    // They do nothing: they carry laws of pieces, and of blocks.
    cutting();
    standing();
}

/// Of the tokens of a unit is read the tree that they spell, or where they stop being the beginning of one: readers come to that, and to
/// nothing else. This does nothing: it carries the law.
pub fn reading_units()
    ensures { (tokens : List Token) (read : Result Tree ℕ)
        → IsRead tokens read ↔ (tree_of tokens ≡ read) }
{
    // They do nothing: they carry laws of trees.
    acceptance();
    stopping();
}

/// The verdict of a unit is told by the least of all its faults, and where it has none by what all its sites come to: it has one, that with
/// each number of turns that is enough for the facts before it. This does nothing: it carries the laws.
pub fn judging()
    ensures is { (facts : List UnitFacts) (turns : ℕ) (text : UnitText) (v : Verdict)
        → turns_for facts ≤ turns → FitsMemory text
        → IsVerdict facts text v ↔ (v ≡ outcome (verdict turns text) (answers facts)) }
    ensures once { (facts : List UnitFacts) (text : UnitText) (v w : Verdict)
        → IsVerdict facts text v → IsVerdict facts text w → v ≡ w }
{
    reading_units();
    // They do nothing: they carry laws of verdicts.
    least();
    refusal();
    acceptance();
    more_turns();
}

/// What a root compiles to is told by its units one by one, each of which has its verdict over the facts of those before it: by no
/// bound on turns. So it compiles to one thing. This does nothing: it carries the laws.
pub fn compiled()
    ensures is { (end : Place) (events : List Event) (compiled : Compiled)
        → FitsU64 events → length (tokens_in (enumerate_from 0 events)) < 2 ^ 64
        → CompilesTo end events compiled ↔ (compiled ≡ compile end events) }
    ensures once { (end : Place) (events : List Event) (c d : Compiled)
        → CompilesTo end events c → CompilesTo end events d → c ≡ d }
{
    judging();
    // It does nothing: it carries a law of units.
    nothing_lost();
}

/// What comes of a root is told in one: the verdict of a unit, which look-ups have turns enough for; the names that a unit declares first;
/// and the rows, none of a listing or a dump beside an error. This does nothing: it carries the laws.
pub fn outline()
    ensures verdict { (facts : List UnitFacts) (text : UnitText) (v : Verdict)
        → turns_for facts ≤ most_turns → FitsMemory text
        → (verdict_over facts text ≡ v) ↔ IsVerdict facts text v }
    ensures listed { (j : Judged) → listed_in j
        ≡ map (λ path. record { path = path; text = j.text; sites = j.sites })
        (flat_map first_path j.verdict.writes.additions) }
    ensures rows { (end : Place) (events : List Event) (o : Outcome) → told end events o ≡ (
        let is_open = nat_lt 1 (length (scopes_in (answers o.facts Cursor))) in
        let found = (map (numbered events) (in_order o.found) ++ (if is_open
        then record { place = end; code = OpenScope; text = None; number = None } ∷ [] else []))
        ++ map (numbered events) (flat_map (closing_finding o.facts) o.listed) in
        let is_faulty = list_any (λ f. is_error f.code) found in
        record {
          findings = found;
          diagnostics = map finding_row found;
          listing = if is_faulty then [] else flat_map (entry_row o.facts) o.listed;
          dump = if is_faulty then [] else o.rows;
          is_faulty = is_faulty;
          is_open = is_open;
        }) }
{
    judging();
}
