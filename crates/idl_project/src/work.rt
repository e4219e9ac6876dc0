//! What an edit cost.

ghost use Rattle.std.specs.Prelude.{◌≡◌, ◌≤◌, ◌↔◌, ℕ, Contains, List, Option, length};
ghost use Rattle.std.specs.FinMap as finite;
ghost use Rattle.std.specs.List.{IsDistinct};
ghost use Rattle.std.specs.Str.{bytes_eq};
ghost use Rattle.idl_memo.specs.Meter.{compared_after};
ghost use Rattle.idl_inputs.specs.Asked.{asked_of};
ghost use Rattle.idl_inputs.specs.Project.{Project};
ghost use Rattle.idl_project.specs.Compared.{compared_in, most_compared_in};
ghost use Rattle.idl_project.specs.Details.{details_of, expansion_of};
ghost use Rattle.idl_project.specs.Related.{AreRelatedIn};
ghost use Rattle.idl_project.specs.UpToDate.{compiled_of};
ghost use Rattle.idl_project.specs.Work.{IsPassedOver, met_of, no_work, touched_of, work_of};
ghost use Rattle.idl_sources.specs.idl_related.declared.second.Related.{Related};

use idl_inputs::SessionBank;
use idl_memo::{Meter, freshness, reliance, sharing};
use idl_prep::RootTask;
use idl_sources::idl_root::comparing;
use idl_sources::idl_root::idl_root_blocks::meeting;

/// How many roots an edit expanded, declarations it checked and entries of a listing it printed, through kept results, and how many keys
/// those had asked that were alike where they were met.
///
/// Roots are met, of those that are expanded anew their entries, and the declarations and blocks that stand in no block, or directly in
/// one that is met and to which no kept one is alike. The last number stays at its greatest value once it is there.
#[derive(Clone, Copy, Debug, PartialEq, Eq)]
pub struct Work {
    pub expanded: u64,
    pub checked: u64,
    pub printed: u64,
    pub compared: u64,
}

impl Work {
    /// No work.
    pub fn none() -> Work
        ensures { result ≡ no_work }
    {
        Work {
            expanded: 0,
            checked: 0,
            printed: 0,
            compared: 0,
        }
    }

    /// The work that a meter has counted.
    pub fn counted(meter: &Meter) -> Work
        ensures { result ≡ record {
          expanded = meter.now.expanded;
          checked = meter.now.checked;
          printed = meter.now.printed;
          compared = meter.now.compared;
        } }
    {
        Work {
            expanded: meter.expanded,
            checked: meter.checked,
            printed: meter.printed,
            compared: meter.compared,
        }
    }
}

/// At how many keys an edit compares known tasks: wherever a known one is alike, at those that it asked, as far as the count goes. That is
/// no more than all known tasks asked that have the texts of the places that are met.
///
/// This does nothing: it carries the laws.
pub fn compared_is_bounded()
    ensures least { (old new : Project)
        → (work_of old new).compared ≡ compared_after 0 (compared_in (met_of old new)) }
    ensures most { (old new : Project)
        → (work_of old new).compared ≤ most_compared_in (met_of old new) }
{
    sharing::<SessionBank, RootTask>();
    meeting();
    comparing();
}

/// A root of before and after an edit that the edit doesn't expand anew compiles to what it did, has the same details, expands to the same,
/// and asks for the same files. Each of these is as it was. What may be told as second places of what is found
/// in the root is what it was. And as many roots are expanded anew as the work counts.
///
/// This does nothing: it carries the laws.
pub fn untouched_roots_stay()
    ensures compiled { (old new : Project) (root : List ℕ) → IsPassedOver old new root
        → compiled_of new root ≡ compiled_of old root }
    ensures details { (old new : Project) (root : List ℕ) → IsPassedOver old new root
        → details_of new root ≡ details_of old root }
    ensures expansion { (old new : Project) (root : List ℕ) → IsPassedOver old new root
        → expansion_of new root ≡ expansion_of old root }
    ensures asked { (old new : Project) (root : List ℕ) → IsPassedOver old new root
        → asked_of new root ≡ asked_of old root }
    ensures files { (old new : Project) (root name : List ℕ) → IsPassedOver old new root
        → Contains (asked_of old root) name
        → finite.get new.inputs.files name ≡ finite.get old.inputs.files name }
    ensures related { (old new : Project) (root : List ℕ) (count : ℕ)
        → (related : Option (List (List Related))) → IsPassedOver old new root
        → AreRelatedIn new root count related ↔ AreRelatedIn old root count related }
    ensures count { (old new : Project) → IsDistinct bytes_eq new.roots
        → length (touched_of old new) ≡ (work_of old new).expanded }
{
    freshness::<SessionBank, RootTask>();
    reliance::<SessionBank, RootTask>();
}
