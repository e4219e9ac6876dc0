//! Second places.

ghost use Rattle.std.specs.Prelude.{◌≡◌, IfOk, slice_get};
ghost use Rattle.std.specs.Option.{option_copied};
ghost use Rattle.idl_finding.specs.Findings.{site_of, tokens_of};
ghost use Rattle.idl_related.specs.Follows.{follows, is_faulty};
ghost use Rattle.idl_related.specs.Reasons.{reason_words};

use idl_base::Bytes;
use idl_event::Site;
use idl_fault::Place;
use idl_unit::{SiteRun, UnitText};
use std::alloc::AllocError;

/// Why a second place is told.
#[derive(Clone, Copy, PartialEq, Eq, Debug)]
pub enum Reason {
    /// What the finding speaks of is declared there.
    Declared,
    /// The name was used there before, as that of another one.
    Used,
    /// The base was named there before.
    Named,
    /// The label stands there already.
    Labelled,
    /// The id, the version or the typeprefix was given there.
    Given,
    /// What would have been declared there has an error itself.
    Faulty,
    /// A name that is near is declared there.
    Near,
}

impl Reason {
    /// In words, as they stand before the token.
    pub fn words(self) -> &'static [u8]
        ensures { result.now ≡ reason_words self }
    {
        match self {
            Reason::Declared => b"declared",
            Reason::Used => b"used before",
            Reason::Named => b"named before",
            Reason::Labelled => b"label before",
            Reason::Given => b"given before",
            Reason::Faulty => b"has an error itself",
            Reason::Near => b"near",
        }
    }
}

/// A second place of a finding: a token of the root.
pub struct Related {
    pub reason: Reason,
    pub place: Place,
    /// The number of the token among those of its line that stand together, from 0; of a pragma none.
    pub number: Option<usize>,
    /// How it is spelled.
    pub text: Bytes,
    /// How many more were found than are told, behind the last of several.
    pub more: usize,
}

impl Drop for Related {
    fn drop(self) {
        let Related {
            reason: _reason,
            place: _place,
            number: _number,
            text: _text,
            more: _more,
        } = self;
    }
}

/// Whether a finding with these second places follows from an error elsewhere.
pub fn follows(seconds: &[Related]) -> bool
    ensures { result ≡ follows seconds.now }
{
    match seconds {
        [first, ..] => is_faulty(first.reason),
        [] => false,
    }
}

// Whether something has an error there.
fn is_faulty(reason: Reason) -> bool
    ensures { result ≡ is_faulty reason }
{
    match reason {
        Reason::Faulty => true,
        _ => false,
    }
}

/// A token of a unit of the root, by the numbers of both.
#[derive(Clone, Copy)]
pub struct TokenPosition {
    pub unit: usize,
    pub token: usize,
}

/// A second place, before it is looked up.
#[derive(Clone, Copy)]
pub struct Second {
    pub reason: Reason,
    pub spot: TokenPosition,
    /// How many more were found than are told, behind the last of several.
    pub more: usize,
}

/// Where the token of a unit with this number stands; of a pragma there is one place.
pub fn site_of(text: &UnitText, sites: &SiteRun, index: usize) -> Result<Option<Site>, AllocError>
    ensures { IfOk result (λ site. site ≡ site_of text.now sites.now index) }
{
    match text {
        UnitText::Tokens(_run) => sites.site(index),
        UnitText::Pragma(_tokens, _inside) => sites.site(0),
    }
}

/// How it is spelled.
pub fn token_of(text: &UnitText, index: usize) -> Option<&[u8]>
    ensures { option_copied result ≡ slice_get (tokens_of text.now) index }
{
    match text {
        UnitText::Tokens(run) => Some(run.as_slice().get(index)?.as_bytes()),
        UnitText::Pragma(tokens, _inside) => Some(tokens.as_slice().get(index)?.as_bytes()),
    }
}
