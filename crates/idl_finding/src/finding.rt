//! What is found in a root.
//!
//! What a row is made of is kept, and rows too: columns, texts and editors stand on the parts.

ghost use Rattle.std.specs.Prelude.{◌≡◌, ◌++◌, IfOk, OnOk, Some, flat_map, map, slice_get};
ghost use Rattle.std.specs.List.{enumerate_from};
ghost use Rattle.std.specs.Option.{option_copied, option_to_list};
ghost use Rattle.idl_finding.specs.Findings.{event_finding, fault_finding, finding_at, finding_row, in_order, numbered, site_of, tokens_of};

use crate::number::token_number;
use idl_base::Bytes;
use idl_event::{Event, Expansion, Site};
use idl_fault::{Code, Place, diagnostic_row};
use idl_unit::{Fault, SiteRun, UnitText};
use std::alloc::{AllocError, Global};

/// What is found in a root, of which a row is made.
#[derive(Drop)]
pub struct Finding {
    pub place: Place,
    pub code: Code,
    /// What the row shows behind the code, if it does: most often the token at which the fault is decided.
    pub text: Option<Bytes>,
    /// The number of that token among those of its line that stand together, from 0.
    pub number: Option<usize>,
}

/// What is found at an event: the number of the event, and what a row is made of.
#[derive(Drop)]
pub struct EventFinding {
    pub event: usize,
    pub place: Place,
    pub code: Code,
    pub text: Option<Bytes>,
}

/// A unit with tokens: its text, and where each token stands, or of a pragma its first word.
#[derive(Clone, Copy)]
pub struct Spelled<'a> {
    pub text: &'a UnitText,
    pub sites: &'a SiteRun,
}

/// What is found in the events: the faults of the preprocessor.
pub fn event_findings(alloc: Global, expansion: &Expansion) -> Result<Vec<EventFinding>, AllocError>
    ensures { IfOk result (λ findings. findings.items
        ≡ flat_map event_finding (enumerate_from 0 expansion.now)) }
{
    let others = expansion.others();
    let mut findings = Vec::new(alloc);
    for (number, event) in others {
        push_event(alloc, &mut findings, *number, event)?;
    }
    Ok(findings)
}

// Puts in what is found in an event, if it is a fault.
fn push_event(
    alloc: Global,
    findings: &mut Vec<EventFinding>,
    number: usize,
    event: &Event,
) -> Result<(), AllocError>
    ensures { OnOk result
        (findings.new.items ≡ findings.old.items ++ event_finding (number, event.now)) }
{
    let Event::Fault(place, code, text) = event else {
        return Ok(());
    };
    let text = text.as_ref().map(|text| text.as_bytes());
    findings.push(EventFinding {
        event: number,
        place: place.clone()?,
        code: *code,
        text: shared_text(alloc, text)?,
    })?;
    Ok(())
}

// A text of these bytes, if there are any.
fn shared_text(alloc: Global, bytes: Option<&[u8]>) -> Result<Option<Bytes>, AllocError>
    ensures { IfOk result (λ text. text ≡ option_copied bytes.entry) }
{
    match bytes {
        Some(bytes) => Ok(Some(Bytes::from_slice(alloc, bytes)?)),
        None => Ok(None),
    }
}

/// Puts in the fault of a unit, if it has one.
pub fn push_fault(
    alloc: Global,
    findings: &mut Vec<EventFinding>,
    unit: Spelled<'_>,
    fault: Option<Fault>,
) -> Result<(), AllocError>
    ensures { OnOk result (findings.new.items
        ≡ findings.old.items ++ fault_finding unit.entry.text.now unit.entry.sites.now fault) }
{
    let Some(fault) = fault else {
        return Ok(());
    };
    let found = unit.finding(alloc, fault)?;
    if let Some(finding) = found {
        findings.push(finding)?;
    }
    Ok(())
}

impl<'a> Spelled<'a> {
    // What is told of this fault of the unit.
    fn finding(self, alloc: Global, fault: Fault) -> Result<Option<EventFinding>, AllocError>
        ensures { IfOk result (λ found. option_to_list found
            ≡ fault_finding self.entry.text.now self.entry.sites.now (Some fault)) }
    {
        let site = self.site(fault.index)?;
        let token = self.token(fault.index);
        finding_at(alloc, fault.code, site.as_ref(), token)
    }

    /// Where the token with this number stands; of a pragma each stands where its first word does.
    pub fn site(self, index: usize) -> Result<Option<Site>, AllocError>
        ensures { IfOk result (λ site.
            site ≡ site_of self.entry.text.now self.entry.sites.now index) }
    {
        match self.text {
            UnitText::Tokens(_run) => self.sites.site(index),
            UnitText::Pragma(_tokens, _inside) => self.sites.site(0),
        }
    }

    /// The bytes of the token with this number.
    pub fn token(self, index: usize) -> Option<&'a [u8]>
        ensures { option_copied result
            ≡ slice_get (tokens_of self.entry.text.now) index }
    {
        match self.text {
            UnitText::Tokens(run) => Some(run.as_slice().get(index)?.as_bytes()),
            UnitText::Pragma(tokens, _inside) => Some(tokens.as_slice().get(index)?.as_bytes()),
        }
    }
}

// What is told where a token stands.
fn finding_at(
    alloc: Global,
    code: Code,
    site: Option<&Site>,
    token: Option<&[u8]>,
) -> Result<Option<EventFinding>, AllocError>
    ensures { IfOk result (λ found. option_to_list found
        ≡ finding_at code (option_copied site.entry) (option_copied token.entry)) }
{
    let Some(site) = site else {
        return Ok(None);
    };
    Ok(Some(EventFinding {
        event: site.event,
        place: site.place()?,
        code,
        text: shared_text(alloc, token)?,
    }))
}

/// What is found, in the order of the events that it names.
pub fn in_order(mut found: Vec<EventFinding>) -> Result<Vec<EventFinding>, AllocError>
    ensures { IfOk result (λ sorted. sorted.items ≡ in_order found.items) }
{
    found.sort_by_key(|finding| finding.event)?;
    Ok(found)
}

/// Puts in what is found at events of an expansion, with the numbers of its tokens.
pub fn push_numbered(
    alloc: Global,
    findings: &mut Vec<Finding>,
    expansion: &Expansion,
    found: &[EventFinding],
) -> Result<(), AllocError>
    ensures { OnOk result
        (findings.new.items ≡ findings.old.items ++ map (numbered expansion.now) found.now) }
{
    for finding in found {
        findings.push(numbered(alloc, expansion, finding)?)?;
    }
    Ok(())
}

// What is found at an event of an expansion, with its token's number.
fn numbered(
    alloc: Global,
    expansion: &Expansion,
    found: &EventFinding,
) -> Result<Finding, AllocError>
    ensures { IfOk result (λ finding. finding ≡ numbered expansion.now found.now) }
{
    let text = found.text.as_ref().map(|text| text.as_bytes());
    Ok(Finding {
        place: found.place.clone()?,
        code: found.code,
        text: shared_text(alloc, text)?,
        number: token_number(expansion, found.event),
    })
}

/// The rows of what is found.
pub fn rows_of(alloc: Global, findings: &[Finding]) -> Result<Vec<Bytes>, AllocError>
    ensures { IfOk result (λ rows. rows.items ≡ map finding_row findings.now) }
{
    let mut rows = Vec::with_capacity(alloc, findings.len())?;
    for finding in findings {
        rows.push(finding.row(alloc)?)?;
    }
    Ok(rows)
}

impl Finding {
    // Its row.
    fn row(&self, alloc: Global) -> Result<Bytes, AllocError>
        ensures { IfOk result (λ row. row ≡ finding_row self.now) }
    {
        let text = self.text.as_ref().map(|text| text.as_bytes());
        let row = diagnostic_row(alloc, &self.place, self.code, text)?;
        Bytes::from_slice(alloc, row.as_bytes())
    }
}
