//! Where the tokens of a text stand.

ghost use Rattle.std.specs.Prelude.{◌≡◌, ◌⊎◌, ◌++◌, ◌∷◌, ◌+◌, ◌-◌, ◌<◌, ◌≤◌, ◌^◌, List, [], IfNone, IfOk, IfSome, IsTrue, None, OnErr, OnOk, Some, length, slice_get};
ghost use Rattle.std.specs.Option.{option_copied, option_map};
ghost use Rattle.idl_event.specs.Apart.{site_at, sites_at, text_sites};
ghost use Rattle.idl_event.specs.Sites.{HaveSites, Rise, StandsAt, found, in_stretch, spot_at};
ghost use Rattle.idl_event.specs.declared.told.sites.Stretch.{Stretch};

use crate::told::site::Site;
use idl_fault::{FileName, Place};
use idl_text::FileTokens;
use std::alloc::{AllocError, Global};
use std::marker::Model;

/// Where the tokens of a text stand: to every contract the list of their sites.
///
/// From one token to the next the line seldom changes, the file still less, nor do other events often stand between them. So
/// a spot has what is the same for the tokens of a line, and a stretch what is the same for those of many lines.
pub struct Sites {
    spots: Vec<LineEntry>,
    stretches: Vec<Stretch>,
    // How many tokens there are.
    count: usize,
}

// So many tokens there are at most.
const MOST: usize = 4_294_967_296;

/// Tokens of one line: the number of the first of them, the line, and the number of their stretch.
#[derive(Clone, Copy)]
pub struct LineEntry {
    first: u32,
    line: u32,
    stretch: u32,
}

// A root has ten thousands of lines.
const _: () = prove!(size_of::<LineEntry>() <= 12);

/// Tokens of one file, with no other event between them: how many others come before them.
#[derive(Drop)]
pub struct Stretch {
    file: FileName,
    others: u32,
}

impl Model for Sites {
    ghost use Rattle.std.specs.Prelude.{List};
    ghost use Rattle.idl_event.specs.Sites.{AreKept, sites_of};
    ghost use Rattle.idl_event.specs.declared.told.site.Site.{Site};

    ghost Value = { List Site };

    ghost view = { λ s. sites_of s.stretches.items s.spots.items s.count };

    ghost invariant = { λ s. AreKept s.stretches.items s.spots.items s.count };
}

impl Drop for Sites {
    fn drop(self) {
        let Sites {
            spots: _spots,
            stretches: _stretches,
            count: _count,
        } = self;
    }
}

impl Sites {
    /// No sites. It takes no memory.
    pub fn new(alloc: Global) -> Sites
        ensures { result ≡ [] }
    {
        Sites {
            spots: Vec::new(alloc),
            stretches: Vec::new(alloc),
            count: 0,
        }
    }

    /// How many they are.
    pub fn len(&self) -> usize
        ensures value { result ≡ length self.now }
        ensures small { result < 2 ^ 63 }
    {
        self.count
    }

    /// The site of a token more, before which so many other events stand. Numbers past the first 2^32 are as want of memory.
    pub fn push(&mut self, place: Place, others: usize) -> Result<(), AllocError>
        ensures more { OnOk result
            (self.new ≡ self.old ++ site_at (length self.old + others) place ∷ []) }
        ensures kept { OnErr result (self.new ≡ self.old) }
    {
        self.push_run(place, others, 1)
    }

    /// The sites of so many tokens more, one behind the other at one place.
    #[inline(always)]
    pub fn push_run(&mut self, place: Place, others: usize, count: usize) -> Result<(), AllocError>
        requires some { 0 < count }
        ensures more { OnOk result
            (self.new ≡ self.old ++ sites_at (length self.old + others) place count) }
        ensures kept { OnErr result (self.new ≡ self.old) }
    {
        let Ok(first) = u32::try_from(self.count) else {
            return Err(AllocError);
        };
        if count > MOST - self.count {
            return Err(AllocError);
        }
        if goes_on(&self.spots, &self.stretches, &place, others) {
            self.count += count;
            return Ok(());
        }
        let Place { file, line } = place;
        let stretch = stretch_of(&mut self.stretches, &file, others)?;
        self.spots.push(LineEntry {
            first,
            line,
            stretch,
        })?;
        self.count += count;
        Ok(())
    }

    /// The sites of tokens of a file more.
    pub fn push_text(
        &mut self,
        file: &FileName,
        others: usize,
        tokens: &FileTokens<'_>,
    ) -> Result<(), AllocError>
        ensures more { OnOk result
            (self.new ≡ self.old ++ text_sites (length self.old + others) file.now tokens.now) }
        ensures kept { OnErr result (self.new ≡ self.old) }
    {
        let Ok(first) = u32::try_from(self.count) else {
            return Err(AllocError);
        };
        if tokens.len() > MOST - self.count {
            return Err(AllocError);
        }
        let stretch = stretch_of(&mut self.stretches, file, others)?;
        push_lines(&mut self.spots, Start { first, stretch }, tokens)?;
        self.count += tokens.len();
        Ok(())
    }

    /// The place of the token with this number: its file and its line.
    pub fn place_at(&self, index: usize) -> Option<(&FileName, u32)>
        ensures some { IfSome result (λ p.
            StandsAt self.now index (record { file = p.0.now; line = p.1 })) }
        ensures none { IfNone result (slice_get self.now index ≡ None) }
    {
        if index >= self.count {
            return None;
        }
        let (line, stretch) = found(&self.stretches, &self.spots, index)?;
        Some((&stretch.file, line))
    }

    /// The site of the token with this number.
    pub fn site(&self, index: usize) -> Result<Option<Site>, AllocError>
        ensures { IfOk result (λ site. site ≡ slice_get self.now index) }
    {
        if index >= self.count {
            return Ok(None);
        }
        let Some((line, stretch)) = found(&self.stretches, &self.spots, index) else {
            return Ok(None);
        };
        Ok(Some(Site {
            file: stretch.file.clone()?,
            line,
            event: index + stretch.others as usize,
        }))
    }

    /// Gives back the memory that it has for more.
    pub fn shrink_to_fit(&mut self)
        ensures { self.new ≡ self.old }
    {
        self.spots.shrink_to_fit();
        self.stretches.shrink_to_fit();
    }
}

// Whether the last token stands at this place, behind so many other events.
fn goes_on(spots: &[LineEntry], stretches: &[Stretch], place: &Place, others: usize) -> bool
    ensures { IsTrue result
        → in_stretch stretches.now (slice_get spots.now (length spots.now - 1))
        ≡ Some (place.now.line, record { file = place.now.file; others = others }) }
{
    let Some(spot) = spots.last() else {
        return false;
    };
    let Some(stretch) = stretches.get(spot.stretch as usize) else {
        return false;
    };
    spot.line == place.line && stretch.others as usize == others && stretch.file == place.file
}

// The number of a stretch of this file behind so many other events: of the last one, or of one more.
fn stretch_of(
    stretches: &mut Vec<Stretch>,
    file: &FileName,
    others: usize,
) -> Result<u32, AllocError>
    ensures more { (more : List Stretch) × (stretches.new.items ≡ stretches.old.items ++ more) }
    ensures there { IfOk result (λ number.
        slice_get stretches.new.items number ≡ Some (record { file = file.now; others = others })) }
{
    let Ok(next) = u32::try_from(stretches.len()) else {
        return Err(AllocError);
    };
    if is_last(stretches, file, others) {
        return Ok(next - 1);
    }
    let Ok(others) = u32::try_from(others) else {
        return Err(AllocError);
    };
    let file = file.clone()?;
    stretches.push(Stretch { file, others })?;
    Ok(next)
}

// Where tokens begin: the number of the first of them, and that of their stretch.
#[derive(Clone, Copy)]
struct Start {
    first: u32,
    stretch: u32,
}

// The spots of tokens of a file go behind the others: one for each line.
fn push_lines(
    spots: &mut Vec<LineEntry>,
    start: Start,
    tokens: &FileTokens<'_>,
) -> Result<(), AllocError>
    requires { start.first + length tokens.now ≤ 2 ^ 32 }
    ensures more { OnOk result
        (HaveSites spots.old.items spots.new.items start.first start.stretch tokens.now) }
    ensures kept { OnErr result (spots.new.items ≡ spots.old.items) }
{
    let before = spots.len();
    let mut last = None;
    let mut i = 0;
    'tokens: while i < tokens.len() {
        let line = tokens.line_at(i);
        let spot = LineEntry {
            first: start.first + i as u32,
            line,
            stretch: start.stretch,
        };
        if let Err(error) = put_spot(spots, last, spot) {
            spots.truncate(before);
            return Err(error);
        }
        last = Some(line);
        i += 1;
    }
    Ok(())
}

// The spot goes behind the others, unless the last one is on its line already.
fn put_spot(
    spots: &mut Vec<LineEntry>,
    last: Option<u32>,
    spot: LineEntry,
) -> Result<(), AllocError>
    ensures put { OnOk result
        ((last ≡ Some spot.line) × (spots.new.items ≡ spots.old.items)
        ⊎ (spots.new.items ≡ spots.old.items ++ spot ∷ [])) }
    ensures kept { OnErr result (spots.new.items ≡ spots.old.items) }
{
    if is_on(last, spot.line) {
        return Ok(());
    }
    spots.push(spot)?;
    Ok(())
}

// Whether it is this line.
fn is_on(last: Option<u32>, line: u32) -> bool
    ensures { IsTrue result → last ≡ Some line }
{
    match last {
        Some(last) => last == line,
        None => false,
    }
}

// Whether the last stretch is one of this file, behind so many other events.
fn is_last(stretches: &[Stretch], file: &FileName, others: usize) -> bool
    ensures { IsTrue result → slice_get stretches.now (length stretches.now - 1)
        ≡ Some (record { file = file.now; others = others }) }
{
    match stretches.last() {
        Some(last) => last.others as usize == others && last.file == *file,
        None => false,
    }
}

// The line of the token with this number, and its stretch.
fn found<'a>(
    stretches: &'a [Stretch],
    spots: &[LineEntry],
    index: usize,
) -> Option<(u32, &'a Stretch)>
    requires { Rise spots.now }
    ensures { option_map (λ x. (x.0, x.1.now)) result ≡ found stretches.now spots.now index }
{
    let spot = spot_at(spots, index)?;
    let stretch = stretches.get(spot.stretch as usize)?;
    Some((spot.line, stretch))
}

// The last tokens of a line that begin at the one with this number, or before it.
fn spot_at(spots: &[LineEntry], index: usize) -> Option<&LineEntry>
    requires { Rise spots.now }
    ensures { option_copied result ≡ spot_at spots.now index }
{
    let count = spots.partition_point(|spot| spot.first as usize <= index);
    if count == 0 {
        return None;
    }
    spots.get(count - 1)
}
