//! Operands of includes: the name that one stands for in a directory.

ghost use Rattle.std.specs.Prelude.{◌≡◌, ◌∷◌, ◌++◌, [], ℕ, List, IsTrue, Some, replicate, ◌+◌, ◌*◌, ◌^◌, ◌<◌, ◌≤◌, false, nat_eq, length, OnSome, IfNone};
ghost use Rattle.std.specs.List.{All, list_all};
ghost use Rattle.idl_source.specs.names.Name.{is_name, is_plain, segments};
ghost use Rattle.idl_source.specs.names.Path.{directory_path, directory_to, here, is_rooted, joined_path, led_by, led_by_all, name_of, slashed, steps, text_down};

use crate::MAX_NAME;
use crate::names::directory::Directory;
use crate::names::name::{Name, is_plain, is_up};
use crate::names::parts::last_part;
use std::marker::Model;

// A name with `/` before it.
const MAX_TEXT: usize = MAX_NAME + 1;

/// Whether an operand begins with `/`, and so stands for itself in any directory.
pub fn is_rooted(spelled: &[u8]) -> bool
    ensures { result ≡ is_rooted spelled.now }
{
    matches!(spelled, [b'/', ..])
}

/// The name that an operand of an include makes in a directory. It takes no memory.
///
/// Empty segments and `.` go out, and `..` takes the segment before it away, or leads where there is none. An operand with
/// a leading `/` stands for itself. The answer is `None` where a `..` leads above `/`, and where the result is no name.
pub fn join(directory: &Directory, spelled: &[u8]) -> Option<Name>
    ensures { result ≡ joined_path directory.now spelled.now }
{
    let mut trail = Trail::here();
    trail.lead_by_all(spelled)?;
    if is_rooted(spelled) {
        return trail.name(true);
    }
    trail.lead_by_all(directory.as_bytes())?;
    trail.name(is_rooted(directory.as_bytes()))
}

/// The directory that a word names, beside the present one. It takes no memory.
///
/// It has the form of [`join`]'s names: empty segments and `.` go out, and `..` takes the segment before it away, or leads where there is
/// none. Where nothing is left it is `.`, or `/` after a leading `/`. The answer is `None` where a `..` leads above `/`, and where
/// the result is no directory.
pub fn directory_at(spelled: &[u8]) -> Option<Directory>
    ensures { result ≡ directory_path spelled.now }
{
    let mut trail = Trail::here();
    trail.lead_by_all(spelled)?;
    trail.directory(is_rooted(spelled))
}

/// The rules of the normal form. Empty segments and `.` go out, and `..` takes a segment before it away, wherever they
/// stand; a run of `..` and then plain segments stays; and a name stands for itself. This does nothing: it carries the laws.
pub fn normal_form()
    ensures blank { (before after : List (List ℕ))
        → led_by_all (before ++ [] ∷ after) here ≡ led_by_all (before ++ after) here }
    ensures dot { (before after : List (List ℕ))
        → led_by_all (before ++ (46 ∷ []) ∷ after) here ≡ led_by_all (before ++ after) here }
    ensures up { (before after : List (List ℕ)) (segment : List ℕ) → IsTrue (is_plain segment)
        → led_by_all (before ++ segment ∷ (46 ∷ 46 ∷ []) ∷ after) here
        ≡ led_by_all (before ++ after) here }
    ensures form { (n : ℕ) (names : List (List ℕ)) → IsTrue (list_all is_plain names)
        → led_by_all (replicate n (46 ∷ 46 ∷ []) ++ names) here ≡ record { up = n; down = names } }
    ensures name { (name : List ℕ) → IsTrue (is_name name)
        → joined_path (46 ∷ []) name ≡ Some name }
{}

// A path that is read from its end, where each segment is known to stay as it comes. The text of the segments down stands
// at the end of the array.
#[derive(Drop)]
struct Trail {
    up: usize,
    array: [u8; MAX_TEXT],
    start: usize,
}

impl Model for Trail {
    ghost use Rattle.std.specs.Prelude.{◌≡◌, ◌≤◌, drop};
    ghost use Rattle.idl_source.specs.names.Name.{segments};
    ghost use Rattle.idl_source.specs.names.Path.{Path, slashed};

    ghost Value = { Path };

    ghost view = { λ trail. record
        { up = trail.up; down = drop 1 (segments (drop trail.start trail.array)) } };

    ghost invariant = { λ trail. (trail.start ≤ 256)
        × (slashed (drop 1 (segments (drop trail.start trail.array)))
        ≡ drop trail.start trail.array) };
}

impl Trail {
    fn here() -> Trail
        ensures { result ≡ here }
    {
        Trail {
            up: 0,
            array: [0; MAX_TEXT],
            start: MAX_TEXT,
        }
    }

    // Puts the segments of these bytes before the path. `None` is for more text than a name has.
    fn lead_by_all(&mut self, bytes: &[u8]) -> Option<()>
        // A `..` has two bytes, so that they can be counted.
        requires { 2 * self.old.up + length bytes.now < 2 ^ 65 }
        ensures some { OnSome result (self.new ≡ led_by_all (segments bytes.now) self.old) }
        ensures none { IfNone result
            (256 < length (slashed (led_by_all (segments bytes.now) self.old).down)) }
        ensures bound { 2 * self.new.up ≤ 2 * self.old.up + length bytes.now }
    {
        let mut left = bytes;
        'segments: loop {
            let (before, segment) = last_part(left, b'/');
            self.lead_by(segment)?;
            match before {
                Some(before) => left = before,
                None => return Some(()),
            }
        }
    }

    // Puts a segment before the path.
    fn lead_by(&mut self, segment: &[u8]) -> Option<()>
        requires one { All (λ b. nat_eq b 47 ≡ false) segment.now }
        requires fits { 2 * self.old.up + length segment.now < 2 ^ 65 }
        ensures some { OnSome result (self.new ≡ led_by segment.now self.old) }
        ensures none { IfNone result (256 < length (slashed (led_by segment.now self.old).down)) }
        ensures bound { 2 * self.new.up ≤ 2 * self.old.up + length segment.now }
    {
        if is_up(segment) {
            self.up += 1;
            return Some(());
        }
        if !is_plain(segment) {
            return Some(());
        }
        if self.up > 0 {
            self.up -= 1;
            return Some(());
        }
        self.write_before(segment)
    }

    // Writes the segment, with `/` before it, before the text.
    fn write_before(&mut self, segment: &[u8]) -> Option<()>
        requires one { All (λ b. nat_eq b 47 ≡ false) segment.now }
        ensures some { OnSome result
            (self.new ≡ record self.old { down = segment.now ∷ self.old.down }) }
        ensures none { IfNone result (256 < length (slashed (segment.now ∷ self.old.down))) }
        ensures bound { self.new.up ≡ self.old.up }
    {
        if segment.len() >= self.start {
            return None;
        }
        let end = self.start;
        self.start = end - segment.len() - 1;
        self.array[self.start] = b'/';
        self.array[self.start + 1..end].copy_from_slice(segment);
        Some(())
    }

    // The name that the path makes, from the root or not.
    fn name(mut self, rooted: bool) -> Option<Name>
        ensures { result ≡ name_of rooted self }
    {
        self.write_steps_up()?;
        Name::new(self.text_from(rooted))
    }

    // The directory that the path leads to, from the root or not.
    fn directory(mut self, rooted: bool) -> Option<Directory>
        ensures { result ≡ directory_to rooted self }
    {
        self.write_steps_up()?;
        let text = self.text_from(rooted);
        if !text.is_empty() {
            return Directory::new(text);
        }
        if rooted {
            return Directory::new(b"/");
        }
        Directory::new(b".")
    }

    // Writes the steps up before the segments down.
    fn write_steps_up(&mut self) -> Option<()>
        ensures some { OnSome result (self.new.down ≡ steps self.old) }
        ensures none { IfNone result (256 < length (slashed (steps self.old))) }
    {
        for _ in 0..self.up {
            self.write_before(b"..")?;
        }
        Some(())
    }

    // The text of the segments down, from the root or not.
    fn text_from(&self, rooted: bool) -> &[u8]
        ensures { result.now ≡ text_down rooted self.now.down }
    {
        match self.text() {
            [_, rest @ ..] if !rooted => rest,
            text => text,
        }
    }

    // The segments down, each with `/` before it.
    fn text(&self) -> &[u8]
        ensures { result.now ≡ slashed self.now.down }
    {
        &self.array[self.start..]
    }
}
