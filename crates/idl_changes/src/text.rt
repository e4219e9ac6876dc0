//! The rows of changes, each written from its data.

ghost use Rattle.std.specs.Prelude.{◌≡◌, ◌++◌, [], IfOk, OnOk, codes, if◌then◌else◌, map, nat_eq, option_copied};
ghost use Rattle.idl_changes.specs.Changes.{difference_text, entry_in, name_if, part_text, row_text, turn_text, weight_names, weights_text};

use crate::change::{Change, Difference, Turn};
use crate::rows::Weights;
use idl_base::Bytes;
use idl_repo::details::{RowTree, kind_word};
use idl_repo::push_number;
use std::alloc::{AllocError, Global};

/// Writes the row of a change from one listing to another: KIND PATH: TEXT [WEIGHTS].
pub fn push_change(
    text: &mut Vec<u8>,
    old: &[&RowTree],
    new: &[&RowTree],
    change: &Change,
) -> Result<(), AllocError>
    ensures { OnOk result (text.new.items ≡ text.old.items
        ++ row_text (map (λ tree. tree.now) old.now) (map (λ tree. tree.now) new.now) change.now) }
{
    match entry_of(old, new, change) {
        Some(entry) => push_difference(text, entry, &change.difference),
        None => Ok(()),
    }
}

/// The entry that changes, or that is new.
pub fn entry_of<'a>(
    old: &[&'a RowTree],
    new: &[&'a RowTree],
    change: &Change,
) -> Option<&'a RowTree>
    ensures { option_copied result
        ≡ entry_in (map (λ tree. tree.now) old.entry.now) (map (λ tree. tree.now) new.entry.now)
        change.now }
{
    match (change.before, change.after) {
        (Some(place), _) => old.get(place).copied(),
        (None, Some(place)) => new.get(place).copied(),
        (None, None) => None,
    }
}

// KIND PATH: TEXT [WEIGHTS]
fn push_difference(
    text: &mut Vec<u8>,
    entry: &RowTree,
    difference: &Difference,
) -> Result<(), AllocError>
    ensures { OnOk result (text.new.items
        ≡ text.old.items ++ difference_text entry.now difference.now) }
{
    text.extend_from_slice(kind_word(entry.kind))?;
    text.extend_from_slice(b" ")?;
    text.extend_from_slice(entry.path.as_bytes())?;
    text.extend_from_slice(b": ")?;
    push_turn(text, difference.part.as_bytes(), &difference.turn)?;
    text.extend_from_slice(b" ")?;
    push_weights(text, difference.weights)
}

// PART, OLD -> NEW; PART is gone; PART is new; PART is new, number N
fn push_turn(text: &mut Vec<u8>, part: &[u8], turn: &Turn) -> Result<(), AllocError>
    ensures { OnOk result (text.new.items ≡ text.old.items ++ turn_text part.now turn.now) }
{
    match turn {
        Turn::Gone => push_words(text, part, b"is gone"),
        Turn::New => push_words(text, part, b"is new"),
        Turn::NewAt(number) => {
            push_words(text, part, b"is new, number ")?;
            push_number(text, *number)
        }
        Turn::Changed(was, is) => {
            text.extend_from_slice(part)?;
            text.extend_from_slice(b", ")?;
            text.extend_from_slice(was.as_bytes())?;
            text.extend_from_slice(b" -> ")?;
            text.extend_from_slice(is.as_bytes())
        }
    }
}

// Words behind a part, if there is one.
fn push_words(text: &mut Vec<u8>, part: &[u8], words: &[u8]) -> Result<(), AllocError>
    ensures { OnOk result (text.new.items
        ≡ text.old.items ++ (part_text part.now ++ words.now)) }
{
    if !part.is_empty() {
        text.extend_from_slice(part)?;
        text.extend_from_slice(b" ")?;
    }
    text.extend_from_slice(words)
}

// [WEIGHT,WEIGHT..]
#[tactic(auto, unfolding(crate::specs::Changes::weights_text))]
fn push_weights(text: &mut Vec<u8>, weights: Weights) -> Result<(), AllocError>
    ensures { OnOk result (text.new.items ≡ text.old.items ++ weights_text weights) }
{
    let names = weight_names(*text.allocator(), weights)?;
    text.extend_from_slice(b"[")?;
    for (place, name) in names.iter().enumerate() {
        push_behind(text, place, name)?;
    }
    text.extend_from_slice(b"]")?;
    Ok(())
}

// Writes a name with a comma before it, if so many stand there.
fn push_behind(text: &mut Vec<u8>, place: usize, name: &Bytes) -> Result<(), AllocError>
    ensures { OnOk result (text.new.items ≡ (text.old.items
        ++ (if nat_eq place 0 then [] else codes ",")) ++ name.now) }
{
    if place == 0 {
        return text.extend_from_slice(name.as_bytes());
    }
    text.extend_from_slice(b",")?;
    text.extend_from_slice(name.as_bytes())
}

/// The names of these weights.
pub fn weight_names(alloc: Global, weights: Weights) -> Result<Vec<Bytes>, AllocError>
    ensures { IfOk result (λ names. names.items ≡ weight_names weights) }
{
    let mut names = Vec::new(alloc);
    push_name(&mut names, weights.wire, b"wire")?;
    push_name(&mut names, weights.client, b"client")?;
    push_name(&mut names, weights.servant, b"servant")?;
    push_name(&mut names, weights.names, b"names")?;
    push_name(&mut names, weights.added, b"new")?;
    Ok(names)
}

// Puts a name behind others, if it is to stand there.
fn push_name(names: &mut Vec<Bytes>, stands: bool, name: &[u8]) -> Result<(), AllocError>
    ensures { OnOk result (names.new.items ≡ names.old.items ++ name_if stands name.now) }
{
    if stands {
        let name = Bytes::from_slice(*names.allocator(), name)?;
        names.push(name)?;
    }
    Ok(())
}
