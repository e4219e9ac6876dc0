//! What rows and refusals mean, for who asks.

ghost use Rattle.std.specs.Prelude.{◌≡◌, ◌≤◌, ◌<◌, ◌+◌, ◌-◌, ◌^◌, OnOk, map};
ghost use Rattle.idl_tool.specs.Answered.{AreAllListed, AreExplained, AreListed, AreShown, IsExplained, IsShown};

use crate::failure::ToolFailure;
use idl_explain::{Topic, all_codes, all_refusals, explanation_of, topic_named};
use idl_source::Sink;
use idl_source::devices::write_all;
use std::alloc::{AllocError, Global};

/// Writes what explains the codes and refusals that words name; or of all of them a line each, without a word.
pub fn explain<'a, K: Sink>(
    alloc: Global,
    words: &[&'a str],
    output: &mut K,
) -> Result<(), ToolFailure<'a>>
    requires counts { K.failures output.old < 2 ^ 64 - 1 }

    ensures explained { OnOk result (IsExplained (map (λ w. w.now) words.now)
        (K.written output.old) (K.written output.new)) }
    ensures well { OnOk result (K.failures output.new ≡ K.failures output.old) }
    ensures most { K.failures output.new ≤ K.failures output.old + 1 }
{
    let mut text = Vec::new(alloc);
    push_explained(words, &mut text)?;
    write_all(output, &text)?;
    Ok(())
}

// Writes the same, with an empty line between two that are named.
fn push_explained<'a>(words: &[&'a str], out: &mut Vec<u8>) -> Result<(), ToolFailure<'a>>
    ensures { OnOk result
        (AreExplained (map (λ w. w.now) words.now) out.old.items out.new.items) }
{
    let Some((first, others)) = words.split_first() else {
        push_all(out)?;
        return Ok(());
    };
    push_named(first, out)?;
    push_others(others, out)
}

// Writes what explains what each of these words names, behind an empty line.
fn push_others<'a>(words: &[&'a str], out: &mut Vec<u8>) -> Result<(), ToolFailure<'a>>
    ensures { OnOk result
        (AreShown (map (λ w. w.now) words.now) out.old.items out.new.items) }
{
    'words: for word in words {
        out.extend_from_slice(b"\n")?;
        push_named(word, out)?;
    }
    Ok(())
}

// Writes what explains the code or the refusal that a word names.
fn push_named<'a>(word: &'a str, out: &mut Vec<u8>) -> Result<(), ToolFailure<'a>>
    ensures { OnOk result (IsShown word.now out.old.items out.new.items) }
{
    match topic_named(word.as_bytes()) {
        Some(topic) => {
            explanation_of(topic).push(out)?;
            Ok(())
        }
        None => Err(ToolFailure::NoTopic(word)),
    }
}

// Writes a line of each code and each refusal.
fn push_all(out: &mut Vec<u8>) -> Result<(), AllocError>
    ensures { OnOk result (AreAllListed out.old.items out.new.items) }
{
    push_list(all_codes(), out)?;
    push_list(all_refusals(), out)
}

// Writes a line of each topic.
fn push_list(topics: &[Topic], out: &mut Vec<u8>) -> Result<(), AllocError>
    ensures { OnOk result (AreListed topics.now out.old.items out.new.items) }
{
    'topics: for topic in topics {
        explanation_of(*topic).push_headline(b"TOKEN", out)?;
    }
    Ok(())
}
