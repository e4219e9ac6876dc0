//! The examples of refusals: each is refused so, and of its mended form nothing is.

use super::support::{TextFiles, ample, told};
use idl_explain::{Explanation, Topic, all_refusals, explanation_of};
use idl_source::Refusal;
use std::alloc::{AllocError, Global};
use std::test::Fail;

#[test]
fn each_refusal_is_explained(rt: HostRuntime) -> Result<(), Fail> {
    for topic in all_refusals() {
        let explanation = explanation_of(*topic);
        if let Topic::Refusal(refusal) = *topic {
            says_what_explains_it(rt.alloc(), refusal, explanation)?;
            // These two take more than a few lines.
            if !matches!(refusal, Refusal::OverLimit | Refusal::NoMemory) {
                is_refused(rt.alloc(), explanation)?;
            }
        }
    }
    Ok(())
}

// The text of a refusal itself and the one that explains it are alike.
fn says_what_explains_it(
    alloc: Global,
    refusal: Refusal,
    explanation: &Explanation,
) -> Result<(), Fail> {
    let mut words = Vec::new(alloc);
    explanation.words.push(b"", &mut words)?;
    let said = format!(in alloc; "{refusal}")?;
    if said.as_bytes() == words.as_slice() {
        return Ok(());
    }
    Err(Fail::new(format_args!("{said}")))
}

fn is_refused(alloc: Global, explanation: &Explanation) -> Result<(), Fail> {
    let want = last_reply(alloc, explanation)?;
    let found = replied(alloc, explanation.example)?;
    let mended = replied(alloc, explanation.mended)?;
    if found.ends_with(want.as_str()) && !mended.contains("refused") {
        return Ok(());
    }
    Err(Fail::new(format_args!("{want}: {found}; mended: {mended}")))
}

fn last_reply(alloc: Global, explanation: &Explanation) -> Result<String, AllocError> {
    let mut row = Vec::new(alloc);
    explanation.told.push(&mut row)?;
    let row = String::from_utf8_lossy(alloc, &row)?;
    format!(in alloc; "{row} /")
}

// What is replied to lines of which the last doesn't end.
fn replied(alloc: Global, lines: &str) -> Result<String, AllocError> {
    let commands = format!(in alloc; "{lines}\n")?;
    let loader = TextFiles::new(alloc, "");
    told(ample(alloc), "--session", loader, commands.as_str())
}
