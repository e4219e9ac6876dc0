//! All that can be explained.

ghost use Rattle.std.specs.Prelude.{◌≡◌, All, Contains, IfNone, IfSome};
ghost use Rattle.idl_fault.specs.declared.code.Code.{Code};
ghost use Rattle.idl_source.specs.declared.refusal.Refusal.{Refusal};
ghost use Rattle.idl_explain.specs.Explained.{Names, topic_of};
ghost use Rattle.idl_explain.specs.declared.explanation.Topic.{Topic};
ghost use Rattle.idl_explain.specs.declared.explanation.Topic.TheVariants as topic;

use crate::codes::{CODES, of_code};
use crate::explanation::{Explanation, Topic};
use crate::refusals::{REFUSALS, of_refusal};

/// What explains a topic.
pub fn explanation_of(topic: Topic) -> &'static Explanation
    ensures { topic_of result.now.told ≡ topic }
{
    match topic {
        Topic::Code(code) => of_code(code),
        Topic::Refusal(refusal) => of_refusal(refusal),
    }
}

/// The topic that a word names, if there is one.
pub fn topic_named(word: &[u8]) -> Option<Topic>
    ensures named { IfSome result (Names word.now) }
    ensures none { IfNone result ((topic : Topic) → Names word.now topic → ⊥) }
{
    match named_among(word, all_codes()) {
        Some(topic) => Some(topic),
        None => named_among(word, all_refusals()),
    }
}

/// All codes.
pub fn all_codes() -> &'static [Topic]
    ensures { (code : Code) → Contains result.now (topic.Code code) }
{
    &CODES
}

/// All refusals.
pub fn all_refusals() -> &'static [Topic]
    ensures { (refusal : Refusal) → Contains result.now (topic.Refusal refusal) }
{
    &REFUSALS
}

// The first of these topics that a word names.
fn named_among(word: &[u8], topics: &[Topic]) -> Option<Topic>
    ensures named { IfSome result (Names word.now) }
    ensures none { IfNone result (All (λ topic. Names word.now topic → ⊥) topics.now) }
{
    'topics: for topic in topics {
        if topic.is_named(word) {
            return Some(*topic);
        }
    }
    None
}
