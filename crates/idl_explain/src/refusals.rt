//! The refusals, and what each of them means, with an example.
//!
//! This file is made of docs/codes.tsv by .ci/codes.

ghost use Rattle.std.specs.Prelude.{◌≡◌};
ghost use Rattle.idl_explain.specs.Explained.{topic_of};
ghost use Rattle.idl_explain.specs.declared.explanation.Topic.TheVariants as topic;

use crate::explanation::{ExampleOutcome, Explanation, Topic, Words};
use idl_source::Refusal;

/// All refusals, in the order of their numbers.
pub const REFUSALS: [Topic; 10] = [
    Topic::Refusal(Refusal::Malformed),
    Topic::Refusal(Refusal::BadName),
    Topic::Refusal(Refusal::NoSuchFile),
    Topic::Refusal(Refusal::OutsideFile),
    Topic::Refusal(Refusal::OverLimit),
    Topic::Refusal(Refusal::BadMacro),
    Topic::Refusal(Refusal::NoSuchRoot),
    Topic::Refusal(Refusal::RootThere),
    Topic::Refusal(Refusal::NoMemory),
    Topic::Refusal(Refusal::Unfinished),
];

/// What a refusal means.
pub fn of_refusal(refusal: Refusal) -> &'static Explanation
    ensures { topic_of result.now.told ≡ topic.Refusal refusal }
{
    match refusal {
        Refusal::Malformed => &MALFORMED,
        Refusal::BadName => &BAD_NAME,
        Refusal::NoSuchFile => &NO_SUCH_FILE,
        Refusal::OutsideFile => &OUTSIDE_FILE,
        Refusal::OverLimit => &OVER_LIMIT,
        Refusal::BadMacro => &BAD_MACRO,
        Refusal::NoSuchRoot => &NO_SUCH_ROOT,
        Refusal::RootThere => &ROOT_THERE,
        Refusal::NoMemory => &NO_MEMORY,
        Refusal::Unfinished => &UNFINISHED,
    }
}

static MALFORMED: Explanation = Explanation {
    told: ExampleOutcome::Refused(Refusal::Malformed),
    words: Words::Whole("malformed command"),
    example: "put a.idl 01",
    mended: "put a.idl 1\ntypedef long X;",
    hint: "Words are parted by one blank each and have bytes 33 to 126; numbers have no leading zero. No further line is taken.",
};

static BAD_NAME: Explanation = Explanation {
    told: ExampleOutcome::Refused(Refusal::BadName),
    words: Words::Whole("name not allowed"),
    example: "put a//b.idl 0",
    mended: "put a/b.idl 0",
    hint: "A file's or a directory's name has 1 to 255 bytes of 33 to 126, so no blank and no letter beyond ASCII; no empty part, no . or .. inside. For such folders use names from inside.",
};

static NO_SUCH_FILE: Explanation = Explanation {
    told: ExampleOutcome::Refused(Refusal::NoSuchFile),
    words: Words::Whole("no such file"),
    example: "remove a.idl",
    mended: "put a.idl 0\nremove a.idl",
    hint: "splice and remove want a file that was put before.",
};

static OUTSIDE_FILE: Explanation = Explanation {
    told: ExampleOutcome::Refused(Refusal::OutsideFile),
    words: Words::Whole("lines outside the file"),
    example: "put a.idl 1\ntypedef long X;\nsplice a.idl 2 1 0",
    mended: "put a.idl 1\ntypedef long X;\nsplice a.idl 1 1 0",
    hint: "The first line is 1; to add behind the last of N lines say N+1 and 0 lines out.",
};

static OVER_LIMIT: Explanation = Explanation {
    told: ExampleOutcome::Refused(Refusal::OverLimit),
    words: Words::Whole("over a limit"),
    example: "search d0 d1 d2 d3 .. d256\n(257 directories)",
    mended: "search d0 d1 d2 d3 .. d255\n(256 directories)",
    hint: "At most 4,096 files, 200,000 lines of 4,096 bytes each, 4,096 macros, 256 directories, 256 roots. With idlc give at most 256 FILEs a run.",
};

static BAD_MACRO: Explanation = Explanation {
    told: ExampleOutcome::Refused(Refusal::BadMacro),
    words: Words::Whole("macro not allowed"),
    example: "define 1x",
    mended: "define x1",
    hint: "A letter or _, then letters, digits and _; `defined` is none.",
};

static NO_SUCH_ROOT: Explanation = Explanation {
    told: ExampleOutcome::Refused(Refusal::NoSuchRoot),
    words: Words::Whole("no such root"),
    example: "listing a.idl",
    mended: "root a.idl\nlisting a.idl",
    hint: "Questions are for roots: say root NAME first.",
};

static ROOT_THERE: Explanation = Explanation {
    told: ExampleOutcome::Refused(Refusal::RootThere),
    words: Words::Whole("root already there"),
    example: "root a.idl\nroot a.idl",
    mended: "root a.idl",
    hint: "Nothing is to be done: it stays a root.",
};

static NO_MEMORY: Explanation = Explanation {
    told: ExampleOutcome::Refused(Refusal::NoMemory),
    words: Words::Whole("no memory"),
    example: "put a.idl 60000\n(60,000 lines typedef long Tn; with ulimit -v 12288)",
    mended: "put a.idl 1\ntypedef long X;",
    hint: "Nothing has changed, and the same edit may be sent again once there is memory: drop roots or files, or raise the limit.",
};

static UNFINISHED: Explanation = Explanation {
    told: ExampleOutcome::Refused(Refusal::Unfinished),
    words: Words::Whole("input ended inside a command"),
    example: "put a.idl 2\ntypedef long X;",
    mended: "put a.idl 2\ntypedef long X;\ntypedef long Y;",
    hint: "Fewer lines came than were announced.",
};
