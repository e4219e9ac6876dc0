//! What explains a code or a refusal, and how it is shown.
//!
//! The tables are statics that a `match` lends: as constants, handed out whole, one function had too many variables.

ghost use Rattle.std.specs.Prelude.{◌≡◌, ◌↔◌, ◌++◌, IsTrue, OnOk};
ghost use Rattle.idl_explain.specs.Explained.{Names, behind, headline, indented, indented_line, row_of, said, shown, title, token_of, topic_of};

use idl_fault::Code;
use idl_source::{NEWLINE, Refusal, first_part};
use itoa::Buffer;
use std::alloc::AllocError;

/// What is explained.
#[derive(Clone, Copy)]
pub enum Topic {
    /// A code of rows.
    Code(Code),
    /// A refusal of a command, a word or a file.
    Refusal(Refusal),
}

/// What an example tells.
#[derive(Clone, Copy)]
pub enum ExampleOutcome {
    /// A row of `a.idl`: its line, its code, and its token, which may be empty.
    Row(u32, Code, &'static str),
    /// The last command is refused.
    Refused(Refusal),
}

/// What a row says, in words.
#[derive(Clone, Copy)]
pub enum Words {
    Whole(&'static str),
    /// These stand before the token of the row, and these behind it.
    Around(&'static str, &'static str),
}

/// What explains a topic.
#[derive(Clone, Copy)]
pub struct Explanation {
    /// What the example tells.
    pub told: ExampleOutcome,
    pub words: Words,
    /// The file `a.idl`, or commands.
    pub example: &'static str,
    /// The same, of which nothing is told.
    pub mended: &'static str,
    /// What helps.
    pub hint: &'static str,
}

impl Topic {
    /// Whether a word names it: `E35` or `e35` a code, and its number a refusal.
    pub fn is_named(self, word: &[u8]) -> bool
        ensures { IsTrue result ↔ Names word.now self }
    {
        match self {
            Topic::Code(code) => word.eq_ignore_ascii_case(&code.text()),
            Topic::Refusal(refusal) => {
                let mut number = Buffer::new();
                word.eq_ignore_ascii_case(number.format(refusal.number()).as_bytes())
            }
        }
    }

    // Writes `E35`, or `refused 4`.
    fn push_title(self, out: &mut Vec<u8>) -> Result<(), AllocError>
        ensures { OnOk result (out.new.items ≡ out.old.items ++ title self) }
    {
        match self {
            Topic::Code(code) => out.extend_from_slice(&code.text()),
            Topic::Refusal(refusal) => {
                let mut number = Buffer::new();
                out.extend_from_slice(b"refused ")?;
                out.extend_from_slice(number.format(refusal.number()).as_bytes())
            }
        }
    }
}

impl ExampleOutcome {
    /// The code, or the refusal.
    pub fn topic(self) -> Topic
        ensures { result ≡ topic_of self }
    {
        match self {
            ExampleOutcome::Row(_, code, _) => Topic::Code(code),
            ExampleOutcome::Refused(refusal) => Topic::Refusal(refusal),
        }
    }

    /// The token of the row, which may be empty.
    pub fn token(self) -> &'static str
        ensures { result.now ≡ token_of self }
    {
        match self {
            ExampleOutcome::Row(_, _, token) => token,
            ExampleOutcome::Refused(_) => "",
        }
    }

    /// Writes the row, or the reply.
    pub fn push(self, out: &mut Vec<u8>) -> Result<(), AllocError>
        ensures { OnOk result (out.new.items ≡ out.old.items ++ row_of self) }
    {
        match self {
            ExampleOutcome::Row(line, code, token) => {
                let mut number = Buffer::new();
                out.extend_from_slice(b"a.idl:")?;
                out.extend_from_slice(number.format(line).as_bytes())?;
                out.extend_from_slice(b": ")?;
                out.extend_from_slice(&code.text())?;
                push_behind(token.as_bytes(), out)
            }
            ExampleOutcome::Refused(refusal) => Topic::Refusal(refusal).push_title(out),
        }
    }
}

impl Words {
    /// Writes them, with this token where they stand around one.
    pub fn push(self, token: &[u8], out: &mut Vec<u8>) -> Result<(), AllocError>
        ensures { OnOk result (out.new.items ≡ out.old.items ++ said self token.now) }
    {
        match self {
            Words::Whole(words) => out.extend_from_slice(words.as_bytes()),
            Words::Around(before, behind) => {
                out.extend_from_slice(before.as_bytes())?;
                out.extend_from_slice(token)?;
                out.extend_from_slice(behind.as_bytes())
            }
        }
    }
}

impl Explanation {
    /// Writes a line with what the code or the refusal says, with this token.
    pub fn push_headline(&self, token: &[u8], out: &mut Vec<u8>) -> Result<(), AllocError>
        ensures { OnOk result (out.new.items ≡ out.old.items ++ headline self.now token.now) }
    {
        self.told.topic().push_title(out)?;
        out.extend_from_slice(b": ")?;
        self.words.push(token, out)?;
        out.extend_from_slice(b"\n")
    }

    /// Writes all of it.
    pub fn push(&self, out: &mut Vec<u8>) -> Result<(), AllocError>
        ensures { OnOk result (out.new.items ≡ out.old.items ++ shown self.now) }
    {
        self.push_headline(self.told.token().as_bytes(), out)?;
        push_indented(self.example.as_bytes(), out)?;
        self.told.push(out)?;
        out.extend_from_slice(b"      mended:\n")?;
        push_indented(self.mended.as_bytes(), out)?;
        out.extend_from_slice(self.hint.as_bytes())?;
        out.extend_from_slice(b"\n")
    }
}

// Writes a blank and the token, if there is one.
fn push_behind(token: &[u8], out: &mut Vec<u8>) -> Result<(), AllocError>
    ensures { OnOk result (out.new.items ≡ out.old.items ++ behind token.now) }
{
    if token.is_empty() {
        return Ok(());
    }
    out.extend_from_slice(b" ")?;
    out.extend_from_slice(token)
}

// Writes each line behind four blanks.
fn push_indented(text: &[u8], out: &mut Vec<u8>) -> Result<(), AllocError>
    ensures { OnOk result (out.new.items ≡ out.old.items ++ indented text.now) }
{
    let mut left = text;
    'lines: loop {
        let (line, rest) = first_part(left, NEWLINE);
        push_line(line, out)?;
        match rest {
            Some(rest) => left = rest,
            None => return Ok(()),
        }
    }
}

// Writes a line behind four blanks.
fn push_line(line: &[u8], out: &mut Vec<u8>) -> Result<(), AllocError>
    ensures { OnOk result (out.new.items ≡ out.old.items ++ indented_line line.now) }
{
    out.extend_from_slice(b"    ")?;
    out.extend_from_slice(line)?;
    out.extend_from_slice(b"\n")
}
