//! Words as a program's command takes them: what each of the programs reads its words by.

ghost use Rattle.std.specs.Prelude.{◌≡◌, IfErr, IfOk, map, true};
ghost use Rattle.clap.specs.Words.{app_of, fault_of, is_simple_and_free, kind_of};
ghost use Rattle.idl_driver.specs.Parsed.{IsDisplay, IsParsedBy, IsRefusal, SaysWrong, Tells};

use clap::error::ErrorKind;
use clap::{ArgMatches, Command, Error};
use std::alloc::{AllocError, Global};

/// What words are to a command, where there is nothing wrong with them.
#[derive(Drop)]
pub enum ParsedWords<'a> {
    /// The command takes them.
    Taken(ArgMatches<'a>),
    /// They ask for a text, which tells how the program is used or its version.
    Text(String),
}

/// Why words make no request.
#[derive(Drop)]
pub enum WordsFault {
    /// They are none that the program takes: what `clap` tells of that, if it does.
    Wrong(String),
    /// There was no memory to read them.
    NoMemory,
}

impl From<AllocError> for WordsFault {
    ghost use Rattle.idl_driver.specs.declared.words.WordsFault.{WordsFault};

    ghost from_gives = { λ _ fault. fault ≡ WordsFault.NoMemory };

    fn from(_error: AllocError) -> WordsFault {
        WordsFault::NoMemory
    }
}

/// Reads the words behind a program's name by the program's command.
#[inline(never)]
pub fn parse_words<'a>(
    alloc: Global,
    command: Command<'a>,
    words: &'a [&'a str],
) -> Result<ParsedWords<'a>, WordsFault>
    // Who has written a command down shows it by computing.
    requires simple { is_simple_and_free (app_of command) ≡ true }

    ensures parsed { IfOk result
        (IsParsedBy (app_of command.entry) (map (λ w. w.now) words.entry.now)) }
    ensures wrong { IfErr result (SaysWrong
        (Tells IsRefusal (fault_of (app_of command.entry) (map (λ w. w.now) words.entry.now)))) }
{
    match command.try_get_matches_from(words) {
        Ok(matches) => Ok(ParsedWords::Taken(matches)),
        Err(error) => match text_of(alloc, &error) {
            Ok(text) => Ok(ParsedWords::Text(text)),
            Err(fault) => Err(fault),
        },
    }
}

// How the program is used, or its version, where that is why there are no matches; or what is wrong.
fn text_of(alloc: Global, error: &Error) -> Result<String, WordsFault>
    ensures text { IfOk result (λ _. IsDisplay (kind_of error.now)) }
    ensures wrong { IfErr result (SaysWrong (IsRefusal (kind_of error.now))) }
{
    let text = format!(in alloc; "{error}")?;
    match error.kind() {
        ErrorKind::DisplayHelp | ErrorKind::DisplayVersion => Ok(text),
        ErrorKind::OutOfMemory => Err(WordsFault::NoMemory),
        _ => Err(WordsFault::Wrong(text)),
    }
}
