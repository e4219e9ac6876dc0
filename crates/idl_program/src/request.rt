//! The words that the program is given.

ghost use Rattle.std.specs.Prelude.{◌≡◌, IfErr, IfOk, map, false, []};
ghost use Rattle.clap.specs.Words.{app_of, found_of, rows_of, rule_of};
ghost use Rattle.idl_driver.specs.Parsed.{SaysWrong};
ghost use Rattle.idl_driver.specs.Words.{flag_rule, with_rules};
ghost use Rattle.idl_program.specs.Words.{AreWrong, IsRequestOf, bare, faults_in, flag_rules, found_in, idlc, text_rule};

use clap::{Arg, ArgAction, ArgMatches, Command};
use idl_driver::{Options, ParsedWords, WordsFault, options_of, parse_words, with_options};
use std::alloc::{AllocError, Global};

/// What the words ask for.
#[derive(Drop)]
pub enum CompilerRequest<'a> {
    /// To show a text, which tells how the program is used or its version.
    Show(String),
    /// To serve commands.
    Serve,
    /// To compile files.
    Compile(Options<'a>),
}

/// Reads the words behind the program's name.
#[inline(never)]
pub fn request_of<'a>(
    alloc: Global,
    words: &'a [&'a str],
) -> Result<CompilerRequest<'a>, WordsFault>
    ensures asked { IfOk result (IsRequestOf (map (λ w. w.now) words.entry.now)) }
    ensures wrong { IfErr result (SaysWrong (AreWrong (map (λ w. w.now) words.entry.now))) }
{
    match parse_words(alloc, command(alloc)?, words) {
        Ok(ParsedWords::Taken(matches)) => chosen(alloc, words, &matches),
        Ok(ParsedWords::Text(text)) => Ok(CompilerRequest::Show(text)),
        Err(fault) => Err(fault),
    }
}

// What is asked for by words that are taken.
fn chosen<'a>(
    alloc: Global,
    words: &'a [&'a str],
    matches: &ArgMatches<'a>,
) -> Result<CompilerRequest<'a>, WordsFault>
    requires taken { faults_in (map (λ w. w.now) words.now) ≡ [] }
    requires rows { rows_of (found_of matches.now) ≡ found_in (map (λ w. w.now) words.now) }

    ensures asked { IfOk result (IsRequestOf (map (λ w. w.now) words.entry.now)) }
    ensures wrong { IfErr result (SaysWrong (AreWrong (map (λ w. w.now) words.entry.now))) }
{
    if matches.get_count("session") > 0 {
        if words.len() > 1 {
            return Err(WordsFault::Wrong(String::new(alloc)));
        }
        return Ok(CompilerRequest::Serve);
    }
    let options = options_of(alloc, matches)?;
    if options.files.is_empty() {
        return Err(WordsFault::Wrong(String::new(alloc)));
    }
    Ok(CompilerRequest::Compile(options))
}

fn command<'a>(alloc: Global) -> Result<Command<'a>, AllocError>
    ensures { IfOk result (λ command. app_of command ≡ idlc) }
{
    let command = with_options(alloc, bare(alloc))?;
    with_flags(alloc, command)?.arg(
        Arg::new(alloc, "file")
            .value_name("FILE")
            .action(ArgAction::Append)
            .help("A file to compile"),
    )
}

// The program without an option.
fn bare<'a>(alloc: Global) -> Command<'a>
    ensures { app_of result ≡ bare }
{
    Command::new(alloc, "idlc")
        .no_binary_name(true)
        .disable_help_flag(true)
        .disable_version_flag(true)
        .version("0.1.0")
        .about("Compiles OMG IDL: tells the errors of each FILE, and shows what it declares.")
        .override_usage("idlc [OPTIONS] FILE..\n       idlc --session")
        .after_help(
            "A row on standard error is FILE:LINE: CODE TOKEN, and `idltool explain CODE` tells what the code means.\nThe status is 0; or 1 where a FILE has errors; or 2 for wrong words and other trouble, which a line on standard error tells.",
        )
}

// A command with the options that have none.
fn with_flags<'a>(alloc: Global, command: Command<'a>) -> Result<Command<'a>, AllocError>
    ensures { IfOk result (λ more. app_of more ≡ with_rules (app_of command.entry) flag_rules) }
{
    command
        .arg(
            flag(alloc, "dump")
                .short('d')
                .help("Writes the declarations of each FILE to standard output"),
        )?
        .arg(
            flag(alloc, "listing").long("listing").help(
                "Writes the repository listing of each FILE to standard output",
            ),
        )?
        .arg(
            flag(alloc, "session")
                .long("session")
                .help("Serves commands of standard input, and excludes all else"),
        )?
        .arg(text(alloc, "help", ArgAction::Help).help("Shows how the program is used"))?
        .arg(text(alloc, "version", ArgAction::Version).help("Shows the version"))
}

// An option without value, which may stand again.
fn flag<'a>(alloc: Global, id: &'a str) -> Arg<'a>
    ensures rule { rule_of result ≡ flag_rule id.now }
    ensures global { result.global ≡ false }
{
    Arg::new(alloc, id).action(ArgAction::Count)
}

// An option that is answered with a text.
fn text<'a>(alloc: Global, id: &'a str, action: ArgAction) -> Arg<'a>
    ensures rule { rule_of result ≡ text_rule id.now action }
    ensures global { result.global ≡ false }
{
    Arg::new(alloc, id).long(id).action(action)
}
