//! The words that the program is given.

ghost use Rattle.std.specs.Prelude.{◌≡◌, IfErr, IfOk, MatchOption, [], Some, false, length, map, true};
ghost use Rattle.clap.specs.Words.{found_of, rows_of, subcommand_rows_of};
ghost use Rattle.idl_driver.specs.Parsed.{SaysWrong};
ghost use Rattle.idl_tool.specs.Words.{AreCheckOf, AreDepsOf, AreWrong, AreDiffOf, AreNoDiff, IsRequestOf, entered_in, fails_in, faults_in, files_in, has_versions, json_in, json_of};

use crate::commands::command;
use crate::versions::{below_of, new_side, old_side};
use clap::ArgMatches;
use idl_changes::Weights;
use idl_driver::{Options, ParsedWords, WordsFault, options_of, parse_words, values_of};
use std::alloc::{AllocError, Global};

/// What is to be told of files, and how the program ends then.
#[derive(Drop)]
pub struct Check<'a> {
    /// The files, and what they are compiled over.
    pub options: Options<'a>,
    /// Whether warnings count as errors do.
    pub counts_warnings: bool,
}

/// Whose rules of make are to be written, and how.
#[derive(Drop)]
pub struct Deps<'a> {
    /// The files, and what they are compiled over.
    pub options: Options<'a>,
    /// The target of each rule, where it is not to be the listing of its file.
    pub target: Option<&'a str>,
    /// Whether a file that isn't there is one that another rule makes.
    pub has_generated: bool,
    /// Whether a file that isn't there is left out.
    pub leaves_absent: bool,
}

/// Which versions are to be compared, what each is compiled over, which changes are errors, and how they are written.
#[derive(Drop)]
pub struct Diff<'a> {
    /// The old files.
    pub old: Options<'a>,
    /// The new ones.
    pub new: Options<'a>,
    /// The weights with which a change is an error.
    pub fails: Weights,
    /// Whether each change is written as an object of JSON, and not as a row.
    pub is_json: bool,
    /// Whether each file of one belongs to one of the other, in their order.
    pub are_pairs: bool,
}

/// What the words ask for.
#[derive(Drop)]
pub enum ToolRequest<'a> {
    /// To show a text, which tells how the program is used or its version.
    Show(String),
    /// To explain the codes and refusals that words name, or all without a word.
    Explain(Vec<&'a str>),
    /// To write rules of make.
    Deps(Deps<'a>),
    /// To tell what is found in files.
    Check(Check<'a>),
    /// To write what is told of files as JSON.
    Json(Options<'a>),
    /// To tell what changes from one file to another.
    Diff(Diff<'a>),
    /// To serve an editor.
    Serve,
}

/// Reads the words behind the program's name.
pub fn request_of<'a>(alloc: Global, words: &'a [&'a str]) -> Result<ToolRequest<'a>, WordsFault>
    ensures asked { IfOk result (IsRequestOf (map (λ w. w.now) words.entry.now)) }
    ensures wrong { IfErr result (SaysWrong (AreWrong (map (λ w. w.now) words.entry.now))) }
{
    match parse_words(alloc, command(alloc)?, words) {
        Ok(ParsedWords::Taken(matches)) => chosen(alloc, words, &matches),
        Ok(ParsedWords::Text(text)) => Ok(ToolRequest::Show(text)),
        Err(fault) => Err(fault),
    }
}

// What is asked for by words that are taken.
fn chosen<'a>(
    alloc: Global,
    words: &'a [&'a str],
    matches: &ArgMatches<'a>,
) -> Result<ToolRequest<'a>, WordsFault>
    requires taken { faults_in (map (λ w. w.now) words.now) ≡ [] }
    requires entered { subcommand_rows_of matches.now ≡ entered_in (map (λ w. w.now) words.now) }

    ensures asked { IfOk result (IsRequestOf (map (λ w. w.now) words.entry.now)) }
    ensures wrong { IfErr result (SaysWrong (AreWrong (map (λ w. w.now) words.entry.now))) }
{
    if let Some(explain) = matches.subcommand_matches("explain") {
        return Ok(ToolRequest::Explain(values_of(alloc, explain, "word")?));
    }
    if let Some(deps) = matches.subcommand_matches("deps") {
        return Ok(ToolRequest::Deps(deps_of(alloc, deps)?));
    }
    if let Some(check) = matches.subcommand_matches("check") {
        return Ok(ToolRequest::Check(check_of(alloc, check)?));
    }
    if let Some(json) = matches.subcommand_matches("json") {
        return Ok(ToolRequest::Json(options_of(alloc, json)?));
    }
    if let Some(_lsp) = matches.subcommand_matches("lsp") {
        return Ok(ToolRequest::Serve);
    }
    match matches.subcommand_matches("diff") {
        Some(diff) => match forms_of(diff) {
            Some(forms) => Ok(ToolRequest::Diff(diff_of(alloc, diff, forms)?)),
            None => {
                let text = String::from_str(alloc, wrong_forms(diff))?;
                Err(WordsFault::Wrong(text))
            }
        },
        // One of the six is wanted.
        None => Err(WordsFault::Wrong(String::new(alloc))),
    }
}

fn check_of<'a>(alloc: Global, matches: &ArgMatches<'a>) -> Result<Check<'a>, AllocError>
    ensures { IfOk result (AreCheckOf (rows_of (found_of matches.now))) }
{
    Ok(Check {
        options: options_of(alloc, matches)?,
        counts_warnings: matches.get_count("werror") > 0,
    })
}

fn deps_of<'a>(alloc: Global, matches: &ArgMatches<'a>) -> Result<Deps<'a>, AllocError>
    ensures { IfOk result (AreDepsOf (rows_of (found_of matches.now))) }
{
    Ok(Deps {
        options: options_of(alloc, matches)?,
        target: matches.get_str("target"),
        has_generated: matches.get_count("generated") > 0,
        leaves_absent: matches.get_count("present") > 0,
    })
}

// The weights with which a change is an error.
fn fails_of(matches: &ArgMatches<'_>) -> Option<Weights>
    ensures { result ≡ fails_in (rows_of (found_of matches.now)) }
{
    match matches.get_str("fail-on") {
        Some(text) => Weights::named(text.as_bytes()),
        None => Some(Weights::of_callers()),
    }
}

// Whether each change is to be an object of JSON, and not a row.
fn json_of(matches: &ArgMatches<'_>) -> Option<bool>
    ensures { result ≡ json_in (rows_of (found_of matches.now)) }
{
    match matches.get_str("format") {
        Some(format) => json_named(format),
        None => Some(false),
    }
}

// Whether a format is JSON, and not that of rows, where it is one of them.
fn json_named(format: &str) -> Option<bool>
    ensures { result ≡ json_of (Some format.now) }
{
    match format {
        "json" => Some(true),
        "text" => Some(false),
        _ => None,
    }
}

// Which changes are errors, and whether each is to be an object of JSON, where both are told so that it can be read.
fn forms_of(matches: &ArgMatches<'_>) -> Option<(Weights, bool)>
    ensures { MatchOption result (AreNoDiff (rows_of (found_of matches.now)))
        (λ forms. (fails_in (rows_of (found_of matches.now)) ≡ Some forms.0)
        × (json_in (rows_of (found_of matches.now)) ≡ Some forms.1)) }
{
    if !has_versions(matches) {
        return None;
    }
    match fails_of(matches) {
        Some(fails) => match json_of(matches) {
            Some(is_json) => Some((fails, is_json)),
            None => None,
        },
        None => None,
    }
}

// Whether there are OLD and NEW, or `--old`.
fn has_versions(matches: &ArgMatches<'_>) -> bool
    ensures { result ≡ has_versions (rows_of (found_of matches.now)) }
{
    let has_two = files_count(matches) == 2;
    below_of(matches).is_some() || has_two
}

// How many FILEs there are.
fn files_count(matches: &ArgMatches<'_>) -> usize
    ensures { result ≡ length (files_in (rows_of (found_of matches.now))) }
{
    match matches.get_strs("file") {
        Some(given) => given.len(),
        None => 0,
    }
}

// What is told where one of them can't be read.
fn wrong_forms(matches: &ArgMatches<'_>) -> &'static str {
    if !has_versions(matches) {
        return "error: OLD and NEW are wanted, or --old DIR and FILEs\n\nUsage: idltool diff [OPTIONS] OLD NEW\n       idltool diff [OPTIONS] --old DIR FILE..\n";
    }
    if fails_of(matches).is_none() {
        return "--fail-on: never, or of wire, client, servant, names and new, with commas between";
    }
    "--format: text or json"
}

fn diff_of<'a>(
    alloc: Global,
    matches: &ArgMatches<'a>,
    forms: (Weights, bool),
) -> Result<Diff<'a>, AllocError>
    requires fails { fails_in (rows_of (found_of matches.now)) ≡ Some forms.0 }
    requires form { json_in (rows_of (found_of matches.now)) ≡ Some forms.1 }

    ensures { IfOk result (AreDiffOf (rows_of (found_of matches.now))) }
{
    let old = old_side(alloc, matches)?;
    let new = new_side(alloc, matches)?;
    Ok(Diff {
        old,
        new,
        fails: forms.0,
        is_json: forms.1,
        are_pairs: below_of(matches).is_some(),
    })
}
