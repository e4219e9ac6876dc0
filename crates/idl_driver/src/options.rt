//! Options that say what files are compiled over, and what is shown of them.

ghost use Rattle.std.specs.Prelude.{◌≡◌, IfOk, map, false};
ghost use Rattle.clap.specs.Words.{app_of, found_of, rows_of, rule_of};
ghost use Rattle.clap.specs.declared.builder.command.Command.TheViews.{out-Command as fields_of};
ghost use Rattle.idl_driver.specs.Words.{AreOptionsOf, option_rule, option_rules, values_of, with_rules};

use clap::{Arg, ArgAction, ArgMatches, Command};
use std::alloc::{AllocError, Global};

/// What is to be compiled and shown.
#[derive(Drop)]
pub struct Options<'a> {
    /// Each `NAME` or `NAME=VALUE` of `-D`.
    pub defines: Vec<&'a str>,
    /// Each name of `-U`.
    pub undefines: Vec<&'a str>,
    /// Each directory of `-I`.
    pub directories: Vec<&'a str>,
    /// The files that are roots.
    pub files: Vec<&'a str>,
    /// Whether `-d` stands there.
    pub shows_dump: bool,
    /// Whether `--listing` stands there.
    pub shows_listing: bool,
}

/// A command with the options that say what files are compiled over: `-D`, `-U` and `-I`.
pub fn with_options<'a>(alloc: Global, command: Command<'a>) -> Result<Command<'a>, AllocError>
    ensures rules { IfOk result (λ more.
        app_of more ≡ with_rules (app_of command.entry) option_rules) }
    ensures local { IfOk result (λ more.
        (fields_of more).has_globals ≡ (fields_of command.entry).has_globals) }
{
    command
        .arg(valued(alloc, "define", 'D', "NAME[=VALUE]").help(
            "Defines a macro, with the body 1 where there is no =VALUE",
        ))?
        .arg(valued(alloc, "undefine", 'U', "NAME").help("Takes a macro of -D out"))?
        .arg(valued(alloc, "directory", 'I', "DIRECTORY").help(
            "Searches included files there, too",
        ))
}

// An option with a value, which may stand again.
fn valued<'a>(alloc: Global, id: &'a str, short: char, value: &'a str) -> Arg<'a>
    ensures rule { rule_of result ≡ option_rule id.now short }
    ensures global { result.global ≡ false }
{
    Arg::new(alloc, id)
        .short(short)
        .value_name(value)
        .action(ArgAction::Append)
}

/// What the options of a command and its FILEs ask for, of those that it has.
pub fn options_of<'a>(alloc: Global, matches: &ArgMatches<'a>) -> Result<Options<'a>, AllocError>
    ensures { IfOk result (AreOptionsOf (rows_of (found_of matches.now))) }
{
    Ok(Options {
        defines: values_of(alloc, matches, "define")?,
        undefines: values_of(alloc, matches, "undefine")?,
        directories: values_of(alloc, matches, "directory")?,
        files: values_of(alloc, matches, "file")?,
        shows_dump: matches.get_count("dump") > 0,
        shows_listing: matches.get_count("listing") > 0,
    })
}

/// The values that stand for an option, in the order of the words.
pub fn values_of<'a>(
    alloc: Global,
    matches: &ArgMatches<'a>,
    id: &str,
) -> Result<Vec<&'a str>, AllocError>
    ensures { IfOk result (λ values.
        map (λ v. v.now) values.items ≡ values_of id.now (rows_of (found_of matches.now))) }
{
    match matches.get_strs(id) {
        Some(given) => Vec::from_slice(alloc, given),
        None => Ok(Vec::new(alloc)),
    }
}
