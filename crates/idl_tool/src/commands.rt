//! The program's words, as clap has them: its subcommands, and the options of each.

ghost use Rattle.std.specs.Prelude.{◌≡◌, ◌++◌, ◌∷◌, IfOk, OnOk, [], codes, false, true};
ghost use Rattle.std.specs.List.{AllZip};
ghost use Rattle.clap.specs.Words.{app_of, rule_of, shape_of};
ghost use Rattle.clap.specs.declared.builder.command.Command.TheViews.{out-Command as fields_of};
ghost use Rattle.idl_driver.specs.Words.{file_rule};
ghost use Rattle.idl_tool.specs.Words.{IsSubcommand, bare, below_rule, check_shape, deps_shape, diff_shape, lsp_shape, explain_shape, fails_rule, format_rule, generated_rule, idltool, json_shape, present_rule, side_rule, stdio_rule, subcommand_shapes, target_rule, werror_rule, word_rule};

use clap::{Arg, ArgAction, Command};
use idl_driver::with_options;
use std::alloc::{AllocError, Global};

/// The program with its subcommands.
pub(crate) fn command<'a>(alloc: Global) -> Result<Command<'a>, AllocError>
    ensures { IfOk result (λ command. app_of command ≡ idltool) }
{
    let subcommands = subcommands(alloc)?;
    bare(alloc).subcommands(subcommands)
}

// What it can be asked for.
fn subcommands<'a>(alloc: Global) -> Result<Vec<Command<'a>>, AllocError>
    ensures { IfOk result (λ all. AllZip IsSubcommand all.items subcommand_shapes) }
{
    let mut all = Vec::new(alloc);
    push_subcommand(explain_command(alloc)?, &mut all)?;
    push_subcommand(deps_command(alloc)?, &mut all)?;
    push_subcommand(check_command(alloc)?, &mut all)?;
    push_subcommand(json_command(alloc)?, &mut all)?;
    push_subcommand(diff_command(alloc)?, &mut all)?;
    push_subcommand(lsp_command(alloc)?, &mut all)?;
    Ok(all)
}

// Adds a subcommand.
fn push_subcommand<'a>(
    subcommand: Command<'a>,
    all: &mut Vec<Command<'a>>,
) -> Result<(), AllocError>
    ensures { OnOk result (all.new.items ≡ all.old.items ++ subcommand.entry ∷ []) }
{
    all.push(subcommand)?;
    Ok(())
}

// The program without a subcommand.
fn bare<'a>(alloc: Global) -> Command<'a>
    ensures { app_of result ≡ bare }
{
    Command::new(alloc, "idltool")
        .no_binary_name(true)
        .subcommand_required(true)
        .arg_required_else_help(true)
        .version("0.1.0")
        .about(
            "Checks files, tells what the rows of idlc mean, what files stand on and what changes from one to another, and writes JSON.",
        )
        .after_help(
            "The status is 0; or 1 where a FILE has errors, or a change is one; or 2 for wrong words and other trouble, which standard error tells.",
        )
}

fn explain_command<'a>(alloc: Global) -> Result<Command<'a>, AllocError>
    ensures shape { IfOk result (λ command. shape_of command ≡ explain_shape) }
    ensures local { IfOk result (λ command. (fields_of command).has_globals ≡ false) }
{
    Command::new(alloc, "explain")
        .about("Explains codes of rows, and refusals, with examples")
        .override_usage("idltool explain [CODE|NUMBER]..")
        .arg(word(alloc))
}

fn deps_command<'a>(alloc: Global) -> Result<Command<'a>, AllocError>
    ensures shape { IfOk result (λ command. shape_of command ≡ deps_shape) }
    ensures local { IfOk result (λ command. (fields_of command).has_globals ≡ false) }
{
    let command = Command::new(alloc, "deps")
        .about("Writes a rule of make for each FILE: what the FILE stands on")
        .override_usage("idltool deps [OPTIONS] FILE..");
    with_options(alloc, command)?
        .arg(target(alloc))?
        .arg(generated(alloc))?
        .arg(present(alloc))?
        .arg(file(alloc))
}

fn check_command<'a>(alloc: Global) -> Result<Command<'a>, AllocError>
    ensures shape { IfOk result (λ command. shape_of command ≡ check_shape) }
    ensures local { IfOk result (λ command. (fields_of command).has_globals ≡ false) }
{
    let command = Command::new(alloc, "check")
        .about("Tells the errors and warnings of each FILE, with their lines")
        .override_usage("idltool check [OPTIONS] FILE..");
    with_options(alloc, command)?
        .arg(werror(alloc))?
        .arg(file(alloc))
}

fn json_command<'a>(alloc: Global) -> Result<Command<'a>, AllocError>
    ensures shape { IfOk result (λ command. shape_of command ≡ json_shape) }
    ensures local { IfOk result (λ command. (fields_of command).has_globals ≡ false) }
{
    let command = Command::new(alloc, "json")
        .about(
            "Writes what each FILE has as JSON, an object on a line: what is found, and what is declared",
        )
        .override_usage("idltool json [OPTIONS] FILE..");
    with_options(alloc, command)?.arg(file(alloc))
}

fn diff_command<'a>(alloc: Global) -> Result<Command<'a>, AllocError>
    ensures shape { IfOk result (λ command. shape_of command ≡ diff_shape) }
    ensures local { IfOk result (λ command. (fields_of command).has_globals ≡ false) }
{
    let command = Command::new(alloc, "diff")
        .about("Tells what changes from one version of a FILE to another, and for whom it counts")
        .override_usage(
            "idltool diff [OPTIONS] OLD NEW\n       idltool diff [OPTIONS] --old DIR FILE..",
        );
    with_options(alloc, command)?
        .arg(old_directory(alloc))?
        .arg(new_directory(alloc))?
        .arg(below(alloc))?
        .arg(fails(alloc))?
        .arg(format(alloc))?
        .arg(file(alloc))
}

fn lsp_command<'a>(alloc: Global) -> Result<Command<'a>, AllocError>
    ensures shape { IfOk result (λ command. shape_of command ≡ lsp_shape) }
    ensures local { IfOk result (λ command. (fields_of command).has_globals ≡ false) }
{
    Command::new(alloc, "lsp")
        .about("Serves an editor over standard input and output, as a language server")
        .override_usage("idltool lsp [--stdio]")
        .arg(stdio(alloc))
}

fn word<'a>(alloc: Global) -> Arg<'a>
    ensures rule { rule_of result ≡ word_rule }
    ensures global { result.global ≡ false }
{
    Arg::new(alloc, "word")
        .value_name("CODE|NUMBER")
        .action(ArgAction::Append)
        .help("A code, as E35, or the number of a refusal; without it all are told, in a line each")
}

fn target<'a>(alloc: Global) -> Arg<'a>
    ensures rule { rule_of result ≡ target_rule }
    ensures global { result.global ≡ false }
{
    Arg::new(alloc, "target")
        .short('t')
        .value_name("TARGET")
        .action(ArgAction::Set)
        .help("The target of each rule, in the place of FILE with .listing for .idl")
}

fn generated<'a>(alloc: Global) -> Arg<'a>
    ensures rule { rule_of result ≡ generated_rule }
    ensures global { result.global ≡ false }
{
    Arg::new(alloc, "generated")
        .long("generated")
        .action(ArgAction::Count)
        .help("Takes each file that isn't there for one that another rule makes")
}

fn present<'a>(alloc: Global) -> Arg<'a>
    ensures rule { rule_of result ≡ present_rule }
    ensures global { result.global ≡ false }
{
    Arg::new(alloc, "present")
        .long("present")
        .action(ArgAction::Count)
        .help("Leaves out each file that isn't there, as for ninja, CMake and Meson")
}

fn werror<'a>(alloc: Global) -> Arg<'a>
    ensures rule { rule_of result ≡ werror_rule }
    ensures global { result.global ≡ false }
{
    Arg::new(alloc, "werror")
        .long("werror")
        .action(ArgAction::Count)
        .help("Ends with the status 1 where there are warnings, too")
}

fn stdio<'a>(alloc: Global) -> Arg<'a>
    ensures rule { rule_of result ≡ stdio_rule }
    ensures global { result.global ≡ false }
{
    Arg::new(alloc, "stdio")
        .long("stdio")
        .action(ArgAction::Count)
        .help("Changes nothing: some clients add it")
}

fn file<'a>(alloc: Global) -> Arg<'a>
    ensures rule { rule_of result ≡ record file_rule { required = true } }
    ensures global { result.global ≡ false }
{
    Arg::new(alloc, "file")
        .value_name("FILE")
        .required(true)
        .action(ArgAction::Append)
        .help("A file to compile")
}

fn old_directory<'a>(alloc: Global) -> Arg<'a>
    ensures rule { rule_of result ≡ side_rule (codes "old-directory") (codes "old-I") }
    ensures global { result.global ≡ false }
{
    Arg::new(alloc, "old-directory")
        .long("old-I")
        .value_name("DIR")
        .action(ArgAction::Append)
        .help("Searches DIR, before those of -I, for files that OLD includes")
}

fn new_directory<'a>(alloc: Global) -> Arg<'a>
    ensures rule { rule_of result ≡ side_rule (codes "new-directory") (codes "new-I") }
    ensures global { result.global ≡ false }
{
    Arg::new(alloc, "new-directory")
        .long("new-I")
        .value_name("DIR")
        .action(ArgAction::Append)
        .help("Searches DIR, before those of -I, for files that NEW includes")
}

fn below<'a>(alloc: Global) -> Arg<'a>
    ensures rule { rule_of result ≡ below_rule }
    ensures global { result.global ≡ false }
{
    Arg::new(alloc, "below")
        .long("old")
        .value_name("DIR")
        .action(ArgAction::Set)
        .help("Takes each FILE below DIR for OLD, as relative DIRs of -I, and as it stands for NEW")
}

fn fails<'a>(alloc: Global) -> Arg<'a>
    ensures rule { rule_of result ≡ fails_rule }
    ensures global { result.global ≡ false }
{
    Arg::new(alloc, "fail-on")
        .long("fail-on")
        .value_name("WEIGHT[,WEIGHT..]")
        .action(ArgAction::Set)
        .help("The weights of a change that is an error, or never; without it wire,client")
}

fn format<'a>(alloc: Global) -> Arg<'a>
    ensures rule { rule_of result ≡ format_rule }
    ensures global { result.global ≡ false }
{
    Arg::new(alloc, "format")
        .long("format")
        .value_name("FORMAT")
        .action(ArgAction::Set)
        .help("How a change is written: text, a row, or json, an object on a line; without it text")
}
