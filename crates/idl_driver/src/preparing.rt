//! What options ask for: macros, directories and roots.

ghost use Rattle.std.specs.Prelude.{◌≡◌, ◌++◌, ◌∷◌, [], Some, codes, filter, fold, map, IfOk, OnOk};
ghost use Rattle.std.specs.FinMap as finite;
ghost use Rattle.idl_driver.specs.Options.{AreAsked, AreAskedBut, IsOver, before_equals, defined_by, is_nameless, macro_body, named_by, searched_by, undefined_by, with_name, with_word};
ghost use Rattle.idl_source.specs.names.Path.{joined_path};

use crate::failure::OptionsFault;
use crate::limit::Limit;
use crate::options::Options;
use idl_inputs::MAX_ROOTS;
use idl_source::path::directory_at;
use idl_source::{Directory, Line, Name, Refusal, first_part, join};
use idl_sources::Sources;
use indexmap::IndexSet;
use std::alloc::{AllocError, Global};

/// Sources with the macros and directories of the options, and the roots of these.
#[inline(never)]
pub fn prepared<'a>(
    alloc: Global,
    options: &Options<'a>,
) -> Result<(Sources, IndexSet<Name>), OptionsFault<'a>>
    ensures asked { IfOk result (λ p. AreAsked options.now p.0 p.1.keys) }
    ensures files { IfOk result (λ p. p.0.files ≡ finite.empty) }
{
    let sources = over(alloc, options)?;
    let roots = roots_of(alloc, &options.files)?;
    Ok((sources, roots))
}

/// The same of those of the FILEs that lead to names, and the others.
#[inline(never)]
pub fn prepared_but<'a>(
    alloc: Global,
    options: &Options<'a>,
) -> Result<(Sources, IndexSet<Name>, Vec<&'a str>), OptionsFault<'a>>
    ensures asked { IfOk result (λ p.
        AreAskedBut options.now p.0 p.1.keys (map (λ w. w.now) p.2.items)) }
    ensures files { IfOk result (λ p. p.0.files ≡ finite.empty) }
{
    let sources = over(alloc, options)?;
    let (roots, nameless) = roots_among(alloc, &options.files)?;
    Ok((sources, roots, nameless))
}

// Sources with the macros and directories of the options.
fn over<'a>(alloc: Global, options: &Options<'a>) -> Result<Sources, OptionsFault<'a>>
    ensures over { IfOk result (λ sources. IsOver options.now sources) }
    ensures files { IfOk result (λ sources. sources.files ≡ finite.empty) }
{
    let mut sources = Sources::new(alloc);
    define_all(&mut sources, &options.defines)?;
    undefine_all(&mut sources, &options.undefines)?;
    search_all(&mut sources, &options.directories)?;
    Ok(sources)
}

// Defines each macro, the last of one name in place of those before it.
fn define_all<'a>(sources: &mut Sources, words: &[&'a str]) -> Result<(), OptionsFault<'a>>
    ensures { let texts = map (λ w. w.now) words.entry.now in OnOk result
        (sources.new ≡ record sources.old { macros = defined_by sources.old.macros texts }) }
{
    'words: for word in words {
        define(sources, word)?;
    }
    Ok(())
}

// Defines `NAME`, whose body is `1`, or `NAME=BODY`.
fn define<'a>(sources: &mut Sources, word: &'a str) -> Result<(), OptionsFault<'a>>
    ensures { let macros = defined_by sources.old.macros (word.entry.now ∷ []) in
        OnOk result (sources.new ≡ record sources.old { macros = macros }) }
{
    let (name, body) = macro_of(word.as_bytes());
    let line = match Line::new(sources.allocator(), body) {
        Ok(Some(line)) => line,
        Ok(None) => return Err(OptionsFault::NoLine(word)),
        Err(_) => return Err(refused(word, Refusal::NoMemory)),
    };
    match sources.define(name, line) {
        Ok(_) => Ok(()),
        Err(refusal) => Err(OptionsFault::refused(word, refusal, Limit::of_macro(body))),
    }
}

// The name of the macro that a word defines, and its body.
fn macro_of(word: &[u8]) -> (&[u8], &[u8])
    ensures name { result.0.now ≡ before_equals word.entry.now }
    ensures body { result.1.now ≡ macro_body word.entry.now }
{
    let (name, value) = first_part(word, b'=');
    match value {
        Some(value) => (name, value),
        None => (name, b"1"),
    }
}

// Takes the macro of each name out.
fn undefine_all<'a>(sources: &mut Sources, words: &[&'a str]) -> Result<(), OptionsFault<'a>>
    ensures { let texts = map (λ w. w.now) words.entry.now in OnOk result
        (sources.new ≡ record sources.old { macros = undefined_by sources.old.macros texts }) }
{
    'words: for word in words {
        undefine(sources, word)?;
    }
    Ok(())
}

// Takes the macro of a name out, if there is one.
fn undefine<'a>(sources: &mut Sources, word: &'a str) -> Result<(), OptionsFault<'a>>
    ensures { let macros = undefined_by sources.old.macros (word.entry.now ∷ []) in
        OnOk result (sources.new ≡ record sources.old { macros = macros }) }
{
    match sources.undef(word.as_bytes()) {
        Ok(_) => Ok(()),
        Err(refusal) => Err(refused(word, refusal)),
    }
}

// Has included files searched in each of these directories, too.
fn search_all<'a>(sources: &mut Sources, words: &[&'a str]) -> Result<(), OptionsFault<'a>>
    requires { sources.old.search ≡ [] }
    ensures searched { OnOk result
        (searched_by [] (map (λ w. w.now) words.entry.now) ≡ Some sources.new.search) }
    ensures others { OnOk result
        (sources.new ≡ record sources.old { search = sources.new.search }) }
{
    let mut directories: Vec<Directory> = Vec::new(sources.allocator());
    'words: for word in words {
        search_in(sources, &mut directories, word.as_bytes()).map_err(
            |refusal| OptionsFault::refused(word, refusal, Limit::Directories),
        )?;
    }
    Ok(())
}

fn search_in(
    sources: &mut Sources,
    directories: &mut Vec<Directory>,
    word: &[u8],
) -> Result<(), Refusal>
    ensures more { OnOk result
        (searched_by directories.old.items (word.now ∷ []) ≡ Some directories.new.items) }
    ensures searched { OnOk result
        (sources.new ≡ record sources.old { search = directories.new.items }) }
{
    let directory = directory_at(word).ok_or(Refusal::BadName)?;
    directories.push(directory).map_err(|_| Refusal::NoMemory)?;
    let list = texts(sources.allocator(), directories)?;
    sources.search(&list)?;
    Ok(())
}

fn texts<'d>(alloc: Global, directories: &'d [Directory]) -> Result<Vec<&'d [u8]>, AllocError>
    ensures { IfOk result (λ list. map (λ bytes. bytes.now) list.items ≡ directories.entry.now) }
{
    let mut list: Vec<&[u8]> = Vec::new(alloc);
    'directories: for directory in directories {
        list.push(directory.as_bytes())?;
    }
    Ok(list)
}

// The names that these words lead to, each once.
fn roots_of<'a>(alloc: Global, words: &[&'a str]) -> Result<IndexSet<Name>, OptionsFault<'a>>
    ensures { IfOk result (λ roots.
        named_by [] (map (λ w. w.now) words.entry.now) ≡ Some roots.keys) }
{
    let mut roots = IndexSet::new(alloc);
    'words: for word in words {
        add(&mut roots, word.as_bytes()).map_err(|refusal| OptionsFault::refused(
            word,
            refusal,
            Limit::Roots,
        ))?;
    }
    Ok(roots)
}

// The names that these words lead to, each once, and the words that lead to none.
fn roots_among<'a>(
    alloc: Global,
    words: &[&'a str],
) -> Result<(IndexSet<Name>, Vec<&'a str>), OptionsFault<'a>>
    ensures named { IfOk result (λ p.
        p.0.keys ≡ fold with_word [] (map (λ w. w.now) words.entry.now)) }
    ensures nameless { IfOk result (λ p. map (λ w. w.now) p.1.items
        ≡ filter is_nameless (map (λ w. w.now) words.entry.now)) }
{
    let mut roots = IndexSet::new(alloc);
    let mut nameless = Vec::new(alloc);
    'words: for word in words {
        add_word(&mut roots, &mut nameless, word).map_err(|refusal| OptionsFault::refused(
            word,
            refusal,
            Limit::Roots,
        ))?;
    }
    Ok((roots, nameless))
}

// Puts the name that a word leads to in, or the word behind those that lead to none.
fn add_word<'a>(
    roots: &mut IndexSet<Name>,
    nameless: &mut Vec<&'a str>,
    word: &'a str,
) -> Result<(), Refusal>
    ensures named { OnOk result (roots.new.keys ≡ with_word roots.old.keys word.entry.now) }
    ensures nameless { OnOk result (map (λ w. w.now) nameless.new.items
        ≡ map (λ w. w.now) nameless.old.items ++ filter is_nameless (word.entry.now ∷ [])) }
{
    let Some(name) = name_at(word.as_bytes()) else {
        nameless.push(word)?;
        return Ok(());
    };
    put_root(roots, name)
}

/// The name that a word leads to from the directory that the program runs in. Without one it leads to no file.
pub fn name_at(word: &[u8]) -> Option<Name>
    ensures { result ≡ joined_path (codes ".") word.now }
{
    match Directory::new(b".") {
        Some(here) => join(&here, word),
        None => None,
    }
}

fn add(roots: &mut IndexSet<Name>, word: &[u8]) -> Result<(), Refusal>
    ensures { OnOk result (named_by roots.old.keys (word.now ∷ []) ≡ Some roots.new.keys) }
{
    let name = name_at(word).ok_or(Refusal::BadName)?;
    put_root(roots, name)
}

// Puts a root in, if it isn't there.
fn put_root(roots: &mut IndexSet<Name>, name: Name) -> Result<(), Refusal>
    ensures { OnOk result (roots.new.keys ≡ with_name roots.old.keys name) }
{
    roots.insert(name)?;
    if roots.len() > MAX_ROOTS {
        return Err(Refusal::OverLimit);
    }
    Ok(())
}

fn refused<'a>(word: &'a str, refusal: Refusal) -> OptionsFault<'a> {
    OptionsFault::Refused(word, refusal)
}
