//! The files that options ask for, compiled.

ghost use Rattle.std.specs.Prelude.{◌≡◌, IfOk, OnOk};
ghost use Rattle.idl_driver.specs.Compilations.{AreSoundFiles, IsCompilation};

use crate::failure::ProgramFailure;
use crate::loading::{SoundRoots, compile_all, compile_sound};
use crate::options::Options;
use crate::preparing::{prepared, prepared_but};
use idl_loader::Loader;
use idl_source::Name;
use idl_sources::{CompiledRoot, Sources};
use indexmap::IndexSet;
use std::alloc::Global;

/// Files that options ask for, compiled.
pub struct Compilation {
    /// What they are compiled over.
    pub sources: Sources,
    /// The files, each of which is a root.
    pub roots: IndexSet<Name>,
    /// What each compiles to.
    pub compiled: Vec<CompiledRoot>,
}

impl Drop for Compilation {
    fn drop(self) {
        let Compilation {
            sources: _sources,
            roots: _roots,
            compiled: _compiled,
        } = self;
    }
}

/// Compiles the files that options ask for, over what a loader has.
#[inline(never)]
pub fn compile_files<'a, L: Loader>(
    alloc: Global,
    options: &Options<'a>,
    loader: &mut L,
) -> Result<Compilation, ProgramFailure<'a>>
    ensures compiled { IfOk result (IsCompilation (L.told loader.old) options.now) }
    // The loader tells what it told.
    ensures still { OnOk result (L.told loader.new ≡ L.told loader.old) }
{
    let (sources, roots) = prepared(alloc, options)?;
    let (sources, compiled) = compile_all(sources, roots.as_slice(), loader)?;
    Ok(Compilation {
        sources,
        roots,
        compiled,
    })
}

/// Those of the files that options ask for that come without trouble, compiled.
pub struct SoundFiles<'a> {
    /// They, and the trouble of others.
    pub sound: SoundRoots,
    /// FILEs that lead to no name.
    pub nameless: Vec<&'a str>,
}

impl<'a> Drop for SoundFiles<'a> {
    fn drop(self) {
        let SoundFiles {
            sound: _sound,
            nameless: _nameless,
        } = self;
    }
}

/// Compiles those of the files that options ask for that come without trouble, over what a loader has.
#[inline(never)]
pub fn compile_sound_files<'a, L: Loader>(
    alloc: Global,
    options: &Options<'a>,
    loader: &mut L,
) -> Result<SoundFiles<'a>, ProgramFailure<'a>>
    ensures compiled { IfOk result (AreSoundFiles (L.told loader.old) options.now) }
    // The loader tells what it told.
    ensures still { OnOk result (L.told loader.new ≡ L.told loader.old) }
{
    let (sources, roots, nameless) = prepared_but(alloc, options)?;
    let sound = compile_sound(sources, roots.as_slice(), loader)?;
    Ok(SoundFiles { sound, nameless })
}
