//! The files that roots ask for, and what the roots compile to over them.

ghost use Rattle.std.specs.Prelude.{◌≡◌, ◌⊎◌, ◌++◌, ◌∷◌, [], All, Contains, IfNone, IfOk, OnErr, OnOk, length, map};
ghost use Rattle.std.specs.FinMap as finite;
ghost use Rattle.idl_source.specs.texts.Cut.{cut_lines};
ghost use Rattle.idl_sources.specs.Compile.{compiled_root};
ghost use Rattle.idl_driver.specs.Left.{AreAllBut, IsParted};
ghost use Rattle.idl_driver.specs.Loading.{AreCompiled};
ghost use Rattle.idl_driver.specs.Tried.{AreMissing, IsLoading, IsTrue};

use crate::failure::CompileFault;
use crate::limit::Limit;
use idl_loader::{Loaded, Loader};
use idl_prep::{Explorer, FileWalk, MAX_DEPTH, OpenFile, Waypoint};
use idl_source::{Name, Refusal, cut};
use idl_sources::{CompiledRoot, Sources};
use indexmap::IndexSet;
use std::alloc::AllocError;

/// What the roots compile to, each once, over the files that they ask for, which are loaded before.
///
/// The roots are explored in their order, and a name is tried when it is asked for, so that each is tried once in all, and trouble
/// with one ends the program as the first that there is.
pub fn compile_all<L: Loader>(
    sources: Sources,
    roots: &[Name],
    loader: &mut L,
) -> Result<(Sources, Vec<CompiledRoot>), CompileFault>
    requires { sources.files ≡ finite.empty }
    ensures compiled { IfOk result
        (λ p. AreCompiled (L.told loader.old) sources p.0 roots.now p.1.items) }
    // The loader tells what it told.
    ensures still { OnOk result (L.told loader.new ≡ L.told loader.old) }
{
    let mut loading = Loading::new(sources);
    loading.explore_all(roots, loader)?;
    settle(loading, roots, loader)
}

/// Of roots those that come without trouble, and what they compile to.
pub struct SoundRoots {
    /// What they are compiled over.
    pub sources: Sources,
    /// The roots, in order.
    pub roots: Vec<Name>,
    /// What each compiles to.
    pub compiled: Vec<CompiledRoot>,
    /// The first trouble of each other root, in order.
    pub faults: Vec<CompileFault>,
}

impl Drop for SoundRoots {
    fn drop(self) {
        let SoundRoots {
            sources: _sources,
            roots: _roots,
            compiled: _compiled,
            faults: _faults,
        } = self;
    }
}

/// What those of the roots compile to that come without trouble, each once, over the files that they ask for, which are loaded before.
///
/// A file with which there was trouble isn't there to the root that asked for it, which is left out; the next root tries it again.
pub fn compile_sound<L: Loader>(
    sources: Sources,
    roots: &[Name],
    loader: &mut L,
) -> Result<SoundRoots, CompileFault>
    requires { sources.files ≡ finite.empty }
    ensures compiled { IfOk result (λ sound. AreCompiled (L.told loader.old) sources
        sound.sources sound.roots.items sound.compiled.items) }
    ensures left { IfOk result (λ sound.
        AreAllBut roots.now (length sound.faults.items) sound.roots.items) }
    // The loader tells what it told.
    ensures still { OnOk result (L.told loader.new ≡ L.told loader.old) }
{
    let mut loading = Loading::new(sources);
    loading.goes_on = true;
    let (sound, faults) = loading.part(roots, loader)?;
    loading.goes_on = false;
    let (sources, compiled) = settle(loading, &sound, loader)?;
    Ok(SoundRoots {
        sources,
        roots: sound,
        compiled,
        faults,
    })
}

// What roots compile to that were explored.
//
// No promise rests on the exploration: what the compiled roots have absent is looked at, and a name among it that wasn't tried would be
// loaded, and the roots explored and compiled again.
fn settle<L: Loader>(
    mut loading: Loading,
    roots: &[Name],
    loader: &mut L,
) -> Result<(Sources, Vec<CompiledRoot>), CompileFault>
    requires { IsTrue (L.told loader.old) loading.sources loading.missing.keys }
    ensures compiled { IfOk result
        (λ p. AreCompiled (L.told loader.old) loading.sources p.0 roots.now p.1.items) }
    ensures still { OnOk result (L.told loader.new ≡ L.told loader.old) }
{
    let mut rounds_left = u64::MAX;
    'rounds: loop {
        let compiled = compile_each(&mut loading.sources, roots)?;
        let Some(name) = loading.untried(&compiled) else {
            let sources = loading.into_sources();
            sources.keeps_form();
            return Ok((sources, compiled));
        };
        if rounds_left == 0 {
            // So many names nobody asks for.
            return Err(refused(name, Refusal::OverLimit));
        }
        rounds_left -= 1;
        loading.load(name, loader)?;
        loading.explore_all(roots, loader)?;
    }
}

// Sources while files are loaded, the names that were tried and are missing, and how far the present root is explored.
struct Loading {
    sources: Sources,
    missing: IndexSet<Name>,
    explorer: Explorer<Sources>,
    // Whether a file with which there is trouble isn't there to the root that asks for it.
    goes_on: bool,
    // The first such trouble of the present root.
    trouble: Option<CompileFault>,
}

impl Drop for Loading {
    fn drop(self) {
        let Loading {
            sources: _sources,
            missing: _missing,
            explorer: _explorer,
            goes_on: _goes_on,
            trouble: _trouble,
        } = self;
    }
}

impl Loading {
    // Nothing was tried.
    fn new(sources: Sources) -> Loading
        ensures sources { result.sources ≡ sources }
        ensures none { result.missing.keys ≡ [] }
    {
        let alloc = sources.allocator();
        Loading {
            sources,
            missing: IndexSet::new(alloc),
            explorer: Explorer::new(alloc),
            goes_on: false,
            trouble: None,
        }
    }

    // The sources, in the end.
    fn into_sources(self) -> Sources
        ensures { result ≡ self.sources }
    {
        let Loading {
            sources,
            missing: _missing,
            explorer: _explorer,
            goes_on: _goes_on,
            trouble: _trouble,
        } = self;
        sources
    }

    // Loads what the roots ask for.
    #[inline(never)]
    fn explore_all<L: Loader>(&mut self, roots: &[Name], loader: &mut L) -> Result<(), CompileFault>
        ensures { OnOk result
            (IsLoading (L.told loader.old) (L.told loader.new) self.old self.new) }
    {
        'roots: for root in roots {
            self.explore_root(root, loader)?;
        }
        Ok(())
    }

    // Loads what a root asks for.
    fn explore_root<L: Loader>(&mut self, root: &Name, loader: &mut L) -> Result<(), CompileFault>
        ensures { OnOk result
            (IsLoading (L.told loader.old) (L.told loader.new) self.old self.new) }
    {
        self.explorer = Explorer::new(self.sources.allocator());
        match self.own_file(root, loader)? {
            Some(file) => self.explore(loader, MAX_DEPTH - 1, &file),
            None => Ok(()),
        }
    }

    // Loads what the roots ask for, and parts those that come without trouble from the first trouble of each other one.
    #[inline(never)]
    fn part<L: Loader>(
        &mut self,
        roots: &[Name],
        loader: &mut L,
    ) -> Result<(Vec<Name>, Vec<CompileFault>), CompileFault>
        ensures loading { OnOk result
            (IsLoading (L.told loader.old) (L.told loader.new) self.old self.new) }
        ensures left { IfOk result
            (λ p. AreAllBut roots.now (length p.1.items) p.0.items) }
    {
        let mut sound = Vec::new(self.sources.allocator());
        let mut faults = Vec::new(self.sources.allocator());
        'roots: for root in roots {
            self.explore_root(root, loader)?;
            self.part_root(root, &mut sound, &mut faults)
                .map_err(|_| no_memory(root))?;
        }
        Ok((sound, faults))
    }

    // Puts a root that was explored behind those that come without trouble, or its trouble behind that of others.
    fn part_root(
        &mut self,
        root: &Name,
        sound: &mut Vec<Name>,
        faults: &mut Vec<CompileFault>,
    ) -> Result<(), AllocError>
        ensures sources { self.new.sources ≡ self.old.sources }
        ensures missing { self.new.missing.keys ≡ self.old.missing.keys }
        ensures parted { OnOk result (IsParted root.now sound.old.items sound.new.items
            (length faults.old.items) (length faults.new.items)) }
    {
        if let Some(fault) = self.trouble.take() {
            faults.push(fault)?;
            return Ok(());
        }
        sound.push(root.copied())?;
        Ok(())
    }

    // The file of a root, which is loaded if it wasn't.
    fn own_file<L: Loader>(
        &mut self,
        root: &Name,
        loader: &mut L,
    ) -> Result<Option<OpenFile>, CompileFault>
        ensures { OnOk result
            (IsLoading (L.told loader.old) (L.told loader.new) self.old self.new) }
    {
        if let Some(file) = self.opened(root)? {
            return Ok(Some(file));
        }
        self.load(root, loader)?;
        self.opened(root)
    }

    // The file of this name, if it is there.
    fn opened(&self, name: &Name) -> Result<Option<OpenFile>, CompileFault> {
        OpenFile::of(self.sources.allocator(), name, &self.sources).map_err(|_| no_memory(name))
    }

    // Loads what a file asks for, inside which so many may still be entered inside one another.
    #[cycle(files)]
    fn explore<L: Loader>(
        &mut self,
        loader: &mut L,
        room: usize,
        file: &OpenFile,
    ) -> Result<(), CompileFault>
        ensures { OnOk result
            (IsLoading (L.told loader.old) (L.told loader.new) self.old self.new) }
    {
        let mut walk = FileWalk::new(self.sources.allocator(), file);
        'steps: for _ in 0..u64::MAX {
            match self.advance(&mut walk, file)? {
                Waypoint::Absent(names) => self.load_first(&names, loader)?,
                Waypoint::Entered(inner) => self.enter(loader, room, &inner)?,
                Waypoint::End => return Ok(()),
            }
        }
        Ok(())
    }

    // How the exploration of a file goes on. What it holds meanwhile isn't held while a file inside is explored.
    #[inline(never)]
    fn advance(
        &mut self,
        walk: &mut FileWalk<'_>,
        file: &OpenFile,
    ) -> Result<Waypoint, CompileFault>
        ensures sources { OnOk result (self.new.sources ≡ self.old.sources) }
        ensures missing { OnOk result (self.new.missing.keys ≡ self.old.missing.keys) }
    {
        walk.advance(&mut self.explorer, &self.sources)
            .map_err(|_| no_memory(&file.name.name()))
    }

    // Loads what a file asks for, unless it is too deep.
    #[cycle(files)]
    fn enter<L: Loader>(
        &mut self,
        loader: &mut L,
        room: usize,
        file: &OpenFile,
    ) -> Result<(), CompileFault>
        ensures { OnOk result
            (IsLoading (L.told loader.old) (L.told loader.new) self.old self.new) }
    {
        if room == 0 {
            return self
                .explorer
                .refuse(file)
                .map_err(|_| no_memory(&file.name.name()));
        }
        self.explore(loader, room - 1, file)
    }

    // Loads the first of these names that there is.
    fn load_first<L: Loader>(&mut self, names: &[Name], loader: &mut L) -> Result<(), CompileFault>
        ensures { OnOk result
            (IsLoading (L.told loader.old) (L.told loader.new) self.old self.new) }
    {
        'names: for name in names {
            if self.load(name, loader)? {
                return Ok(());
            }
        }
        Ok(())
    }

    // Loads the file of this name, unless it is known to be missing, and tells whether it is there.
    #[inline(never)]
    fn load<L: Loader>(&mut self, name: &Name, loader: &mut L) -> Result<bool, CompileFault>
        ensures { OnOk result
            (IsLoading (L.told loader.old) (L.told loader.new) self.old self.new) }
    {
        if self.missing.contains(name) {
            return Ok(false);
        }
        match loader.load(name) {
            Loaded::Bytes(bytes) => self.take_bytes(name, &bytes),
            Loaded::Missing => match self.missing.insert(name.copied()) {
                Ok(_) => Ok(false),
                Err(_) => Err(no_memory(name)),
            },
            Loaded::Failed => self.meet(CompileFault::CannotRead(name.copied())),
            Loaded::NoMemory => Err(no_memory(name)),
        }
    }

    // Puts a file of these bytes, and tells whether it is there.
    fn take_bytes(&mut self, name: &Name, bytes: &[u8]) -> Result<bool, CompileFault>
        ensures taken { OnOk result
            ((self.new.sources ≡ record self.old.sources {
              files = finite.insert self.old.sources.files name.now (cut_lines bytes.now);
            })
            ⊎ (self.new.sources ≡ self.old.sources)) }
        ensures missing { self.new.missing.keys ≡ self.old.missing.keys }
    {
        match put(&mut self.sources, name, bytes) {
            Ok(()) => Ok(true),
            Err(fault) => self.meet(fault),
        }
    }

    // There is trouble with a file: it ends the program, or the file isn't there to the present root.
    fn meet(&mut self, fault: CompileFault) -> Result<bool, CompileFault>
        ensures sources { self.new.sources ≡ self.old.sources }
        ensures missing { self.new.missing.keys ≡ self.old.missing.keys }
    {
        if !self.goes_on {
            return Err(fault);
        }
        if self.trouble.is_none() {
            self.trouble = Some(fault);
        }
        Ok(false)
    }

    // The first name that a compiled root asks for, that isn't there, and that wasn't tried.
    fn untried<'c>(&self, compiled: &'c [CompiledRoot]) -> Option<&'c Name>
        ensures { IfNone result (AreMissing self.now.missing.keys compiled.entry.now) }
    {
        'roots: for root in compiled {
            if let Some(name) = self.untried_among(root.absent.as_slice()) {
                return Some(name);
            }
        }
        None
    }

    // The first of these names that wasn't tried.
    fn untried_among<'n>(&self, names: &'n [Name]) -> Option<&'n Name>
        ensures { IfNone result
            (All (λ name. Contains self.now.missing.keys name) names.entry.now) }
    {
        'names: for name in names {
            if !self.missing.contains(name) {
                return Some(name);
            }
        }
        None
    }
}

// Puts a file of these bytes.
fn put(sources: &mut Sources, name: &Name, bytes: &[u8]) -> Result<(), CompileFault>
    ensures put { let files = finite.insert sources.old.files name.now (cut_lines bytes.now) in
        OnOk result (sources.new ≡ record sources.old { files = files }) }
    ensures same { OnErr result (sources.new ≡ sources.old) }
{
    let lines = cut(sources.allocator(), bytes).map_err(|_| no_memory(name))?;
    let limit = Limit::of_file(&lines);
    match sources.put(name, lines) {
        Ok(()) => Ok(()),
        Err(Refusal::OverLimit) => Err(CompileFault::OverLimit(name.copied(), limit)),
        Err(refusal) => Err(refused(name, refusal)),
    }
}

// What each of the roots compiles to.
fn compile_each(sources: &mut Sources, roots: &[Name]) -> Result<Vec<CompiledRoot>, CompileFault>
    ensures rows { IfOk result (λ compiled.
        compiled.items ≡ map (compiled_root sources.old) roots.now) }
    ensures same { OnOk result (sources.new ≡ sources.old) }
{
    let mut compiled = Vec::new(sources.allocator());
    'roots: for root in roots {
        compile(sources, root, &mut compiled).map_err(|_| no_memory(root))?;
    }
    Ok(compiled)
}

// Puts what a root compiles to behind that of others.
fn compile(
    sources: &mut Sources,
    root: &Name,
    compiled: &mut Vec<CompiledRoot>,
) -> Result<(), AllocError>
    ensures more { let one = compiled_root sources.old root.now in
        OnOk result (compiled.new.items ≡ compiled.old.items ++ one ∷ []) }
    ensures same { sources.new ≡ sources.old }
{
    let one = sources.compile(root)?;
    compiled.push(one)?;
    Ok(())
}

fn no_memory(name: &Name) -> CompileFault {
    refused(name, Refusal::NoMemory)
}

fn refused(name: &Name, refusal: Refusal) -> CompileFault {
    CompileFault::Refused(name.copied(), refusal)
}
