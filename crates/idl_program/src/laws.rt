//! Laws of what words ask for, and of what is told of roots.

ghost use Rattle.std.specs.Prelude.{◌≡◌, ◌≤◌, ◌∷◌, ℕ, List, [], Some, codes, false, length, true};
ghost use Rattle.clap.specs.Words.{Text};
ghost use Rattle.clap.specs.declared.error.kind.ErrorKind.TheVariants.{DisplayHelp, DisplayVersion, InvalidValue, TooManyValues, UnknownArgument};
ghost use Rattle.idl_inputs.specs.Project.{Project, is_root};
ghost use Rattle.idl_session.specs.idl_project.UpToDate.{diagnostics_of, dump_of, is_faulty_of, listing_of};
ghost use Rattle.idl_driver.specs.Compiled.{dump_in, errors_in, has_errors, listing_in};
ghost use Rattle.idl_driver.specs.Words.{stands, values_of};
ghost use Rattle.idl_program.specs.declared.request.CompilerRequest.{CompilerRequest};
ghost use Rattle.idl_program.specs.Words.{AreWrong, IsRequestOf, faults_in, files_in, found_in, words_in};

/// Words have one fault at most, so that wrong words ask for nothing. This does nothing: it carries the laws.
pub fn single_fault()
    ensures single { (words : List Text) → length (faults_in words) ≤ 1 }
    ensures apart { (words : List Text) (request : CompilerRequest)
        → AreWrong words → IsRequestOf words request → ⊥ }
{}

/// What some words ask for, written out. This does nothing: it carries the laws.
pub fn worked_words()
    ensures forms { let words = words_in (codes "-DN=long -D M -UN -U M= -Is -I t a.idl") in
        (faults_in words ≡ [])
        × (values_of (codes "define") (found_in words) ≡ codes "N=long" ∷ codes "M" ∷ [])
        × (values_of (codes "undefine") (found_in words) ≡ codes "N" ∷ codes "M=" ∷ [])
        × (values_of (codes "directory") (found_in words) ≡ codes "s" ∷ codes "t" ∷ [])
        × (files_in words ≡ codes "a.idl" ∷ []) }
    ensures flags { let words = words_in (codes "a.idl -dIs --listing ./b.idl -d -- -c.idl") in
        (faults_in words ≡ [])
        × (stands (codes "dump") (found_in words) ≡ true)
        × (stands (codes "listing") (found_in words) ≡ true)
        × (stands (codes "session") (found_in words) ≡ false)
        × (values_of (codes "directory") (found_in words) ≡ codes "s" ∷ [])
        × (files_in words ≡ codes "a.idl" ∷ codes "./b.idl" ∷ codes "-c.idl" ∷ []) }
    ensures session { (faults_in (words_in (codes "--session")) ≡ [])
        × (stands (codes "session") (found_in (words_in (codes "--session"))) ≡ true) }
    ensures texts { (faults_in (words_in (codes "a.idl --help --no-such")) ≡ DisplayHelp ∷ [])
        × (faults_in (words_in (codes "--version")) ≡ DisplayVersion ∷ []) }
    ensures none { (faults_in [] ≡ []) × (files_in [] ≡ []) }
    ensures wrong { (faults_in (words_in (codes "a.idl --no-such")) ≡ UnknownArgument ∷ [])
        × (faults_in (words_in (codes "-V")) ≡ UnknownArgument ∷ [])
        × (faults_in (words_in (codes "-D a.idl -I")) ≡ InvalidValue ∷ [])
        × (faults_in (words_in (codes "--listing=1 a.idl")) ≡ TooManyValues ∷ []) }
{}

/// What is told of a root is what a session answers of it that has these files, macros and directories, and the root among its
/// roots: one definition of what a root compiles to is behind both. This does nothing: it carries the laws.
pub fn rows_of_a_session()
    ensures errors { (project : Project) (root : List ℕ) → is_root project root ≡ true
        → diagnostics_of project root ≡ Some (errors_in project.inputs root) }
    ensures dump { (project : Project) (root : List ℕ) → is_root project root ≡ true
        → dump_of project root ≡ Some (dump_in project.inputs root) }
    ensures listing { (project : Project) (root : List ℕ) → is_root project root ≡ true
        → listing_of project root ≡ Some (listing_in project.inputs root) }
    ensures faulty { (project : Project) (root : List ℕ) → is_root project root ≡ true
        → is_faulty_of project root ≡ Some (has_errors project.inputs root) }
{}
