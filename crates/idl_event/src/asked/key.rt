//! What a root asks, and what it is answered.

ghost use Rattle.std.specs.Prelude.{◌≡◌, Some, refl};
ghost use Rattle.std.specs.Cmp.{on_equiv, on_per, on_po, on_total, partial_equiv_from_equiv};
ghost use Rattle.std.specs.Cmp.Lexicographic.{nat_list_cmp_total, nat_list_eq_equiv, texts_po, texts_ties};
ghost use Rattle.idl_event.specs.Key.{key_cmp, key_code, key_eq};

use crate::asked::lexed_file::LexedFile;
use crate::asked::lexed_line::LexedLine;
use idl_base::{Bytes, Datum, Seq, mixed, with_bytes};
use idl_fault::FileName;
use idl_lex::idl_source::Directory;
use idl_memo::idl_map::Digest;
use std::cmp::Ordering;

/// What is asked of the bank of a root.
#[derive(Clone, Drop)]
pub enum RootKey {
    /// The body of the session's macro with this word.
    Macro(Bytes),
    /// The file with this name.
    File(FileName),
    /// The directories in which included files are searched.
    Search,
}

/// What is answered.
#[derive(Clone, PartialEq, Eq, Drop)]
pub enum RootAnswer {
    /// A macro's body: a file of that one line.
    Macro(LexedLine),
    /// A file.
    File(LexedFile),
    /// The directories, in the order in which they are searched.
    Search(Seq<Directory>),
}

impl PartialEq for RootKey {
    ghost eq = { key_eq };

    ghost laws = { on_per key_code (partial_equiv_from_equiv nat_list_eq_equiv) };

    fn eq(&self, other: &RootKey) -> bool
        ensures { result ≡ key_eq self.now other.now }
    {
        match (self, other) {
            (RootKey::Macro(word), RootKey::Macro(other)) => word == other,
            (RootKey::File(name), RootKey::File(other)) => name == other,
            (RootKey::Search, RootKey::Search) => true,
            _ => false,
        }
    }
}

impl Eq for RootKey {
    ghost laws = { on_equiv key_code nat_list_eq_equiv };
}

impl PartialOrd for RootKey {
    ghost partial_cmp = { λ key other. Some (key_cmp key other) };

    ghost laws = { on_po key_code texts_po };

    fn partial_cmp(&self, other: &RootKey) -> Option<Ordering> {
        Some(self.cmp(other))
    }
}

impl Ord for RootKey {
    ghost cmp = { key_cmp };

    ghost total = { on_total key_code nat_list_cmp_total };

    ghost matches_partial_cmp = { λ key other. refl };

    ghost matches_eq = { λ key other. texts_ties (key_code key) (key_code other) };

    fn cmp(&self, other: &RootKey) -> Ordering
        ensures { result ≡ key_cmp self.now other.now }
    {
        match (self, other) {
            (RootKey::Macro(word), RootKey::Macro(other)) => word.cmp(other),
            (RootKey::File(name), RootKey::File(other)) => name.cmp(other),
            (RootKey::Search, RootKey::Search) => Ordering::Equal,
            (RootKey::Macro(_), _) | (_, RootKey::Search) => Ordering::Less,
            _ => Ordering::Greater,
        }
    }
}

impl Datum for RootKey {
    ghost use Rattle.std.proofs.Common.{ap};
    ghost use Rattle.idl_event.specs.Key.{same_key};
    ghost use Rattle.idl_event.specs.declared.asked.key.RootKey.TheVariants.{Macro, File, Search};

    ghost same = { same_key };

    ghost copy = { elim [
      | Macro a ↦ elim [ Macro b ↦ λ h. ap Macro h | File b ↦ λ h. absurd h | Search ↦ λ h. absurd h ]
      | File a ↦ elim [ Macro b ↦ λ h. absurd h | File b ↦ λ h. ap File h | Search ↦ λ h. absurd h ]
      | Search ↦ elim [ Macro b ↦ λ h. absurd h | File b ↦ λ h. absurd h | Search ↦ λ h. refl ]
    ] };
}

impl Digest for RootKey {
    ghost use Rattle.idl_event.specs.Key.{key_digest};

    ghost digest_of = { key_digest };

    #[tactic(auto, unfolding(crate::specs::Key::key_digest))]
    fn digest(&self) -> u64 {
        match self {
            RootKey::Macro(word) => with_bytes(0, word.as_bytes()),
            RootKey::File(name) => with_bytes(mixed(0, 256), name.as_bytes()),
            RootKey::Search => 0,
        }
    }
}

impl Datum for RootAnswer {
    ghost use Rattle.std.specs.Cmp.Lexicographic.{bytes_decides, pointwise_decides};
    ghost use Rattle.std.proofs.Common.{ap};
    ghost use Rattle.idl_event.specs.declared.asked.key.RootAnswer.TheVariants.{Macro, File, Search};

    ghost same = { elim [
      | Macro a ↦ elim [ Macro b ↦ λ h. ap Macro ((pointwise_decides bytes_decides a b).0 h) | File b ↦ λ h. cc | Search b ↦ λ h. cc ]
      | File a ↦ elim [ Macro b ↦ λ h. cc | File b ↦ λ h. ap File ((pointwise_decides bytes_decides a b).0 h) | Search b ↦ λ h. cc ]
      | Search a ↦ elim [ Macro b ↦ λ h. cc | File b ↦ λ h. cc | Search b ↦ λ h. ap Search ((pointwise_decides bytes_decides a b).0 h) ]
    ] };

    ghost copy = { elim [
      | Macro a ↦ elim [ Macro b ↦ λ h. ap Macro h | File b ↦ λ h. absurd h | Search b ↦ λ h. absurd h ]
      | File a ↦ elim [ Macro b ↦ λ h. absurd h | File b ↦ λ h. ap File h | Search b ↦ λ h. absurd h ]
      | Search a ↦ elim [ Macro b ↦ λ h. absurd h | File b ↦ λ h. absurd h | Search b ↦ λ h. ap Search h ]
    ] };
}
