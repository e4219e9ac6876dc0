//! What rows are written in.
//!
//! It owns text and journal meanwhile: with borrowed ones each clause would name both values of both.

ghost use Rattle.std.specs.Prelude.{◌≡◌, ◌∷◌, [], OnOk};
ghost use Rattle.idl_repo.specs.Pieces.{IdOf, Writes};

use crate::piece::id_of;
use idl_entity::Path;
use idl_env::Env;
use idl_memo::Journal;
use std::alloc::AllocError;
use std::mem::replace;

/// A text behind which rows are written, the facts over which they are, and what they ask of these: each id where it is told.
pub struct RowWriter<'a> {
    pub text: Vec<u8>,
    pub env: &'a Env,
    pub log: Journal<Env>,
}

impl<'a> Drop for RowWriter<'a> {
    fn drop(self) {
        let RowWriter {
            text: _text,
            env: _env,
            log: _log,
        } = self;
    }
}

impl<'a> RowWriter<'a> {
    /// Takes a text and a journal, which are empty until they are given back. It takes no memory.
    #[inline(always)]
    pub fn taking(text: &mut Vec<u8>, env: &'a Env, log: &mut Journal<Env>) -> RowWriter<'a>
        ensures text { result.text.items ≡ text.old.items }
        ensures facts { result.env.now ≡ env.now }
        ensures log { result.log ≡ log.old }
    {
        RowWriter {
            text: replace(text, Vec::new(env.alloc())),
            env,
            log: replace(log, Journal::told()),
        }
    }

    /// Gives them back.
    #[inline(always)]
    pub fn give_back(self, text: &mut Vec<u8>, log: &mut Journal<Env>)
        ensures text { text.new.items ≡ self.entry.text.items }
        ensures log { log.new ≡ self.entry.log }
    {
        let RowWriter {
            text: written,
            env: _env,
            log: asked,
        } = self;
        *text = written;
        *log = asked;
    }

    /// The id of what is declared at a path, which is asked for.
    pub fn push_id(&mut self, path: &Path) -> Result<(), AllocError>
        ensures { OnOk result (Writes (IdOf path.now ∷ []) self.old self.new) }
    {
        let id = id_of(self.env, &mut self.log, path)?;
        id.write(&mut self.text)
    }
}
