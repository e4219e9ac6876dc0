//! The answers at their keys.

ghost use Rattle.std.specs.Prelude.{◌≡◌, ◌<◌, ◌∷◌, [], ℕ, IfOk, IsFalse, List, None, OnOk, Some};
ghost use Rattle.std.specs.Map.{lookup};
ghost use Rattle.std.specs.Option.{option_copied};
ghost use Rattle.idl_env.specs.Held.{IsAmongOthers};
ghost use Rattle.idl_env.specs.Stamps.{answer_in, stamped_in, stamps_of, with_one_more, with_stamped, writer_in};
ghost use Rattle.idl_env.specs.keys.Key.{key_eq};
ghost use Rattle.idl_env.specs.declared.keys.key.Key.TheVariants.{Cursor, Prefix, Typeprefix};

use crate::answering::answer::Answer;
use crate::keys::digested::DigestedKey;
use idl_map::{Lent, Map};
use std::alloc::{AllocError, Global};
use std::marker::Model;

// No digest of a key whose answer stands apart is larger.
const LAST_APART: u64 = 262;

/// The answers at their keys, and which of the facts so far wrote each of them. To every contract it is a list of entries, the first of which counts
/// at a key, and how many facts there are.
///
/// The open scopes and the prefix in force stand apart from the others, since each unit asks for the open scopes, and each
/// scope that is opened or closed changes both.
pub struct Answers {
    // Beside each answer stands which of the facts wrote it, counted from 1; those that were so at first none did.
    cursor: (Answer, usize),
    prefix: (Answer, usize),
    // Whether a scope may have a typeprefix. Few roots have any, and each id that is told asks for those of the scopes around.
    has_typeprefixes: bool,
    others: Map<DigestedKey, (Answer, usize)>,
    // How many facts there are so far, with those that write now.
    count: usize,
}

impl Model for Answers {
    ghost use Rattle.std.specs.Prelude.{◌≡◌, ◌∷◌, ℕ, IsFalse, List, None};
    ghost use Rattle.std.specs.Map.{lookup};
    ghost use Rattle.idl_env.specs.Stamps.{Kept};
    ghost use Rattle.idl_env.specs.keys.Key.{key_eq};
    ghost use Rattle.idl_env.specs.declared.keys.key.Key.TheVariants as keys;

    ghost Value = { Kept };

    ghost view = { λ answers. record {
      entries = (keys.Cursor, answers.cursor) ∷ (keys.Prefix, answers.prefix) ∷ answers.others;
      count = answers.count;
    } };

    ghost invariant = { λ answers. IsFalse answers.has_typeprefixes
        → (path : List (List ℕ)) → lookup (key_eq (keys.Typeprefix path)) answers.others ≡ None };
}

impl Drop for Answers {
    fn drop(self) {
        let Answers {
            cursor: _cursor,
            prefix: _prefix,
            has_typeprefixes: _has_typeprefixes,
            others: _others,
            count: _count,
        } = self;
    }
}

// The answer that is written.
#[inline(always)]
fn answer_in(written: Option<&(Answer, usize)>) -> Option<&Answer>
    ensures { option_copied result ≡ answer_in (option_copied written.entry) }
{
    match written {
        Some((answer, _writer)) => Some(answer),
        None => None,
    }
}

impl Answers {
    /// These scopes are open and this prefix is in force, and there are no other answers.
    pub fn new(alloc: Global, cursor: Answer, prefix: Answer) -> Result<Answers, AllocError>
        ensures at { IfOk result (λ answers. (stamped_in answers).at
            ≡ (λ k. lookup (key_eq k) ((Cursor, cursor) ∷ (Prefix, prefix) ∷ []))) }
        ensures stamps { IfOk result (λ answers. (stamped_in answers).stamps ≡ stamps_of []) }
    {
        let others = Map::new(alloc)?;
        Ok(Answers {
            cursor: (cursor, 0),
            prefix: (prefix, 0),
            has_typeprefixes: false,
            others,
            count: 0,
        })
    }

    /// The open scopes.
    #[inline]
    pub fn cursor(&self) -> &Answer
        ensures { Some result.now ≡ (stamped_in self.now).at Cursor }
    {
        &self.cursor.0
    }

    /// The prefix in force.
    #[inline]
    pub fn prefix(&self) -> &Answer
        ensures { Some result.now ≡ (stamped_in self.now).at Prefix }
    {
        &self.prefix.0
    }

    /// Whether a scope may have a typeprefix.
    #[inline]
    pub fn has_typeprefixes(&self) -> bool
        ensures { IsFalse result
            → (path : List (List ℕ)) → (stamped_in self.now).at (Typeprefix path) ≡ None }
    {
        self.has_typeprefixes
    }

    /// The answer at a key, or nothing.
    #[inline(always)]
    pub fn get(&self, key: &DigestedKey) -> Option<&Answer>
        ensures { option_copied result ≡ (stamped_in self.now).at key.now }
    {
        answer_in(self.written(key))
    }

    /// Which of the facts wrote last at a key, counted from 1, and 0 where none did.
    pub fn writer(&self, key: &DigestedKey) -> usize
        ensures { result ≡ (stamped_in self.now).stamps.last key.now }
    {
        match self.written(key) {
            Some((_answer, writer)) => *writer,
            None => 0,
        }
    }

    // What is written at a key.
    #[inline(always)]
    fn written(&self, key: &DigestedKey) -> Option<&(Answer, usize)>
        ensures answer { answer_in (option_copied result) ≡ (stamped_in self.now).at key.now }
        ensures writer { writer_in (option_copied result)
            ≡ (stamped_in self.now).stamps.last key.now }
    {
        if key.held().is_cursor() {
            return Some(&self.cursor);
        }
        if key.held().is_prefix() {
            return Some(&self.prefix);
        }
        self.others.get(key)
    }

    /// The answer at a key that is lent, or nothing. It takes memory only where many keys choose one bucket, or where one has
    /// a digest like those of the keys whose answers stand apart, to make the key.
    #[inline(always)]
    pub fn get_lent<L: Lent<DigestedKey>>(&self, key: &L) -> Result<Option<&Answer>, AllocError>
        ensures { IfOk result (λ answer.
            option_copied answer ≡ (stamped_in self.now).at (L.key key.now)) }
    {
        if key.key_digest() <= LAST_APART {
            return self.get_made(key);
        }
        Ok(answer_in(self.others.get_lent(key)?))
    }

    /// The same, whatever memory there is.
    #[inline(always)]
    pub fn get_at<L: Lent<DigestedKey>>(&self, key: &L) -> Option<&Answer>
        ensures { option_copied result ≡ (stamped_in self.now).at (L.key key.now) }
    {
        let digest = key.key_digest();
        if digest <= LAST_APART {
            return self.get_apart(key);
        }
        answer_in(self.others.get_at(key))
    }

    // The same of a key that may be one of those whose answers stand apart.
    #[inline(never)]
    fn get_apart<L: Lent<DigestedKey>>(&self, key: &L) -> Option<&Answer>
        ensures { option_copied result ≡ (stamped_in self.now).at (L.key key.now) }
    {
        if key.is(&DigestedKey::cursor()) {
            return Some(self.cursor());
        }
        if key.is(&DigestedKey::prefix()) {
            return Some(self.prefix());
        }
        answer_in(self.others.get_at(key))
    }

    // The same with the key made. It stands apart, since few keys have such digests.
    #[inline(never)]
    fn get_made<L: Lent<DigestedKey>>(&self, key: &L) -> Result<Option<&Answer>, AllocError>
        ensures { IfOk result (λ answer.
            option_copied answer ≡ (stamped_in self.now).at (L.key key.now)) }
    {
        let key = key.owned()?;
        Ok(self.get(&key))
    }

    /// How many facts there are.
    #[inline]
    pub fn count(&self) -> usize
        ensures { result ≡ (stamped_in self.now).stamps.count }
    {
        self.count
    }

    /// There are facts more, which write from now on.
    #[inline]
    pub fn count_one(&mut self)
        requires { (stamped_in self.old).stamps.count < 18446744073709551615 }
        ensures { stamped_in self.new
            ≡ record (stamped_in self.old) { stamps = with_one_more (stamped_in self.old).stamps } }
    {
        self.count += 1;
    }

    /// Other scopes are open.
    pub fn put_cursor(&mut self, cursor: Answer)
        ensures { stamped_in self.new ≡ with_stamped Cursor cursor (stamped_in self.old) }
    {
        self.cursor = (cursor, self.count);
    }

    /// Another prefix is in force.
    pub fn put_prefix(&mut self, prefix: Answer)
        ensures { stamped_in self.new ≡ with_stamped Prefix prefix (stamped_in self.old) }
    {
        self.prefix = (prefix, self.count);
    }

    /// Puts an answer in at another key than these two.
    #[inline]
    pub fn insert(&mut self, key: DigestedKey, answer: Answer) -> Result<(), AllocError>
        requires { IsAmongOthers key }
        ensures { OnOk result
            (stamped_in self.new ≡ with_stamped key answer (stamped_in self.old)) }
    {
        self.has_typeprefixes |= key.held().is_typeprefix();
        let writer = self.count;
        self.others.insert(key, (answer, writer))
    }
}
