//! What is known of the ids of declared names: the typeprefix of the scopes around them, and what identifies them.
//!
//! The id of what is declared again, of pragmas and of the listing is looked up here alone. Where no scope has a
//! typeprefix none is looked for, unless somebody reads what is asked (`note_asked`): contracts are told all at once.
//! That is picked by a function that is generic in the bank, since `rattle` can't state the pick over one that is
//! named.

ghost use Rattle.std.specs.Prelude.{◌≡◌, ℕ, IfOk, IsFalse, IsTrue, List, None, OnOk, Option, Some, length};
ghost use Rattle.std.specs.Option.{option_copied};
ghost use Rattle.idl_memo.specs.Query.{asked, noted, noted_all, run};
ghost use Rattle.idl_env.specs.Facts.{answer_of, answers, identity_in, over, typeprefix_in};
ghost use Rattle.idl_env.specs.keys.Key.{key_eq};
ghost use Rattle.idl_env.specs.declared.keys.key.Key.TheVariants.{Typeprefix};
ghost use Rattle.idl_scope.specs.Known.{added_by, known, typeprefix_around};
ghost use Rattle.idl_scope.specs.Lookup.{under};

use crate::lookup::View;
use idl_base::{Bytes, Shared};
use idl_entity::paths::Names;
use idl_entity::{Identity, Path};
use idl_env::{Addition, Answer, Env, Facts, LentKey, Walked, identity_in, typeprefix_in};
use idl_memo::{Bank, Journal};
use std::alloc::AllocError;

impl<'a> View<'a> {
    /// The typeprefix of the scope at a path.
    pub fn typeprefix(
        self,
        log: &mut Journal<Env>,
        path: &Path,
    ) -> Result<Option<&'a Shared<Bytes>>, AllocError>
        ensures typeprefix { IfOk result (λ text.
            option_copied text
            ≡ typeprefix_in
            (over self.entry.own.now.additions (Typeprefix path.now)
            (answers self.entry.env.now (Typeprefix path.now)))) }
        ensures logged { OnOk result
            (log.new ≡ noted key_eq (answers self.entry.env.now) log.old (Typeprefix path.now)) }
    {
        typeprefix_at(self.env, Some(self.own), log, path.lent())
    }

    /// What identifies what is declared at a path.
    pub fn known(self, log: &mut Journal<Env>, path: &Path) -> Result<Option<Identity>, AllocError>
        ensures { IfOk result (λ d.
            (d, log.new)
            ≡ run key_eq (under self.entry.own.now.additions (known path.now))
            (answers self.entry.env.now) log.old) }
    {
        let key = LentKey::id_of(self.env.alloc(), path);
        let before = log.ask_lent(&key, self.env)?;
        let typeprefix = typeprefix_over(self.env, Some(self.own), log, path)?;
        self.identified(&key, typeprefix, before)
    }

    // What identifies a name under a typeprefix, where before the unit this was answered of its id.
    fn identified(
        self,
        key: &LentKey<'_>,
        typeprefix: Option<&Shared<Bytes>>,
        before: Option<&Answer>,
    ) -> Result<Option<Identity>, AllocError>
        ensures { IfOk result (λ d.
            d
            ≡ identity_in (option_copied typeprefix.entry)
            (over self.entry.own.now.additions key.now (option_copied before.entry))) }
    {
        match self.own.get(key)? {
            Some(addition) => {
                let answer = addition.answer(self.env.alloc())?;
                identity_in(typeprefix, Some(&answer))
            }
            None => identity_in(typeprefix, before),
        }
    }
}

/// The typeprefix of the innermost scope that has one, of what is declared at a path and the scopes around it. Where no scope
/// has one, none is looked for unless somebody reads what is asked.
#[inline(always)]
pub fn typeprefix_around<'e>(
    env: &'e Env,
    log: &mut Journal<Env>,
    path: &Path,
) -> Result<Option<&'e Shared<Bytes>>, AllocError>
    ensures { IfOk result (λ text.
        (option_copied text, log.new)
        ≡ run key_eq (typeprefix_around path.now) (answers env.now) log.old) }
{
    if env.has_typeprefixes() {
        return typeprefix_over(env, None, log, path);
    }
    if note_asked(path, env, log) {
        return Ok(None);
    }
    note_outward(env, log, path)?;
    Ok(None)
}

// Asks for typeprefixes from a path outward, where no scope has one. A log that is kept has them as one run, unless some were
// asked before.
fn note_outward(env: &Env, log: &mut Journal<Env>, path: &Path) -> Result<(), AllocError>
    requires { (scope : List (List ℕ)) → answers env.now (Typeprefix scope) ≡ None }
    ensures { OnOk result (log.new ≡ noted_all key_eq (answers env.now) log.old
        (asked (typeprefix_around path.now) (answers env.now))) }
{
    let before = log.logged();
    ask_outward(env, log, path)?;
    let (Some(before), Some(now)) = (before, log.logged()) else {
        return Ok(());
    };
    if !has_names(path, now.saturating_sub(before)) {
        return Ok(());
    }
    let Some(scope) = path.clone()?.into_named() else {
        return Ok(());
    };
    log.tell(env.alloc(), before, Walked::Outward(scope), Answer::Used)
}

// Asks for typeprefixes from a path outward, where no scope has one.
fn ask_outward(env: &Env, log: &mut Journal<Env>, path: &Path) -> Result<(), AllocError>
    requires { (scope : List (List ℕ)) → answers env.now (Typeprefix scope) ≡ None }
    ensures { OnOk result (log.new ≡ noted_all key_eq (answers env.now) log.old
        (asked (typeprefix_around path.now) (answers env.now))) }
{
    let mut names = path.lent();
    'scopes: while let Some((_name, around)) = names.again().split_first() {
        log.ask_lent(&LentKey::typeprefix(env.alloc(), names), env)?;
        names = around;
    }
    Ok(())
}

// Whether a path has so many names.
fn has_names(path: &Path, count: usize) -> bool
    ensures { IsTrue result → length path.now ≡ count }
{
    let mut names = path.lent();
    for _name in 0..count {
        let Some((_first, around)) = names.split_first() else {
            return false;
        };
        names = around;
    }
    names.is_empty()
}

// A question, of which contracts know what it asks of a bank.
trait Question<B: Bank> {
    ghost asked: { Self → (B.Key → Option B.Answer) → List B.Key };
}

impl Question<Env> for Path {
    ghost use Rattle.idl_memo.specs.Query.{asked};
    ghost use Rattle.idl_scope.specs.Known.{typeprefix_around};

    ghost asked = { λ path bank. asked (typeprefix_around path) bank };
}

// Whether contracts alone are told what is asked, and no digest is noted: then they are told all that a question asks, which
// nobody looks for.
#[inline(always)]
fn note_asked<B: Bank, Q: Question<B>>(question: &Q, bank: &B, log: &mut Journal<B>) -> bool
    ensures all { IsTrue result
        → log.new
        ≡ noted_all B.Key.eq (B.at bank.now) log.old (Q.asked question.now (B.at bank.now)) }
    ensures none { IsFalse result → log.new ≡ log.old }
{
    log.note_all(question, bank)
}

// The same over an environment and what the earlier tokens of a unit add, where any are looked at.
#[inline(never)]
fn typeprefix_over<'a>(
    env: &'a Env,
    own: Option<&'a Facts>,
    log: &mut Journal<Env>,
    path: &Path,
) -> Result<Option<&'a Shared<Bytes>>, AllocError>
    ensures { IfOk result (λ text.
        (option_copied text, log.new)
        ≡ run key_eq (under (added_by (option_copied own.entry)) (typeprefix_around path.now))
        (answers env.now) log.old) }
{
    let mut names = path.lent();
    'scopes: while let Some((_name, around)) = names.again().split_first() {
        let found = typeprefix_at(env, own, log, names)?;
        if let Some(text) = found {
            return Ok(Some(text));
        }
        names = around;
    }
    Ok(None)
}

// That of the scope with a path of these names.
#[inline(always)]
fn typeprefix_at<'a>(
    env: &'a Env,
    own: Option<&'a Facts>,
    log: &mut Journal<Env>,
    scope: Names<'_>,
) -> Result<Option<&'a Shared<Bytes>>, AllocError>
    ensures typeprefix { IfOk result (λ text.
        option_copied text
        ≡ typeprefix_in
        (over (added_by (option_copied own.entry)) (Typeprefix scope.entry)
        (answers env.now (Typeprefix scope.entry)))) }
    ensures logged { OnOk result
        (log.new ≡ noted key_eq (answers env.now) log.old (Typeprefix scope.entry)) }
{
    let key = LentKey::typeprefix(env.alloc(), scope);
    let before = log.ask_lent(&key, env)?;
    let Some(own) = own else {
        return Ok(typeprefix_in(before));
    };
    match own.get(&key)? {
        Some(addition) => Ok(typeprefix_by(addition)),
        None => Ok(typeprefix_in(before)),
    }
}

// The typeprefix that an addition gives a scope, if it does.
fn typeprefix_by(addition: &Addition) -> Option<&Shared<Bytes>>
    ensures { option_copied result ≡ typeprefix_in (Some (answer_of addition.now)) }
{
    match addition {
        Addition::TypePrefixes(_, text) => Some(text),
        _ => None,
    }
}
