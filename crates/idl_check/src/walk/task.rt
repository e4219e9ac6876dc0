//! The task: the verdict of a unit.

ghost use Rattle.std.specs.Prelude.{◌≡◌, ◌≤◌, ℕ, IfOk};
ghost use Rattle.idl_check.specs.walk.Hint.{innermost_hint};
ghost use Rattle.idl_check.specs.walk.Verdict.{verdict};
ghost use Rattle.idl_memo.specs.Query.{run};
ghost use Rattle.idl_env.specs.Facts.{answers};
ghost use Rattle.idl_env.specs.keys.Key.{key_eq};
ghost use Rattle.idl_env.specs.Turns.{most_turns, turns_for};

use crate::ids::pragmas::Speaker;
use crate::walk::judge::Judge;
use crate::walk::scratch::Scratch;
use crate::walk::verdict::Verdict;
use idl_env::{DigestedKey, Env, OpenScopes, scopes_in};
use idl_memo::{Bank, Journal, Log, Runnable, Task, TaskKind};
use idl_unit::UnitText;
use std::alloc::{AllocError, Global};

/// The check of a declaration, or of a pragma: of the unit with this text.
#[derive(Drop)]
pub struct DeclarationTask {
    pub text: UnitText,
}

impl Task<Env> for DeclarationTask {
    ghost use Rattle.idl_check.specs.walk.Hint.{verdict_hint};
    ghost use Rattle.idl_check.specs.walk.Verdict.{verdict};
    ghost use Rattle.idl_env.specs.Turns.{most_turns};

    type Text = UnitText;

    type Out = Verdict;

    ghost text_of = { λ task. task.text };

    ghost query = { verdict most_turns };

    ghost hint_of = { λ text. verdict_hint };

    fn text(&self) -> &UnitText {
        &self.text
    }

    // The innermost open scope and its body: each unit asks first which scopes are open.
    #[tactic(auto, using(crate::proofs::HintLemmas::cursor_first))]
    fn hint(&self, bank: &Env) -> u64 {
        let none = OpenScopes::none();
        let scopes = scopes_in(bank.answer(&DigestedKey::cursor()), &none);
        innermost_hint(scopes)
    }
}

impl Runnable<Env> for DeclarationTask {
    ghost use Rattle.idl_memo.specs.declared.task.TaskKind.TheVariants.{Check};

    type Scratch = Scratch;

    const KIND: TaskKind = TaskKind::Check;

    ghost KIND = { Check };

    fn run(
        &self,
        alloc: Global,
        bank: &Env,
        scratch: &mut Scratch,
        log: &mut Log<Env>,
    ) -> Result<Verdict, AllocError> {
        let mut journal = Journal::taking(alloc, log);
        let verdict = verdict_of(scratch, bank, &mut journal, &self.text);
        journal.give_back(log)?;
        let verdict = verdict?;
        Ok(verdict.fitted(&mut scratch.room)?)
    }
}

// A number for the innermost of these scopes and its body.
fn innermost_hint(scopes: &OpenScopes) -> u64
    ensures { result ≡ innermost_hint scopes.now }
{
    match scopes.split_first() {
        Some((scope, _outer)) => scope.path.lent().digest() ^ scope.body as u64,
        None => 0,
    }
}

/// The verdict of a unit. What it asks goes into the journal, behind what is there.
///
/// The verdicts of many units may be made in one scratch: what stands there from one before is given up. After want of memory
/// nothing is said of the journal.
pub fn verdict_of(
    scratch: &mut Scratch,
    env: &Env,
    log: &mut Journal<Env>,
    text: &UnitText,
) -> Result<Verdict, AllocError>
    ensures { IfOk result (λ v.
        (v, log.new) ≡ run key_eq (verdict most_turns text.now) (answers env.now) log.old) }
{
    env.bounds_turns();
    judged(scratch, env, log, text)
}

// The same, with as many turns as the facts need, or more.
#[tactic(auto, unfolding(crate::specs::walk::Verdict::verdict))]
fn judged(
    scratch: &mut Scratch,
    env: &Env,
    log: &mut Journal<Env>,
    text: &UnitText,
) -> Result<Verdict, AllocError>
    ensures { IfOk result (λ v. (turns : ℕ) → turns_for env.now ≤ turns →
        (v, log.new) ≡ run key_eq (verdict turns text.now) (answers env.now) log.old) }
{
    let none = OpenScopes::none();
    let scopes = scopes_in(log.ask(&DigestedKey::cursor(), env)?, &none);
    match text {
        UnitText::Tokens(run) => {
            let judge = Judge {
                env,
                tokens: run.as_slice(),
                scopes,
            };
            judge.verdict(scratch, log)
        }
        UnitText::Pragma(tokens, inside) => {
            let speaker = Speaker {
                env,
                tokens,
                inside: *inside,
                scopes,
            };
            speaker.verdict(log)
        }
    }
}
