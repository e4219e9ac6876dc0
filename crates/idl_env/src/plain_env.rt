//! Environments of which each asked key stands in a log by itself.

ghost use Rattle.std.specs.Prelude.{◌≡◌};
ghost use Rattle.idl_env.specs.Facts.{answers};

use crate::answering::answer::Answer;
use crate::env::Env;
use crate::keys::digested::DigestedKey;
use crate::no_step::NoStep;
use idl_map::Lent;
use idl_memo::{Bank, LentBank, PlainBank};
use std::marker::Model;

/// An environment of which each asked key stands in a log by itself. To every contract it is the list of its facts.
#[derive(Drop)]
pub struct PlainEnv {
    env: Env,
}

impl Model for PlainEnv {
    ghost use Rattle.std.specs.Prelude.{List};
    ghost use Rattle.idl_env.specs.Facts.{UnitFacts};

    ghost Value = { List UnitFacts };

    ghost view = { λ plain. plain.env };
}

impl PlainEnv {
    /// That of these facts.
    pub fn of(env: Env) -> PlainEnv
        ensures { result ≡ env }
    {
        PlainEnv { env }
    }

    /// The environment.
    pub fn get(&self) -> &Env
        ensures { result.now ≡ self.now }
    {
        &self.env
    }

    /// The environment, given up.
    pub fn into_env(self) -> Env
        ensures { result ≡ self }
    {
        let PlainEnv { env } = self;
        env
    }
}

impl Bank for PlainEnv {
    ghost use Rattle.idl_env.specs.Facts.{answers};

    type Key = DigestedKey;

    type Answer = Answer;

    type Head = ();

    type Step = NoStep;

    ghost at = { answers };

    fn answer(&self, key: &DigestedKey) -> Option<&Answer> {
        self.env.answer(key)
    }
}

impl LentBank for PlainEnv {
    fn answer_at<L: Lent<DigestedKey>>(&self, key: &L) -> Option<&Answer> {
        self.env.answer_at(key)
    }
}

impl PlainBank for PlainEnv {
    ghost use Rattle.std.specs.Prelude.{refl};

    ghost plain = { λ head step. refl };
}
