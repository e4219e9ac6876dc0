//! The steps of a run.

ghost use Rattle.std.specs.Prelude.{◌≡◌, ◌++◌, ◌∷◌, [], IfErr, IfOk, IfSome, IsTrue, None, OnOk, reverse};

use idl_base::Datum;
use idl_map::{Links, SharedList};
use std::alloc::{AllocError, Global};
use std::marker::Model;
use std::rc::Rc;

/// Steps of a run. To every contract they are the list of them.
#[derive(Drop)]
pub(crate) struct Steps<S> {
    held: Held<S>,
}

// How steps are held.
#[derive(Drop)]
enum Held<S> {
    /// In a block.
    Block(Rc<Vec<S>>),
    /// In a list of which others have the end too, the first of them last.
    Listed(SharedList<S>),
}

impl<S> Model for Steps<S> {
    ghost use Rattle.std.specs.Prelude.{List};
    ghost use Rattle.idl_memo.specs.Steps.{steps_in};

    ghost Value = { List S };

    ghost view = { λ steps. steps_in steps.held };
}

/// Steps that are lent, from one of them on.
#[derive(Drop)]
pub(crate) struct Behind<'a, S> {
    rest: Rest<'a, S>,
}

// How they are lent.
#[derive(Drop)]
enum Rest<'a, S> {
    Block(&'a [S]),
    Links(Links<'a, S>),
}

impl<'a, S> Model for Behind<'a, S> {
    ghost use Rattle.std.specs.Prelude.{List};
    ghost use Rattle.idl_memo.specs.Steps.{steps_behind};

    ghost Value = { List S };

    ghost view = { λ behind. steps_behind behind.rest };
}

impl<S> Steps<S> {
    /// Those of a block.
    pub(crate) fn block(block: Rc<Vec<S>>) -> Steps<S>
        ensures { result ≡ block.value.items }
    {
        Steps {
            held: Held::Block(block),
        }
    }

    /// Those of a list, the first of them last.
    pub(crate) fn listed(list: SharedList<S>) -> Steps<S>
        ensures { result ≡ reverse list }
    {
        Steps {
            held: Held::Listed(list),
        }
    }

    /// Whether they are held in a block.
    pub(crate) fn is_block(&self) -> bool {
        match &self.held {
            Held::Block(_block) => true,
            Held::Listed(_list) => false,
        }
    }

    /// Whether there is none.
    pub(crate) fn is_empty(&self) -> bool
        ensures { IsTrue result → self.now ≡ [] }
    {
        self.lent().split_first().is_none()
    }

    /// The steps, lent.
    pub(crate) fn lent(&self) -> Behind<'_, S>
        ensures { result ≡ self.now }
    {
        match &self.held {
            Held::Block(block) => {
                let steps: &Vec<S> = block;
                Behind {
                    rest: Rest::Block(steps.as_slice()),
                }
            }
            Held::Listed(list) => Behind {
                rest: Rest::Links(list.links()),
            },
        }
    }
}

impl<S: Drop> Steps<S> {
    /// Their list, where they are held in one.
    pub(crate) fn into_list(self) -> Result<SharedList<S>, Steps<S>>
        ensures list { IfOk result (λ list. self ≡ reverse list) }
        ensures block { IfErr result (λ steps. steps ≡ self) }
    {
        let Steps { held } = self;
        match held {
            Held::Block(block) => Err(Steps::block(block)),
            Held::Listed(list) => Ok(list),
        }
    }
}

impl<S: Datum> Steps<S> {
    /// Puts copies of them behind others.
    pub(crate) fn append_to(&self, others: &mut Vec<S>) -> Result<(), AllocError>
        ensures { OnOk result (others.new.items ≡ others.old.items ++ self.now) }
    {
        let mut behind = self.lent();
        'steps: while let Some((step, more)) = behind.split_first() {
            others.push(step.clone()?)?;
            behind = more;
        }
        Ok(())
    }
}

impl<S: Drop> Clone for Steps<S> {
    ghost is_clone = { λ steps copy. copy ≡ steps };

    fn clone(&self) -> Result<Steps<S>, AllocError> {
        match &self.held {
            Held::Block(block) => Ok(Steps::block(block.clone()?)),
            Held::Listed(list) => Ok(Steps::listed(list.clone()?)),
        }
    }
}

impl<'a, S> Behind<'a, S> {
    /// The first, and those behind it; nothing where there is none.
    pub(crate) fn split_first(self) -> Option<(&'a S, Behind<'a, S>)>
        ensures some { IfSome result (λ p. self.entry ≡ p.0.now ∷ p.1) }
        ensures none { result ≡ None → self.entry ≡ [] }
    {
        let Behind { rest } = self;
        match rest {
            Rest::Block(block) => {
                let (first, others) = block.split_first()?;
                let rest = Rest::Block(others);
                Some((first, Behind { rest }))
            }
            Rest::Links(links) => {
                let (first, others) = links.split_first()?;
                let rest = Rest::Links(others);
                Some((first, Behind { rest }))
            }
        }
    }
}
