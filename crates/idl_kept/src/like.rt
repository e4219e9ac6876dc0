//! What a block is looked for by, whatever units are around boundaries in it.

ghost use Rattle.std.specs.Prelude.{◌≡◌};
ghost use Rattle.idl_env.specs.Facts.{answers};
ghost use Rattle.idl_kept.specs.Texts.{is_like};

use idl_env::PlainEnv;
use idl_root_blocks::{BlockTask, BlockText};
use idl_store::{Held, Test};

/// The text of a block, and where it stands.
#[derive(Clone, Copy)]
pub(crate) struct Like<'a> {
    pub(crate) text: &'a BlockText,
    pub(crate) env: &'a PlainEnv,
}

impl<'a> Test<Held<PlainEnv, BlockTask>> for Like<'a> {
    ghost passes = { λ like kept. is_like (like.text.now, answers like.env.now) kept };

    fn passes(&self, one: &Held<PlainEnv, BlockTask>) -> bool {
        let kept = one.shared();
        kept.text().is_like(self.text) && kept.log().first_other(self.env).is_none()
    }
}
