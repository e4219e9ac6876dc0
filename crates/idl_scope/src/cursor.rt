//! The open scopes around a token of a unit.

ghost use Rattle.std.specs.Prelude.{◌≡◌, ◌∷◌, OnOk, drop, slice_get};
ghost use Rattle.std.specs.Option.{option_copied, unwrap_or};

use idl_env::{OpenScopes, Scope};
use std::alloc::{AllocError, Global};
use std::marker::Model;

/// The open scopes around a token, the innermost first: those around the unit, which are lent, and from the first scope on that
/// the unit begins, others.
#[derive(Drop)]
pub struct Cursor<'a> {
    around: &'a OpenScopes,
    own: Option<OpenScopes>,
}

impl<'a> Model for Cursor<'a> {
    ghost use Rattle.std.specs.Option.{unwrap_or};
    ghost use Rattle.std.specs.Prelude.{List};
    ghost use Rattle.idl_env.specs.declared.answering.answer.Scope.{Scope};

    ghost Value = { List Scope };

    ghost view = { λ cursor. unwrap_or cursor.own cursor.around.now };
}

impl<'a> Cursor<'a> {
    /// Before the first token of a unit around which these are open.
    pub fn new(around: &'a OpenScopes) -> Cursor<'a>
        ensures { result ≡ around.now }
    {
        Cursor { around, own: None }
    }

    /// The scopes.
    pub fn scopes(&self) -> &OpenScopes
        ensures value { result.now ≡ self.now }
    {
        match &self.own {
            Some(scopes) => scopes,
            None => self.around,
        }
    }

    /// The innermost.
    pub fn innermost(&self) -> Option<&Scope>
        ensures value { option_copied result ≡ slice_get self.now 0 }
    {
        self.scopes().innermost()
    }

    /// A scope begins.
    pub fn begin(&mut self, alloc: Global, scope: Scope) -> Result<(), AllocError>
        ensures { OnOk result (self.new ≡ scope ∷ self.old) }
    {
        let scopes = self.scopes().with(alloc, scope)?;
        self.own = Some(scopes);
        Ok(())
    }

    /// The innermost ends.
    pub fn end(&mut self) -> Result<(), AllocError>
        ensures { OnOk result (self.new ≡ drop 1 self.old) }
    {
        if let Some((_ended, outer)) = self.scopes().split_first() {
            let outer = outer.clone()?;
            self.own = Some(outer);
        }
        Ok(())
    }
}
