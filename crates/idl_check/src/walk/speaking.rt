//! The walk over names of what something is said by a text, and over that text.

ghost use Rattle.std.specs.Prelude.{◌≡◌, ◌≤◌, ◌+◌, ◌∷◌, ◌++◌, [], ℕ, IfOk, OnOk, fold};
ghost use Rattle.idl_check.specs.ids.Remarks.{is_bad_text, remarked};
ghost use Rattle.idl_check.specs.told.Bodies.{with_text};
ghost use Rattle.idl_check.specs.walk.Held.{HasRoomFor, held, spoken_noted};
ghost use Rattle.idl_check.specs.walk.Walk.{faulty_if, noted_in, passed};
ghost use Rattle.idl_fault.specs.declared.code.Code.TheVariants.{BadIdText};
ghost use Rattle.idl_memo.specs.Query.{run};
ghost use Rattle.idl_env.specs.Facts.{answers, with_addition};
ghost use Rattle.idl_env.specs.keys.Key.{key_eq};
ghost use Rattle.idl_env.specs.Turns.{turns_for};
ghost use Rattle.idl_parts.specs.Item.{item_length};
ghost use Rattle.idl_parts.specs.Part.{Part as item};
ghost use Rattle.idl_tree.specs.NameParts.{last_at};
ghost use Rattle.idl_value.specs.Evaluation.{joined};

use crate::ids::remark::{PragmaText, Remark, add_any, is_bad_text};
use crate::walk::walker::Walker;
use idl_base::Seq;
use idl_entity::Path;
use idl_env::Env;
use idl_fault::Code;
use idl_memo::Journal;
use idl_parts::TextPurpose;
use idl_scope::{NameFault, Standpoint, resolve};
use idl_tree::{ScopedName, Several, last_at};
use idl_value::joined;
use std::alloc::{AllocError, Global};

impl<'a> Walker<'a> {
    /// This text stands behind the name that follows.
    pub fn keep_text(&mut self, text: &Several<Seq<u16>>) -> Result<(), AllocError>
        ensures visit { OnOk result
            (held self.new ≡ record (held self.old) { text = joined text.now }) }
        ensures at { OnOk result (self.new.at ≡ self.old.at) }
        ensures env { OnOk result (self.new.env.now ≡ self.old.env.now) }
    {
        self.text = joined(self.env.alloc(), text)?;
        Ok(())
    }

    /// A name of which something is said by the text behind it.
    pub fn speak_of(
        &mut self,
        log: &mut Journal<Env>,
        purpose: TextPurpose,
        name: &ScopedName,
    ) -> Result<(), AllocError>
        requires room { last_at self.old.at name.now + 1 ≤ 18446744073709551615 }
        ensures run { OnOk result ((turns : ℕ) → turns_for self.old.env.now ≤ turns →
            (held self.new, log.new)
            ≡ run key_eq (spoken_noted turns purpose name.now (held self.old))
            (answers self.old.env.now) log.old) }
        ensures at { OnOk result (self.new.at ≡ last_at self.old.at name.now + 1) }
        ensures env { OnOk result (self.new.env.now ≡ self.old.env.now) }
    {
        let place = Standpoint {
            own: &self.own,
            cursor: self.cursor.scopes(),
        };
        match resolve(self.env, log, place, name) {
            Ok(found) => {
                let entity = found.entity.get();
                let text = self.text_for(purpose);
                let remark = text.remark(self.view(), log, entity)?;
                self.take_remark(name, entity.path(), remark)
            }
            Err(NameFault::Memory) => Err(AllocError),
            Err(NameFault::At(code, part)) => {
                self.use_nothing(name, code, part);
                Ok(())
            }
        }
    }

    // The text behind the name.
    fn text_for(&self, purpose: TextPurpose) -> PragmaText<'_>
        ensures purpose { result.purpose ≡ purpose }
        ensures text { result.characters.now ≡ self.now.text }
    {
        PragmaText {
            purpose,
            characters: self.text.as_slice(),
        }
    }

    // What is said of what a name denotes, which stands at this path.
    fn take_remark(
        &mut self,
        name: &ScopedName,
        path: &Path,
        remark: Remark,
    ) -> Result<(), AllocError>
        requires room { last_at self.old.at name.now + 1 ≤ 18446744073709551615 }
        ensures visit { OnOk result
            (let s = remarked (last_at self.old.at name.now) remark in
            held self.new
            ≡ noted_in (record {
              faults = s.faults;
              after = record (held self.old) {
                at = last_at self.old.at name.now + 1;
                own = fold with_addition self.old.own.additions s.additions;
                found = self.old.found ++ path.now ∷ [];
              };
            }) self.old.fault) }
        ensures env { OnOk result (self.new.env.now ≡ self.old.env.now) }
    {
        let Remark { code, adds } = remark;
        let last = last_at(self.at, name);
        self.note(last, code);
        self.at = last + 1;
        add_any(&mut self.own, adds)?;
        self.found.push(path.clone()?)?;
        Ok(())
    }

    /// String literals, which are joined: a text of a context, or what is said by it of what a name denotes.
    pub fn join(&mut self, purpose: TextPurpose, text: &Several<Seq<u16>>) -> Result<(), AllocError>
        requires { HasRoomFor (held self.old) (item.Says purpose text.now ∷ []) }
        ensures visit { OnOk result
            (held self.new
            ≡ noted_in
            (faulty_if (is_bad_text purpose (joined text.now)) BadIdText (held self.old)
            (record (passed (item_length (item.Says purpose text.now)) (held self.old)) {
              clauses = with_text purpose text.now self.old.clauses;
            })) self.old.fault) }
        ensures at { OnOk result
            (self.new.at ≡ self.old.at + item_length (item.Says purpose text.now)) }
        ensures env { OnOk result (self.new.env.now ≡ self.old.env.now) }
    {
        let at = self.at;
        let is_bad = is_bad(self.env.alloc(), purpose, text)?;
        self.clauses.add_text(self.env.alloc(), purpose, text)?;
        self.pass(1 + text.rest.len())?;
        if is_bad {
            self.note(at, Some(Code::BadIdText));
            return Ok(());
        }
        Ok(())
    }
}

// Whether string literals may not be, joined, what they are for.
fn is_bad(alloc: Global, purpose: TextPurpose, text: &Several<Seq<u16>>) -> Result<bool, AllocError>
    ensures { IfOk result (λ b. b ≡ is_bad_text purpose (joined text.now)) }
{
    match purpose {
        TextPurpose::Context => Ok(false),
        TextPurpose::Id | TextPurpose::Prefix => {
            let joined = joined(alloc, text)?;
            Ok(is_bad_text(purpose, joined.as_slice()))
        }
    }
}
