//! Pragmas: what they say of prefixes and ids.

ghost use Rattle.std.specs.Prelude.{◌≡◌, ◌≤◌, ◌+◌, ◌∷◌, [], ℕ, IfErr, IfOk, None, Some, option_to_list};
ghost use Rattle.idl_check.specs.ids.About.{with_faults};
ghost use Rattle.idl_check.specs.ids.Pragmas.{prefix_faults};
ghost use Rattle.idl_check.specs.ids.Remarks.{remarked};
ghost use Rattle.idl_check.specs.tables.Codes.{faults_by};
ghost use Rattle.idl_check.specs.walk.Held.{fixed_by, identified_by, pragma_by, said_of, spoken};
ghost use Rattle.idl_check.specs.walk.Verdict.{faulty, pragma_judged, pragma_verdict};
ghost use Rattle.idl_env.specs.Facts.{answers};
ghost use Rattle.idl_env.specs.Turns.{turns_for};
ghost use Rattle.idl_env.specs.declared.additions.addition.Step.TheVariants.{Prefixes, Stays};
ghost use Rattle.idl_env.specs.keys.Key.{key_eq};
ghost use Rattle.idl_fault.specs.declared.code.Code.TheVariants.{BadIdText};
ghost use Rattle.idl_memo.specs.Query.{run};
ghost use Rattle.idl_tree.specs.NameParts.{last_at};
ghost use Rattle.idl_tree.specs.Pragma.{pragma_of};
ghost use Rattle.idl_unit.specs.TokenRules.{fault_at};

use crate::ids::identifying::visible;
use crate::ids::remark::{IdStatement, Remark, add_any};
use crate::tables::using::name_code;
use crate::walk::verdict::{Verdict, adding};
use idl_env::{Addition, Env, Facts, OpenScopes, Step, Writes};
use idl_fault::Code;
use idl_memo::Journal;
use idl_parse::parse_pragma;
use idl_scope::{NameFault, Standpoint, View, resolve};
use idl_tree::{Pragma, ScopedName, last_at, part_at};
use idl_unit::Fault;
use idl_unit::idl_text::TokenRange;
use std::alloc::{AllocError, Global};

/// A pragma inside a unit of tokens or outside, in the scopes that are open around it.
#[derive(Clone, Copy)]
pub struct Speaker<'a> {
    pub env: &'a Env,
    pub tokens: &'a TokenRange,
    pub inside: bool,
    pub scopes: &'a OpenScopes,
}

// The number of the token at which what a pragma speaks of begins.
const OPERANDS: usize = 2;

impl<'a> Speaker<'a> {
    /// The verdict of the pragma.
    pub fn verdict(self, log: &mut Journal<Env>) -> Result<Verdict, AllocError>
        ensures { IfOk result (λ v. (turns : ℕ) → turns_for self.entry.env.now ≤ turns →
            (v, log.new)
            ≡ run key_eq
            (pragma_judged turns self.entry.tokens.now self.entry.inside self.entry.scopes.now)
            (answers self.entry.env.now) log.old) }
    {
        let alloc = self.env.alloc();
        match parse_pragma(alloc, self.tokens.as_slice(), self.inside)? {
            Ok(pragma) => self.said(log, &pragma),
            Err(fault) => adding(alloc, Some(fault), Step::Stays),
        }
    }

    // The verdict of a pragma without fault so far.
    fn said(self, log: &mut Journal<Env>, pragma: &Pragma) -> Result<Verdict, AllocError>
        requires { pragma_of self.tokens.now ≡ Some pragma.now }
        ensures { IfOk result (λ v. (turns : ℕ) → turns_for self.entry.env.now ≤ turns →
            (v, log.new)
            ≡ run key_eq (spoken turns self.entry.scopes.now pragma.now)
            (answers self.entry.env.now) log.old) }
    {
        let _tokens = self.tokens.as_slice();
        match pragma {
            Pragma::Prefix(text) => prefix(self.env.alloc(), text.as_slice()),
            Pragma::Id(name, text) => self.about(log, name, IdStatement::Text(text.as_slice())),
            Pragma::Version(name, major, minor) => {
                self.about(log, name, IdStatement::Version(*major, *minor))
            }
        }
    }

    // The verdict where this is said of the id of what a name denotes.
    fn about(
        self,
        log: &mut Journal<Env>,
        name: &ScopedName,
        statement: IdStatement<'_>,
    ) -> Result<Verdict, AllocError>
        requires { last_at 2 name.now + 1 ≤ 18446744073709551615 }
        ensures { IfOk result (λ v. (turns : ℕ) → turns_for self.entry.env.now ≤ turns →
            (v, log.new)
            ≡ run key_eq
            (spoken turns self.entry.scopes.now (pragma_by name.now (fixed_by statement.entry)))
            (answers self.entry.env.now) log.old) }
    {
        let alloc = self.env.alloc();
        let remark = self.remark(log, name, statement)?;
        match remark {
            Ok(remark) => judged(alloc, remark, last_at(OPERANDS, name), statement.is_bad()),
            Err(fault) => adding(alloc, Some(fault), Step::Stays),
        }
    }

    // What is so said of what the name denotes, or the fault at the name. Nothing is introduced by that.
    fn remark(
        self,
        log: &mut Journal<Env>,
        name: &ScopedName,
        statement: IdStatement<'_>,
    ) -> Result<Result<Remark, Fault>, AllocError>
        requires { last_at 2 name.now ≤ 18446744073709551615 }
        ensures said { IfOk result (λ r. (turns : ℕ) → turns_for self.entry.env.now ≤ turns →
            (said_of (last_at 2 name.now) r, log.new)
            ≡ run key_eq
            (identified_by turns self.entry.scopes.now name.now (fixed_by statement.entry))
            (answers self.entry.env.now) log.old) }
        ensures place { IfOk result (λ r. IfErr r (λ fault. fault.index ≤ last_at 2 name.now)) }
    {
        let own = Facts::new(self.env.alloc());
        let place = Standpoint {
            own: &own,
            cursor: self.scopes,
        };
        match resolve(self.env, log, place, name) {
            Ok(found) => {
                let view = View {
                    env: self.env,
                    own: &own,
                };
                let remark = statement.remark(view, log, found.entity.get())?;
                Ok(Ok(remark))
            }
            Err(NameFault::Memory) => Err(AllocError),
            Err(NameFault::At(code, part)) => Ok(Err(Fault {
                index: part_at(OPERANDS, name, part),
                code: name_code(code),
            })),
        }
    }
}

// The verdict of a pragma by what is said of what a name denotes that ends at this token, and by whether the text behind it may be
// no id.
fn judged(alloc: Global, remark: Remark, at: usize, is_bad: bool) -> Result<Verdict, AllocError>
    requires { at + 1 ≤ 18446744073709551615 }
    ensures { IfOk result (λ v.
        v
        ≡ pragma_verdict (with_faults (faults_by (at + 1) ((is_bad, BadIdText) ∷ []))
        (remarked at remark))) }
{
    let Remark { code, adds } = remark;
    if let Some(code) = code {
        return refused(alloc, at, code);
    }
    if is_bad {
        return refused(alloc, at + 1, Code::BadIdText);
    }
    told(alloc, adds)
}

// The verdict of a prefix.
fn prefix(alloc: Global, text: &[u16]) -> Result<Verdict, AllocError>
    ensures { IfOk result (λ v.
        v
        ≡ pragma_verdict (record {
          faults = prefix_faults text.now;
          additions = [];
          step = Prefixes text.now;
        })) }
{
    match visible(alloc, text)? {
        Some(spelled) => adding(alloc, None, Step::Prefixes(spelled)),
        None => refused(alloc, OPERANDS, Code::BadIdText),
    }
}

// The verdict of a pragma with a fault at the token with this number.
fn refused(alloc: Global, index: usize, code: Code) -> Result<Verdict, AllocError>
    ensures { IfOk result (λ v. v ≡ faulty (fault_at index code) Stays) }
{
    adding(alloc, Some(Fault { index, code }), Step::Stays)
}

// The verdict of a pragma by which this is added, if anything is.
fn told(alloc: Global, adds: Option<Addition>) -> Result<Verdict, AllocError>
    ensures { IfOk result (λ v.
        v
        ≡ record {
          fault = None;
          writes = record { additions = option_to_list adds; step = Stays };
          row = None;
        }) }
{
    let mut facts = Facts::new(alloc);
    add_any(&mut facts, adds)?;
    let writes = Writes::new(alloc, facts)?;
    Ok(Verdict {
        fault: None,
        writes,
        row: None,
    })
}
