//! The walk over declared and used names.

ghost use Rattle.std.specs.Prelude.{◌≡◌, ◌≤◌, ◌+◌, ◌∷◌, ◌++◌, [], ℕ, IfOk, None, OnOk, Some, false, length, if◌then◌else◌};
ghost use Rattle.idl_check.specs.tables.Codes.{codes_in};
ghost use Rattle.idl_check.specs.tables.Declaring.{declared_table, stays};
ghost use Rattle.idl_check.specs.ids.Identifying.{with_identity};
ghost use Rattle.idl_tree.specs.NameParts.{last_at, part_at};
ghost use Rattle.idl_env.specs.declared.additions.addition.Addition.TheVariants.{Declares};
ghost use Rattle.idl_env.specs.declared.answering.answer.Scope.{Scope as ScopeAround};
ghost use Rattle.idl_check.specs.walk.Held.{HasRoomFor, cut_noted, head_noted, held, held_values, held_written, used_noted, visited};
ghost use Rattle.idl_check.specs.told.Types.{constants_of};
ghost use Rattle.idl_check.specs.tables.Using.{bases_after, constants_after, last_after, name_code, own_after, type_after, unions_after, values_after};
ghost use Rattle.idl_check.specs.walk.Walk.{declared_visit, is_begun, noted, noted_in, unions_without, used_visit};
ghost use Rattle.idl_memo.specs.Query.{run};
ghost use Rattle.idl_env.specs.Facts.{answers, with_addition};
ghost use Rattle.idl_env.specs.keys.Key.{key_eq};
ghost use Rattle.idl_entity.specs.DataType.{plain_type};
ghost use Rattle.idl_entity.specs.declared.data_type.Element.TheVariants.{Named};
ghost use Rattle.idl_entity.specs.declared.kind.Stage.TheVariants.{Open};
ghost use Rattle.idl_env.specs.Turns.{turns_for};
ghost use Rattle.idl_parts.specs.Item.{item_length};
ghost use Rattle.idl_parts.specs.Part.{Part as item};
ghost use Rattle.idl_unit.specs.TokenRules.{fault_at, first};

use crate::ids::remark::purpose_of;
use crate::tables::declaring::{declared_code, stays};
use crate::tables::standing::{Standing, standing_of};
use crate::tables::using::{Denoted, Denoting, introduce, name_code, used_code};
use crate::told::bodies::declare_member;
use crate::told::labels::UnionLabels;
use crate::told::types::{constants_of, looked_through};
use crate::walk::walker::Walker;
use idl_base::{Bytes, Seq, Shared};
use idl_entity::{Entity, Kind, Path, Stage};
use idl_env::{Addition, Env, Facts};
use idl_fault::Code;
use idl_memo::Journal;
use idl_parts::{Declaration, Use};
use idl_scope::{Found, NameCode, NameFault, Standpoint, View, resolve};
use idl_tree::{ScopedName, last_at, part_at};
use idl_value::ConstantType;
use std::alloc::{AllocError, Global};

impl<'a> Walker<'a> {
    /// A declared name.
    #[tactic(auto, unfolding(crate::specs::walk::Walk::visit))]
    pub fn declare(
        &mut self,
        log: &mut Journal<Env>,
        way: Declaration,
        name: &Bytes,
    ) -> Result<(), AllocError>
        requires { HasRoomFor (held self.old) (item.Declares way name.now ∷ []) }
        ensures visited { OnOk result ((turns : ℕ) → turns_for self.old.env.now ≤ turns →
            (held self.new, log.new)
            ≡ run key_eq (visited turns (item.Declares way name.now) (held self.old))
            (answers self.old.env.now) log.old) }
        ensures at { OnOk result (self.new.at ≡ self.old.at + 1) }
        ensures env { OnOk result (self.new.env.now ≡ self.old.env.now) }
    {
        let alloc = self.env.alloc();
        let Some(scope) = self.cursor.innermost() else {
            self.at += 1;
            return Ok(());
        };
        let entity = self.written.entity(alloc, way, name, &scope.path)?;
        let view = View {
            env: self.env,
            own: &self.own,
        };
        let standing = standing_of(view, log, scope, entity.get())?;
        let code = declared_code(scope, &standing, entity.get());
        self.declare_as(way, code, entity, &standing)
    }

    // A declared name, by the code of its least fault, and by what stands under it in its scope.
    fn declare_as(
        &mut self,
        way: Declaration,
        code: Option<Code>,
        entity: Shared<Entity>,
        standing: &Standing,
    ) -> Result<(), AllocError>
        requires { self.old.at + 1 ≤ 18446744073709551615 }
        ensures visit { OnOk result ((scope : ScopeAround) →
            code ≡ first (codes_in (declared_table scope standing.now entity)) →
            held self.new
            ≡ noted_in (declared_visit (held self.old) way scope entity standing.now)
            self.old.fault) }
        ensures env { OnOk result (self.new.env.now ≡ self.old.env.now) }
    {
        self.note(self.at, code);
        self.at += 1;
        keep_begun(&mut self.begun, &entity)?;
        self.written.declare(self.env.alloc(), entity.get())?;
        declare_member(self.env.alloc(), &mut self.bodies, way, entity.get())?;
        keep_last(&mut self.last, &entity)?;
        add_identity(&mut self.own, standing, entity.get())?;
        add_declared(&mut self.own, &standing.there, entity)
    }

    /// A used name.
    #[tactic(auto, unfolding(crate::specs::walk::Walk::visit))]
    pub fn use_name(
        &mut self,
        log: &mut Journal<Env>,
        way: Use,
        name: &ScopedName,
    ) -> Result<(), AllocError>
        requires { HasRoomFor (held self.old) (item.Uses way name.now ∷ []) }
        ensures visited { OnOk result ((turns : ℕ) → turns_for self.old.env.now ≤ turns →
            (held self.new, log.new)
            ≡ run key_eq (visited turns (item.Uses way name.now) (held self.old))
            (answers self.old.env.now) log.old) }
        ensures at { OnOk result
            (self.new.at ≡ self.old.at + item_length (item.Uses way name.now)) }
        ensures env { OnOk result (self.new.env.now ≡ self.old.env.now) }
    {
        if let Some(purpose) = purpose_of(way) {
            return self.speak_of(log, purpose, name);
        }
        if self.is_known(self.at + 1) {
            return self.cut_name(log, way, name);
        }
        self.use_any(log, way, name)
    }

    // A used name of which nothing counts behind its first token.
    fn cut_name(
        &mut self,
        log: &mut Journal<Env>,
        way: Use,
        name: &ScopedName,
    ) -> Result<(), AllocError>
        requires room { last_at self.old.at name.now + 1 ≤ 18446744073709551615 }
        ensures run { OnOk result ((turns : ℕ) → turns_for self.old.env.now ≤ turns →
            (held self.new, log.new)
            ≡ run key_eq (cut_noted turns way name.now (held self.old))
            (answers self.old.env.now) log.old) }
        ensures at { OnOk result (self.new.at ≡ last_at self.old.at name.now + 1) }
        ensures env { OnOk result (self.new.env.now ≡ self.old.env.now) }
    {
        if name.is_global {
            self.at = last_at(self.at, name) + 1;
            return Ok(());
        }
        if name.rest.is_empty() {
            return self.use_any(log, way, name);
        }
        self.use_head(log, name)
    }

    // The first part of a name of several.
    fn use_head(&mut self, log: &mut Journal<Env>, name: &ScopedName) -> Result<(), AllocError>
        requires room { last_at self.old.at name.now + 1 ≤ 18446744073709551615 }
        requires local { name.now.is_global ≡ false }
        ensures run { OnOk result ((turns : ℕ) → turns_for self.old.env.now ≤ turns →
            (held self.new, log.new)
            ≡ run key_eq (head_noted turns name.now (held self.old))
            (answers self.old.env.now) log.old) }
        ensures at { OnOk result (self.new.at ≡ last_at self.old.at name.now + 1) }
        ensures env { OnOk result (self.new.env.now ≡ self.old.env.now) }
    {
        let at = self.at;
        self.at = last_at(at, name) + 1;
        let head = ScopedName {
            is_global: false,
            first: name.first.clone()?,
            rest: Seq::new(self.env.alloc()),
        };
        let place = Standpoint {
            own: &self.own,
            cursor: self.cursor.scopes(),
        };
        match resolve(self.env, log, place, &head) {
            Ok(found) => {
                if found.entity.get().kind().is_scope() {
                    return Ok(());
                }
                self.note(at, Some(Code::NoScope));
                Ok(())
            }
            Err(NameFault::Memory) => Err(AllocError),
            Err(NameFault::At(code, _part)) => {
                self.note(at, Some(name_code(code)));
                Ok(())
            }
        }
    }

    // A used name, all of which is looked at.
    fn use_any(
        &mut self,
        log: &mut Journal<Env>,
        way: Use,
        name: &ScopedName,
    ) -> Result<(), AllocError>
        requires room { last_at self.old.at name.now + 1 ≤ 18446744073709551615 }
        ensures run { OnOk result ((turns : ℕ) → turns_for self.old.env.now ≤ turns →
            (held self.new, log.new)
            ≡ run key_eq (used_noted turns way name.now (held self.old))
            (answers self.old.env.now) log.old) }
        ensures at { OnOk result (self.new.at ≡ last_at self.old.at name.now + 1) }
        ensures env { OnOk result (self.new.env.now ≡ self.old.env.now) }
    {
        let place = Standpoint {
            own: &self.own,
            cursor: self.cursor.scopes(),
        };
        match resolve(self.env, log, place, name) {
            Ok(found) => {
                let behind = looked_through(self.view(), log, way, &found.entity)?;
                self.use_as(way, name, &found, behind.get())
            }
            Err(NameFault::Memory) => Err(AllocError),
            Err(NameFault::At(code, part)) => {
                self.use_nothing(name, code, part);
                self.follow_nothing(way)
            }
        }
    }

    /// A name that denotes nothing.
    pub fn use_nothing(&mut self, name: &ScopedName, code: NameCode, part: usize)
        requires room { last_at self.old.at name.now + 1 ≤ 18446744073709551615 }
        requires part { part ≤ length name.now.rest }
        ensures { self.new
            ≡ record self.old {
              at = last_at self.old.at name.now + 1;
              fault =
                  noted self.old.fault
                  (fault_at (part_at self.old.at name.now part) (name_code code) ∷ []);
            } }
    {
        self.note(part_at(self.at, name, part), Some(name_code(code)));
        self.at = last_at(self.at, name) + 1;
    }

    // An operand without a value, or a discriminator of no type.
    fn follow_nothing(&mut self, way: Use) -> Result<(), AllocError>
        ensures walk { OnOk result
            (held self.new
            ≡ record (held self.old) {
              unions = unions_without way self.old.unions.items;
              values = values_after way None (held_values self.old.values);
            }) }
        ensures env { OnOk result (self.new.env.now ≡ self.old.env.now) }
    {
        match way {
            Use::AsOperand => self.values.add_operand(None),
            Use::AsDiscriminator => {
                let labels = UnionLabels::new(self.env.alloc(), None, 0);
                self.unions.insert(0, labels)?;
                Ok(())
            }
            _ => Ok(()),
        }
    }

    // A used name, by what it denotes, and by what stands behind that.
    fn use_as(
        &mut self,
        way: Use,
        name: &ScopedName,
        found: &Found,
        behind: &Entity,
    ) -> Result<(), AllocError>
        requires room { last_at self.old.at name.now + 1 ≤ 18446744073709551615 }
        ensures visit { OnOk result
            (held self.new
            ≡ noted_in (used_visit (held self.old) way name.now found.now behind.now)
            self.old.fault) }
        ensures env { OnOk result (self.new.env.now ≡ self.old.env.now) }
    {
        let alloc = self.env.alloc();
        let entity = found.entity.get();
        let constants = constants_of(alloc, behind)?;
        let denoted = Denoted {
            entity,
            constants: &constants,
        };
        let code = used_code(alloc, way, &mut self.bases, denoted)?;
        let last = last_at(self.at, name);
        self.note(last, code);
        self.at = last + 1;
        let path = entity.path();
        let used = Denoting {
            name,
            path,
            reach: found.reach,
        };
        introduce(alloc, &mut self.own, used, self.cursor.scopes())?;
        self.take_base(way, path)?;
        self.found.push(path.clone()?)?;
        self.clauses.add_raised(way, path)?;
        self.follow(way, entity, behind, constants)
    }

    // The struct that was declared last has what is at this path as its base, if that is used so.
    fn take_base(&mut self, way: Use, base: &Path) -> Result<(), AllocError>
        ensures walk { OnOk result
            (held self.new
            ≡ record (held self.old) {
              own = own_after way (last_after way base.now self.old.last) self.old.own.additions;
              last = last_after way base.now self.old.last;
            }) }
        ensures env { OnOk result (self.new.env.now ≡ self.old.env.now) }
    {
        match (way, &self.last) {
            (Use::AsStructBase, Some(last)) => {
                let structure = over_base(self.env.alloc(), last.get(), base)?;
                self.own.add(Addition::Declares(structure.clone()?))?;
                self.last = Some(structure);
                Ok(())
            }
            _ => Ok(()),
        }
    }

    // What is declared at a path is the type that was written last.
    fn name_type(&mut self, path: &Path) -> Result<(), AllocError>
        ensures walk { OnOk result
            (held self.new
            ≡ record (held self.old) {
              written = record (held_written self.old.written) {
                data_type = Some (plain_type (Named path.now));
              };
            }) }
        ensures env { OnOk result (self.new.env.now ≡ self.old.env.now) }
    {
        self.written.name_type(path.clone()?);
        Ok(())
    }

    // What a used name leaves to what follows, where constants are of this type.
    fn follow(
        &mut self,
        way: Use,
        entity: &Entity,
        behind: &Entity,
        constants: Option<ConstantType>,
    ) -> Result<(), AllocError>
        requires { constants ≡ constants_of behind.now }
        ensures walk { OnOk result
            (held self.new
            ≡ record (held self.old) {
              bases = bases_after way entity.now self.old.bases;
              written = record (held_written self.old.written) {
                data_type = type_after way entity.now self.old.written.data_type;
                constants = constants_after way behind.now self.old.written.constants;
              };
              unions = unions_after way behind.now self.old.unions.items;
              values = values_after way entity.now.value (held_values self.old.values);
            }) }
        ensures env { OnOk result (self.new.env.now ≡ self.old.env.now) }
    {
        match way {
            Use::AsBase(_) => self.bases.add(self.env.alloc(), entity),
            Use::AsType | Use::AsElement => { self.name_type(entity.path()) }
            Use::AsConstantType => {
                self.written.constants = constants;
                self.name_type(entity.path())
            }
            Use::AsDiscriminator => {
                self.name_type(entity.path())?;
                let count = behind.enumerators().len() as u64;
                let labels = UnionLabels::new(self.env.alloc(), constants, count);
                self.unions.insert(0, labels)?;
                Ok(())
            }
            Use::AsOperand => self.values.add_operand(entity.value()),
            Use::Raised | Use::RaisedBySet => Ok(()),
            Use::AsStructBase | Use::AsIdentified | Use::AsPrefixed => Ok(()),
        }
    }
}

// A struct, open over what is at this path.
fn over_base(alloc: Global, structure: &Entity, base: &Path) -> Result<Shared<Entity>, AllocError>
    ensures { IfOk result (λ entity.
        entity ≡ record structure.now { stage = Open; bases = base.now ∷ [] }) }
{
    let mut bases = Seq::new(alloc);
    bases.push(base.clone()?)?;
    let mut over = structure.clone()?;
    over.set_stage(Stage::Open);
    over.set_bases(alloc, bases)?;
    Shared::new(alloc, over)
}

// What was declared last.
fn keep_last(last: &mut Option<Shared<Entity>>, entity: &Shared<Entity>) -> Result<(), AllocError>
    ensures { OnOk result (last.new ≡ Some entity.now) }
{
    *last = Some(entity.clone()?);
    Ok(())
}

// Whether the unit's end finishes it.
fn is_begun(entity: &Entity) -> bool
    ensures { result ≡ is_begun entity.now }
{
    entity.stage() == Stage::Begun
        && (entity.kind() == Kind::Interface || entity.kind() == Kind::Constant)
}

// Those that have begun, with one more if it has.
fn keep_begun(begun: &mut Seq<Shared<Entity>>, entity: &Shared<Entity>) -> Result<(), AllocError>
    ensures { OnOk result
        (begun.new
        ≡ begun.old ++ (if is_begun entity.now then entity.now ∷ [] else [])) }
{
    if !is_begun(entity.get()) {
        return Ok(());
    }
    begun.push(entity.clone()?)?;
    Ok(())
}

// Puts in the prefix that tells the id of what is declared first.
fn add_identity(own: &mut Facts, standing: &Standing, entity: &Entity) -> Result<(), AllocError>
    ensures { OnOk result
        (own.new
        ≡ record own.old {
          additions =
              with_identity standing.now.there standing.now.ids entity.now own.old.additions;
        }) }
{
    let (None, Some(ids)) = (&standing.there, &standing.ids) else {
        return Ok(());
    };
    own.add(Addition::Appears(entity.path().clone()?, ids.prefix.clone()?))
}

// Puts in what a declared name adds.
fn add_declared(
    own: &mut Facts,
    there: &Option<Shared<Entity>>,
    entity: Shared<Entity>,
) -> Result<(), AllocError>
    ensures { OnOk result
        (own.new
        ≡ record own.old {
          additions =
              if stays there.now entity then own.old.additions
              else with_addition own.old.additions (Declares entity);
        }) }
{
    if stays(there, entity.get()) {
        return Ok(());
    }
    own.add(Addition::Declares(entity))
}
