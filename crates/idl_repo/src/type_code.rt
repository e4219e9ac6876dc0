//! TypeCodes, and how they and types are written.

ghost use Rattle.std.specs.Prelude.{◌≡◌, ◌++◌, [], IfOk, OnOk, flat_map};
ghost use Rattle.idl_repo.specs.Pieces.{IsAsked, Writes};
ghost use Rattle.idl_repo.specs.Row.{behind_id};
ghost use Rattle.idl_repo.specs.TypeCode.{begin_pieces, code_pieces, default_of, element_pieces, entries_of, enumerator_word, interface_head, label_word, labelled_pieces, member_pieces, reference, shown, type_behind, type_pieces, typed_pieces};
ghost use Rattle.idl_entity.specs.declared.kind.Kind.TheVariants.{Alias, Enumeration, Union};

use crate::piece::AnsweredId;
use crate::row_writer::RowWriter;
use crate::shown::members_of;
use crate::words::{
    begin_layers, end_layers, push_default, push_listed, push_target, unvalued_word,
};
use idl_base::{Bytes, Shared};
use idl_entity::{DataType, Element, Entity, Member, Path};
use idl_value::Value;
use std::alloc::AllocError;

/// How the TypeCode of an interface begins, behind a blank.
pub fn interface_head(is_local: bool) -> &'static [u8]
    ensures { result.now ≡ interface_head is_local }
{
    if is_local {
        b" tk_local_interface("
    } else {
        b" tk_objref("
    }
}

impl<'a> RowWriter<'a> {
    // Begins a TypeCode: what stands before its id, that, which was asked, and its name.
    fn begin_code(
        &mut self,
        head: &[u8],
        entity: &Entity,
        id: AnsweredId<'_>,
    ) -> Result<(), AllocError>
        requires { IsAsked id entity.now.path self.old }
        ensures { OnOk result (Writes (begin_pieces head.now entity.now) self.old self.new) }
    {
        self.text.extend_from_slice(head)?;
        id.write(&mut self.text)?;
        self.text.extend_from_slice(b",")?;
        self.text.extend_from_slice(entity.path().name())?;
        Ok(())
    }

    /// A TypeCode that begins so and has nothing behind the name.
    pub fn push_code(
        &mut self,
        head: &[u8],
        entity: &Entity,
        id: AnsweredId<'_>,
    ) -> Result<(), AllocError>
        requires { IsAsked id entity.now.path self.old }
        ensures { OnOk result (Writes (code_pieces head.now entity.now []) self.old self.new) }
    {
        self.begin_code(head, entity, id)?;
        self.text.extend_from_slice(b")")?;
        Ok(())
    }

    /// A TypeCode that begins so and has members.
    pub fn push_members_code(
        &mut self,
        head: &[u8],
        entity: &Entity,
        id: AnsweredId<'_>,
    ) -> Result<(), AllocError>
        requires { IsAsked id entity.now.path self.old }
        ensures { OnOk result (Writes
            (code_pieces head.now entity.now (flat_map member_pieces (shown entity.now).members))
            self.old self.new) }
    {
        self.begin_code(head, entity, id)?;
        self.push_members(members_of(entity))?;
        self.text.extend_from_slice(b")")?;
        Ok(())
    }

    /// The TypeCode of a union.
    pub fn push_union(&mut self, entity: &Entity, id: AnsweredId<'_>) -> Result<(), AllocError>
        requires { IsAsked id entity.now.path self.old }
        ensures { OnOk result (Writes (behind_id Union entity.now) self.old self.new) }
    {
        self.begin_code(b" tk_union(", entity, id)?;
        self.push_type_behind(entity.data_type())?;
        self.push_entries(members_of(entity))?;
        self.text.extend_from_slice(b")")?;
        Ok(())
    }

    /// That of an enum.
    pub fn push_enumeration(
        &mut self,
        entity: &Entity,
        id: AnsweredId<'_>,
    ) -> Result<(), AllocError>
        requires { IsAsked id entity.now.path self.old }
        ensures { OnOk result (Writes (behind_id Enumeration entity.now) self.old self.new) }
    {
        self.begin_code(b" tk_enum(", entity, id)?;
        push_enumerators(&mut self.text, entity.enumerators())?;
        self.text.extend_from_slice(b")")?;
        Ok(())
    }

    /// That of a typedef.
    pub fn push_alias(&mut self, entity: &Entity, id: AnsweredId<'_>) -> Result<(), AllocError>
        requires { IsAsked id entity.now.path self.old }
        ensures { OnOk result (Writes (behind_id Alias entity.now) self.old self.new) }
    {
        self.begin_code(b" tk_alias(", entity, id)?;
        self.push_type_behind(entity.data_type())?;
        self.text.extend_from_slice(b")")?;
        Ok(())
    }

    // Each member, with a comma before it.
    fn push_members(&mut self, members: &[Member]) -> Result<(), AllocError>
        ensures { OnOk result (Writes (flat_map member_pieces members.now) self.old self.new) }
    {
        for member in members {
            self.text.extend_from_slice(b",")?;
            self.push_typed(member)?;
        }
        Ok(())
    }

    /// The name of a member or parameter, and its type.
    pub fn push_typed(&mut self, member: &Member) -> Result<(), AllocError>
        ensures { OnOk result (Writes (typed_pieces member.now) self.old self.new) }
    {
        self.text.extend_from_slice(member.name.as_bytes())?;
        self.text.extend_from_slice(b":")?;
        self.push_type(&member.data_type)?;
        Ok(())
    }

    // The number of the entry of `default`, and an entry for each label of each member.
    fn push_entries(&mut self, members: &[Member]) -> Result<(), AllocError>
        ensures { OnOk result (Writes (entries_of members.now) self.old self.new) }
    {
        self.text.extend_from_slice(b",")?;
        let number = default_at(members)?;
        push_default(&mut self.text, number)?;
        for member in members {
            self.push_labelled(member)?;
        }
        Ok(())
    }

    // An entry for each label of a member.
    fn push_labelled(&mut self, member: &Member) -> Result<(), AllocError>
        ensures { OnOk result (Writes (labelled_pieces member.now) self.old self.new) }
    {
        for label in member.labels.as_slice() {
            self.text.extend_from_slice(b",")?;
            push_label(&mut self.text, label)?;
            self.text.extend_from_slice(b":")?;
            self.push_typed(member)?;
        }
        Ok(())
    }

    // A type, with a comma before it.
    fn push_type_behind(&mut self, data_type: &Option<Shared<DataType>>) -> Result<(), AllocError>
        ensures { OnOk result (Writes (type_behind data_type.now) self.old self.new) }
    {
        self.text.extend_from_slice(b",")?;
        self.push_type(data_type)?;
        Ok(())
    }

    /// A type: a named one is told by its id, and another one is written in place.
    pub fn push_type(&mut self, data_type: &Option<Shared<DataType>>) -> Result<(), AllocError>
        ensures { OnOk result (Writes (type_pieces data_type.now) self.old self.new) }
    {
        let Some(data_type) = data_type else {
            return self.text.extend_from_slice(b"tk_void");
        };
        let DataType { element, layers } = data_type.get();
        begin_layers(&mut self.text, layers.as_slice())?;
        self.push_element(element)?;
        end_layers(&mut self.text, layers.as_slice())?;
        Ok(())
    }

    // What a type is of.
    fn push_element(&mut self, element: &Element) -> Result<(), AllocError>
        ensures { OnOk result (Writes (element_pieces element.now) self.old self.new) }
    {
        match element {
            Element::Constants(target) => push_target(&mut self.text, target),
            Element::Named(path) => self.push_reference(path),
            Element::Unvalued(kind) => self.text.extend_from_slice(unvalued_word(*kind)),
        }
    }

    /// A reference to what is declared at a path.
    pub fn push_reference(&mut self, path: &Path) -> Result<(), AllocError>
        ensures { OnOk result (Writes (reference path.now) self.old self.new) }
    {
        self.text.extend_from_slice(b"@")?;
        self.push_id(path)?;
        Ok(())
    }
}

/// The number of the entry of `default`, if there is one.
pub fn default_at(members: &[Member]) -> Result<Option<usize>, AllocError>
    ensures { IfOk result (λ number. number ≡ default_of members.now) }
{
    let mut number: usize = 0;
    for member in members {
        for label in member.labels.as_slice() {
            if label.is_none() {
                return Ok(Some(number));
            }
            let Some(next) = number.checked_add(1) else {
                return Err(AllocError);
            };
            number = next;
        }
    }
    Ok(None)
}

// A label.
fn push_label(text: &mut Vec<u8>, label: &Option<Value>) -> Result<(), AllocError>
    ensures { OnOk result
        (text.new.items ≡ text.old.items ++ label_word label.now) }
{
    match label {
        Some(value) => push_listed(text, value),
        None => text.extend_from_slice(b"default"),
    }
}

// Each enumerator, with a comma before it.
fn push_enumerators(text: &mut Vec<u8>, names: &[Bytes]) -> Result<(), AllocError>
    ensures { OnOk result
        (text.new.items
        ≡ text.old.items ++ flat_map enumerator_word names.now) }
{
    for name in names {
        text.extend_from_slice(b",")?;
        text.extend_from_slice(name.as_bytes())?;
    }
    Ok(())
}
