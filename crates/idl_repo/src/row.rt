//! Rows of a listing.

ghost use Rattle.std.specs.Prelude.{◌≡◌, ◌++◌, OnOk};
ghost use Rattle.idl_repo.specs.Pieces.{IsAsked, Writes, commas, with_commas};
ghost use Rattle.idl_repo.specs.Row.{attribute_pieces, base_pieces, bases_pieces, behind_id, constant_pieces, context_word, flag, operation_pieces, parameter_pieces, references, row_pieces};

use crate::piece::{AnsweredId, id_of};
use crate::row_writer::RowWriter;
use crate::shown::{contexts_of, members_of, raised_by_set_of, raised_of};
use crate::type_code::interface_head;
use crate::words::{direction_word, kind_word, push_context, push_listed, push_path};
use idl_base::Seq;
use idl_entity::{Entity, Kind, Member, Path};
use std::alloc::AllocError;

impl<'a> RowWriter<'a> {
    /// Writes the row of what is declared so, which has an id.
    pub fn push_row(&mut self, entity: &Entity) -> Result<(), AllocError>
        ensures { OnOk result (Writes (row_pieces entity.now) self.old self.new) }
    {
        self.text.extend_from_slice(kind_word(entity.kind()))?;
        self.text.extend_from_slice(b" ")?;
        let path = entity.path();
        push_path(&mut self.text, path.lent())?;
        self.text.extend_from_slice(b" ")?;
        let id = id_of(self.env, &mut self.log, path)?;
        id.write(&mut self.text)?;
        self.push_behind(entity, id)?;
        Ok(())
    }

    // What stands behind the id, which was asked.
    fn push_behind(&mut self, entity: &Entity, id: AnsweredId<'_>) -> Result<(), AllocError>
        requires { IsAsked id entity.now.path self.old }
        ensures { OnOk result
            (Writes (behind_id entity.now.kind entity.now) self.old self.new) }
    {
        match entity.kind() {
            Kind::Interface => {
                self.push_code(interface_head(entity.is_local()), entity, id)?;
                self.push_bases(entity.bases())
            }
            Kind::Structure => {
                self.push_members_code(b" tk_struct(", entity, id)?;
                self.push_base(entity.bases())
            }
            Kind::Union => self.push_union(entity, id),
            Kind::Exception => self.push_members_code(b" tk_except(", entity, id),
            Kind::Enumeration => self.push_enumeration(entity, id),
            Kind::Alias => self.push_alias(entity, id),
            Kind::Native => self.push_code(b" tk_native(", entity, id),
            Kind::Constant => self.push_constant(entity),
            Kind::Attribute => self.push_attribute(entity),
            Kind::Operation => self.push_operation(entity),
            Kind::Module | Kind::Enumerator | Kind::Parameter | Kind::Member => Ok(()),
        }
    }

    // The bases of an interface.
    fn push_bases(&mut self, paths: &[Path]) -> Result<(), AllocError>
        ensures { OnOk result (Writes (bases_pieces paths.now) self.old self.new) }
    {
        self.text.extend_from_slice(b" bases(")?;
        self.push_references(paths)?;
        self.text.extend_from_slice(b")")?;
        Ok(())
    }

    // The base of a struct, if it has one.
    fn push_base(&mut self, paths: &[Path]) -> Result<(), AllocError>
        ensures { OnOk result (Writes (base_pieces paths.now) self.old self.new) }
    {
        let [_base, ..] = paths else {
            return Ok(());
        };
        self.text.extend_from_slice(b" base(")?;
        self.push_references(paths)?;
        self.text.extend_from_slice(b")")?;
        Ok(())
    }

    // A constant: its type, and its value.
    fn push_constant(&mut self, entity: &Entity) -> Result<(), AllocError>
        ensures { OnOk result (Writes (constant_pieces entity.now) self.old self.new) }
    {
        self.text.extend_from_slice(b" ")?;
        self.push_type(entity.data_type())?;
        self.text.extend_from_slice(b" ")?;
        if let Some(value) = entity.value() {
            push_listed(&mut self.text, value.get())?;
        }
        Ok(())
    }

    // An attribute: its type, and what reading and writing it raise.
    fn push_attribute(&mut self, entity: &Entity) -> Result<(), AllocError>
        ensures { OnOk result (Writes (attribute_pieces entity.now) self.old self.new) }
    {
        self.text
            .extend_from_slice(flag(entity.is_readonly(), b" readonly "))?;
        self.push_type(entity.data_type())?;
        self.text.extend_from_slice(b" get(")?;
        self.push_references(raised_of(entity))?;
        self.text.extend_from_slice(b") set(")?;
        self.push_references(raised_by_set_of(entity))?;
        self.text.extend_from_slice(b")")?;
        Ok(())
    }

    // An operation: what it gives back, its parameters, what it raises, and its context.
    fn push_operation(&mut self, entity: &Entity) -> Result<(), AllocError>
        ensures { OnOk result (Writes (operation_pieces entity.now) self.old self.new) }
    {
        self.text
            .extend_from_slice(flag(entity.is_oneway(), b" oneway "))?;
        self.push_type(entity.data_type())?;
        self.text.extend_from_slice(b" (")?;
        self.push_parameters(members_of(entity))?;
        self.text.extend_from_slice(b") raises(")?;
        self.push_references(raised_of(entity))?;
        self.text.extend_from_slice(b") context(")?;
        push_contexts(&mut self.text, contexts_of(entity))?;
        self.text.extend_from_slice(b")")?;
        Ok(())
    }

    // References, with commas between them.
    fn push_references(&mut self, paths: &[Path]) -> Result<(), AllocError>
        ensures { OnOk result (Writes (references paths.now) self.old self.new) }
    {
        let [first, rest @ ..] = paths else {
            return Ok(());
        };
        self.push_reference(first)?;
        for path in rest {
            self.text.extend_from_slice(b",")?;
            self.push_reference(path)?;
        }
        Ok(())
    }

    // Parameters, with commas between them.
    fn push_parameters(&mut self, parameters: &[Member]) -> Result<(), AllocError>
        ensures { OnOk result (Writes (commas parameter_pieces parameters.now) self.old self.new) }
    {
        let [first, rest @ ..] = parameters else {
            return Ok(());
        };
        self.push_parameter(first)?;
        for parameter in rest {
            self.text.extend_from_slice(b",")?;
            self.push_parameter(parameter)?;
        }
        Ok(())
    }

    // A parameter.
    fn push_parameter(&mut self, parameter: &Member) -> Result<(), AllocError>
        ensures { OnOk result (Writes (parameter_pieces parameter.now) self.old self.new) }
    {
        let direction = direction_word(parameter.goes_in, parameter.comes_out);
        self.text.extend_from_slice(direction)?;
        self.text.extend_from_slice(b" ")?;
        self.push_typed(parameter)?;
        Ok(())
    }
}

// A word between blanks where it is to stand, and else one blank.
fn flag(stands: bool, word: &'static [u8]) -> &'static [u8]
    ensures { result.now ≡ flag stands word.now }
{
    if stands { word } else { b" " }
}

// Texts, with commas between them.
fn push_contexts(text: &mut Vec<u8>, contexts: &[Seq<u16>]) -> Result<(), AllocError>
    ensures { OnOk result
        (text.new.items ≡ text.old.items ++ with_commas context_word contexts.now) }
{
    let [first, rest @ ..] = contexts else {
        return Ok(());
    };
    push_context(text, first)?;
    for context in rest {
        text.extend_from_slice(b",")?;
        push_context(text, context)?;
    }
    Ok(())
}
