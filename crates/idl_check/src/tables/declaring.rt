//! Declared names: what they are declared as, and what is wrong with that.

ghost use Rattle.std.specs.Prelude.{◌≡◌, ◌∷◌, [], IfOk, IfSome, None, OnOk, Some, true};
ghost use Rattle.idl_check.specs.tables.Declaring.{data_type_in, declared_table, entity_of, finished, is_local_in, is_oneway_in, is_readonly_in, kind_of, stage_of, stays, value_in, written_after};
ghost use Rattle.idl_check.specs.tables.Rules.{are_modules, come_ahead, differs, is_name_of_scope, may_be_ahead, may_follow};
ghost use Rattle.idl_check.specs.walk.Held.{held_written};
ghost use Rattle.idl_check.specs.told.Bodies.{array_of};
ghost use Rattle.idl_entity.specs.DataType.{plain_type};
ghost use Rattle.idl_entity.specs.declared.data_type.Element.TheVariants.{Named};
ghost use Rattle.idl_check.specs.tables.Codes.{codes_in};
ghost use Rattle.idl_unit.specs.TokenRules.{first};

use crate::ids::identifying::{is_of_other_prefix, may_be_ahead};
use crate::tables::codes::first_code;
use crate::tables::standing::Standing;
use crate::told::clauses::Clauses;
use crate::told::last_type::LastType;
use crate::told::types::names_of;
use idl_base::{Bytes, Seq, Shared};
use idl_entity::{DataType, Entity, Kind, Nature, Path, Stage};
use idl_env::{Addition, Facts, Scope};
use idl_fault::Code;
use idl_parts::Declaration;
use idl_value::{ConstantType, Value};
use std::alloc::{AllocError, Global};

/// What is declared.
pub fn kind_of(way: Declaration) -> Kind
    ensures { result ≡ kind_of way }
{
    match way {
        Declaration::Module => Kind::Module,
        Declaration::Interface(_) | Declaration::InterfaceAhead(_) => Kind::Interface,
        Declaration::Structure | Declaration::StructureAhead => Kind::Structure,
        Declaration::Union | Declaration::UnionAhead => Kind::Union,
        Declaration::Exception => Kind::Exception,
        Declaration::Enumeration => Kind::Enumeration,
        Declaration::Enumerator => Kind::Enumerator,
        Declaration::Alias => Kind::Alias,
        Declaration::Native => Kind::Native,
        Declaration::Constant => Kind::Constant,
        Declaration::Attribute(_) => Kind::Attribute,
        Declaration::Operation(_) => Kind::Operation,
        Declaration::Parameter(_) => Kind::Parameter,
        Declaration::Member => Kind::Member,
    }
}

// Whether it is an interface that is declared local.
fn is_local_in(way: Declaration) -> bool
    ensures { result ≡ is_local_in way }
{
    match way {
        Declaration::Interface(is_local) | Declaration::InterfaceAhead(is_local) => is_local,
        _ => false,
    }
}

// Whether it is an attribute that is declared readonly.
fn is_readonly_in(way: Declaration) -> bool
    ensures { result ≡ is_readonly_in way }
{
    match way {
        Declaration::Attribute(is_readonly) => is_readonly,
        _ => false,
    }
}

// Whether it is an operation that is declared oneway.
fn is_oneway_in(way: Declaration) -> bool
    ensures { result ≡ is_oneway_in way }
{
    match way {
        Declaration::Operation(is_oneway) => is_oneway,
        _ => false,
    }
}

// How far it has come at its name.
fn stage_of(way: Declaration) -> Stage
    ensures { result ≡ stage_of way }
{
    match way {
        Declaration::InterfaceAhead(_) | Declaration::StructureAhead | Declaration::UnionAhead => {
            Stage::Ahead
        }
        Declaration::Interface(_)
        | Declaration::Structure
        | Declaration::Union
        | Declaration::Constant => Stage::Begun,
        _ => Stage::Complete,
    }
}

// What a name is declared as.
fn nature_of(way: Declaration) -> Nature
    ensures { result
        ≡ record {
          kind = kind_of way;
          is_local = is_local_in way;
          is_readonly = is_readonly_in way;
          is_oneway = is_oneway_in way;
          stage = stage_of way;
        } }
{
    Nature {
        kind: kind_of(way),
        is_local: is_local_in(way),
        is_readonly: is_readonly_in(way),
        is_oneway: is_oneway_in(way),
        stage: stage_of(way),
    }
}

/// What the end of a unit leaves: the bases of an interface, the value of a constant, and what the
/// clauses of an attribute say.
#[derive(Clone, Copy)]
pub struct Ending<'a> {
    pub bases: &'a Seq<Path>,
    pub value: &'a Option<Value>,
    pub clauses: &'a Clauses,
}

/// What the names that are declared next are declared with.
#[derive(Drop)]
pub struct Written {
    /// The type that was written last.
    pub data_type: LastType,
    /// The type that the next constant is to have a value of, if constants may be of it.
    pub constants: Option<ConstantType>,
    /// The path of the enum that was declared last.
    pub enumeration: Seq<Bytes>,
    /// The enumerators of the next enum.
    pub enumerators: Seq<Bytes>,
}

impl Written {
    /// Before the first name. It takes no memory.
    pub fn new(alloc: Global) -> Written
        ensures { held_written result
            ≡ record {
              data_type = None;
              constants = None;
              enumeration = [];
              enumerators = [];
            } }
    {
        Written {
            data_type: LastType::none(),
            constants: None,
            enumeration: Seq::new(alloc),
            enumerators: Seq::new(alloc),
        }
    }

    // The type that a name is declared with.
    fn data_type(
        &self,
        alloc: Global,
        way: Declaration,
    ) -> Result<Option<Shared<DataType>>, AllocError>
        ensures { IfOk result (λ t. t ≡ data_type_in (held_written self.now) way) }
    {
        match way {
            Declaration::Alias
            | Declaration::Constant
            | Declaration::Attribute(_)
            | Declaration::Operation(_)
            | Declaration::Parameter(_)
            | Declaration::Member => self.data_type.get(alloc),
            _ => Ok(None),
        }
    }

    // The value of an enumerator.
    fn value(
        &self,
        alloc: Global,
        way: Declaration,
        name: &Bytes,
    ) -> Result<Option<Shared<Value>>, AllocError>
        ensures { IfOk result (λ value. value ≡ value_in (held_written self.now) way name.now) }
    {
        match way {
            Declaration::Enumerator => {
                let enumeration = self.enumeration.clone()?;
                let value = Value::Enumerator(enumeration, name.clone()?);
                Ok(Some(Shared::new(alloc, value)?))
            }
            _ => Ok(None),
        }
    }

    /// The entity that a name is declared as in the scope at a path.
    pub fn entity(
        &self,
        alloc: Global,
        way: Declaration,
        name: &Bytes,
        scope: &Path,
    ) -> Result<Shared<Entity>, AllocError>
        ensures { IfOk result (λ entity.
            entity ≡ entity_of (held_written self.now) way name.now scope.now) }
    {
        let path = scope.child(alloc, name)?;
        let data_type = self.data_type(alloc, way)?;
        let value = self.value(alloc, way, name)?;
        let mut entity = Entity::listless(path, nature_of(way), data_type, value);
        if let Declaration::Enumeration = way {
            let names = self.enumerators.clone()?;
            entity.set_enumerators(alloc, names)?;
        }
        Shared::new(alloc, entity)
    }

    /// This name is declared: an enum is a type.
    pub fn declare(&mut self, alloc: Global, entity: &Entity) -> Result<(), AllocError>
        ensures { OnOk result
            (held_written self.new ≡ written_after (held_written self.old) entity.now) }
    {
        if entity.kind() != Kind::Enumeration {
            return Ok(());
        }
        self.name_type(entity.path().clone()?);
        self.enumeration = names_of(alloc, entity.path())?;
        Ok(())
    }

    /// What is declared at a path is the type that was written last.
    pub fn name_type(&mut self, path: Path)
        ensures { held_written self.new
            ≡ record (held_written self.old) {
              data_type = Some (plain_type (Named path));
            } }
    {
        self.data_type = LastType::named(path);
    }
}

/// The path of a name in the scope with this path: that of what was added last, if this is declared
/// so, and else a new one.
pub fn path_in(alloc: Global, own: &Facts, name: &Bytes, scope: &Path) -> Result<Path, AllocError>
    ensures { IfOk result (λ path. path ≡ name.now ∷ scope.now) }
{
    if let Some(path) = declared_path(own, name.as_bytes(), scope) {
        return path.clone();
    }
    scope.child(alloc, name)
}

// The path of what was added last, if it is that of a name in the scope with a path.
fn declared_path<'a>(own: &'a Facts, name: &[u8], scope: &Path) -> Option<&'a Path>
    ensures { IfSome result (λ path. path.now ≡ name.now ∷ scope.now) }
{
    let last = own.len().checked_sub(1)?;
    let Some(Addition::Declares(entity)) = own.addition(last) else {
        return None;
    };
    let path = entity.get().path();
    let (first, around) = path.lent().split_first()?;
    if first == name && around.are_those(&scope.lent()) {
        return Some(path);
    }
    None
}

/// An entity that has begun, as its unit leaves it: an interface is open with these bases, an
/// attribute raises what its clauses say, and a constant has this value.
pub fn finished(
    alloc: Global,
    ending: Ending<'_>,
    begun: &Shared<Entity>,
) -> Result<Shared<Entity>, AllocError>
    ensures { IfOk result (λ entity.
        entity
        ≡ finished ending.entry.bases.now ending.entry.value.now ending.entry.clauses.now
        begun.now) }
{
    if is_finished(ending, begun.get()) {
        return begun.clone();
    }
    let mut entity = begun.get().clone()?;
    finish(alloc, ending, &mut entity)?;
    Shared::new(alloc, entity)
}

// It ends so.
fn finish(alloc: Global, ending: Ending<'_>, entity: &mut Entity) -> Result<(), AllocError>
    ensures { OnOk result (entity.new
        ≡ finished ending.entry.bases.now ending.entry.value.now ending.entry.clauses.now
        entity.old) }
{
    if entity.kind() == Kind::Interface {
        entity.set_stage(Stage::Open);
        entity.set_bases(alloc, ending.bases.clone()?)?;
    } else if entity.kind() == Kind::Attribute {
        let signature = ending.clauses.signature(alloc, Vec::new(alloc))?;
        entity.set_signature(alloc, signature)?;
    } else {
        entity.set_stage(Stage::Complete);
        entity.set_value(alloc, shared_value(alloc, ending.value)?)?;
    }
    Ok(())
}

// The value, if there is one, which can be shared.
fn shared_value(alloc: Global, value: &Option<Value>) -> Result<Option<Shared<Value>>, AllocError>
    ensures { IfOk result (λ shared. shared ≡ value.now) }
{
    match value {
        Some(value) => Ok(Some(Shared::new(alloc, value.clone()?)?)),
        None => Ok(None),
    }
}

// Whether the end of its unit leaves it as it is, so that it can be shared.
fn is_finished(ending: Ending<'_>, begun: &Entity) -> bool
    ensures { result ≡ true
        → finished ending.entry.bases.now ending.entry.value.now ending.entry.clauses.now
        begun.now ≡ begun.now }
{
    match begun.kind() {
        Kind::Interface | Kind::Attribute => false,
        _ => {
            begun.stage() == Stage::Complete && begun.value().is_none() && ending.value.is_none()
        }
    }
}

/// An entity as an array of these lengths, if it has a type.
pub fn array_of(
    alloc: Global,
    entity: &Entity,
    lengths: &[u32],
) -> Result<Shared<Entity>, AllocError>
    ensures { IfOk result (λ array. array ≡ array_of lengths.now entity.now) }
{
    let mut array = entity.clone()?;
    if let Some(element) = entity.data_type() {
        array.set_data_type(Some(element.get().in_arrays(alloc, lengths)?));
    }
    Shared::new(alloc, array)
}

// Whether one of them is declared ahead, and both may be.
fn come_ahead(old: &Entity, new: &Entity) -> bool
    ensures { result ≡ come_ahead old.now new.now }
{
    may_be_ahead(old.kind())
        && may_be_ahead(new.kind())
        && (old.stage() == Stage::Ahead || new.stage() == Stage::Ahead)
}

// Whether both are modules.
fn are_modules(old: &Entity, new: &Entity) -> bool
    ensures { result ≡ are_modules old.now new.now }
{
    old.kind() == Kind::Module && new.kind() == Kind::Module
}

// Whether a name that is there may be declared again as this.
fn may_follow(old: &Entity, new: &Entity) -> bool
    ensures { result ≡ may_follow old.now new.now }
{
    old.path().name() == new.path().name() && (are_modules(old, new) || come_ahead(old, new))
}

// Whether it is then of another kind, or local as the other isn't.
fn differs(old: &Entity, new: &Entity) -> bool
    ensures { result ≡ differs old.now new.now }
{
    old.kind() != new.kind() || old.is_local() != new.is_local()
}

// Whether the name is the scope's own.
fn is_name_of_scope(scope: &Scope, new: &Entity) -> bool
    ensures { result ≡ is_name_of_scope scope.now new.now }
{
    scope.kind.is_scope() && scope.path.name().eq_ignore_ascii_case(new.path().name())
}

/// The code of the least fault of a declared name.
pub fn declared_code(scope: &Scope, standing: &Standing, new: &Entity) -> Option<Code>
    ensures { result ≡ first (codes_in (declared_table scope.now standing.now new.now)) }
{
    let (is_taken, is_other) = match &standing.there {
        Some(old) => {
            let follows = may_follow(old.get(), new);
            (!follows, follows && differs(old.get(), new))
        }
        None => (false, false),
    };
    let is_own = is_name_of_scope(scope, new);
    first_code(&[
        (is_taken, Code::AlreadyDeclared),
        (is_own, Code::NameOfScope),
        (standing.is_used, Code::DeclaredAfterUse),
        (is_other, Code::OtherForward),
        (
            scope.kind == Kind::Interface && standing.brings_operation,
            Code::DeclaredAgain,
        ),
        (
            scope.kind == Kind::Structure && standing.is_reached,
            Code::ReachedThroughBase,
        ),
        (is_of_other_prefix(&standing.ids), Code::OtherPrefix),
    ])
}

/// Whether what is there already stays as it is.
pub fn stays(there: &Option<Shared<Entity>>, new: &Entity) -> bool
    ensures { result ≡ stays there.now new.now }
{
    match there {
        Some(old) => {
            may_follow(old.get(), new)
                && (new.kind() == Kind::Module || new.stage() == Stage::Ahead)
        }
        None => false,
    }
}
