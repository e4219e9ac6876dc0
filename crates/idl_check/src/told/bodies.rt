//! What is told inside a unit of what it declares: the members of scopes.

ghost use Rattle.std.specs.Prelude.{◌≡◌, ◌∷◌, ◌++◌, [], IfNone, IfOk, OnOk, drop, option_to_list};
ghost use Rattle.idl_check.specs.told.Bodies.{begun_body, comes_out, goes_in, is_member, nested, told_body, told_innermost, with_array_body, with_array_type, with_body_label, with_last_type, with_member, with_name, with_next_label};

use crate::told::clauses::Clauses;
use crate::told::last_type::LastType;
use idl_base::{Seq, Shared};
use idl_entity::{DataType, Entity, Kind, Member, Stage};
use idl_parts::Declaration;
use idl_tree::declarations::Direction;
use idl_value::Value;
use std::alloc::{AllocError, Global};
use std::marker::Model;
use std::mem::replace;

/// A scope that begins and ends in a unit.
pub struct Body {
    /// What it is of.
    entity: Option<Shared<Entity>>,
    /// The type that was written last before it begins.
    data_type: Option<Shared<DataType>>,
    /// Its members so far.
    members: Vec<Member>,
    /// The labels since the last of them: their values, and nothing for `default`.
    labels: Vec<Option<Value>>,
}

impl Drop for Body {
    fn drop(self) {
        let Body {
            entity: _entity,
            data_type: _data_type,
            members: _members,
            labels: _labels,
        } = self;
    }
}

/// The scopes of a unit around the walk, the innermost first. That one stands in place: most units
/// begin one at a time, which then takes no memory.
#[derive(Drop)]
pub struct Nest {
    innermost: Option<Body>,
    /// Those around the innermost, if there is one.
    around: Vec<Body>,
}

impl Model for Nest {
    ghost use Rattle.std.specs.Prelude.{List};
    ghost use Rattle.idl_check.specs.told.Bodies.{Body as ToldBody, nested};

    ghost Value = { List ToldBody };

    ghost view = { λ nest. nested nest.innermost nest.around.items };
}

impl Model for Body {
    ghost use Rattle.idl_check.specs.told.Bodies.{Body as ToldBody};

    ghost Value = { ToldBody };

    ghost view = { λ body. record {
      entity = body.entity;
      data_type = body.data_type;
      members = body.members.items;
      labels = body.labels.items;
    } };
}

impl Body {
    /// Before the first member of what was declared last, where this type was written last.
    pub fn new(
        alloc: Global,
        entity: &Option<Shared<Entity>>,
        data_type: &LastType,
    ) -> Result<Body, AllocError>
        ensures { IfOk result (λ body. body ≡ begun_body entity.now data_type.now) }
    {
        let entity = entity.clone()?;
        let data_type = data_type.get(alloc)?;
        Ok(Body {
            entity,
            data_type,
            members: Vec::new(alloc),
            labels: Vec::new(alloc),
        })
    }

    // A declared name, if it is a member.
    fn declare(
        &mut self,
        alloc: Global,
        way: Declaration,
        entity: &Entity,
    ) -> Result<(), AllocError>
        ensures { OnOk result (self.new ≡ with_name way entity.now self.old) }
    {
        if !is_member(entity.kind()) {
            return Ok(());
        }
        let name = entity.path().spelling(alloc)?;
        let data_type = entity.data_type().clone()?;
        let labels = replace(&mut self.labels, Vec::new(alloc));
        if self.members.is_empty() {
            self.members.reserve_exact(room_for(entity.kind()))?;
        }
        self.members.push(Member {
            name,
            data_type,
            labels: Seq::from_vec(labels),
            goes_in: goes_in(way),
            comes_out: comes_out(way),
        })?;
        Ok(())
    }

    // A label.
    fn label(&mut self, label: Option<Value>) -> Result<(), AllocError>
        ensures { OnOk result (self.new ≡ with_next_label label self.old) }
    {
        self.labels.push(label)?;
        Ok(())
    }

    // What was declared last is this array.
    fn make_array(&mut self, array: &Entity) -> Result<(), AllocError>
        ensures { OnOk result (self.new ≡ with_array_type array.now self.old) }
    {
        if array.kind() != Kind::Member {
            return Ok(());
        }
        set_last_type(&mut self.members, array.data_type().clone()?);
        Ok(())
    }

    // What it is of, once it ends.
    fn told(self, alloc: Global, clauses: &Clauses) -> Result<Option<Shared<Entity>>, AllocError>
        ensures { IfOk result (λ entity. option_to_list entity ≡ told_body clauses.now self) }
    {
        let Body {
            entity,
            data_type,
            mut members,
            labels: _labels,
        } = self;
        let Some(entity) = entity else {
            return Ok(None);
        };
        let mut told = entity.get().clone()?;
        told.set_stage(Stage::Complete);
        if told.kind() == Kind::Union {
            told.set_data_type(data_type);
        }
        members.shrink_to_fit();
        told.set_signature(alloc, clauses.signature(alloc, members)?)?;
        Ok(Some(Shared::new(alloc, told)?))
    }
}

impl Nest {
    /// None. It takes no memory.
    pub fn new(alloc: Global) -> Nest
        ensures { result ≡ [] }
    {
        Nest {
            innermost: None,
            around: Vec::new(alloc),
        }
    }

    /// This one begins.
    pub fn begin(&mut self, body: Body) -> Result<(), AllocError>
        ensures { OnOk result (self.new ≡ body ∷ self.old) }
    {
        match self.innermost.replace(body) {
            Some(outer) => self.around.insert(0, outer)?,
            None => self.around.clear(),
        }
        Ok(())
    }

    // The innermost ends, if there is one.
    fn end(&mut self) -> Option<Body>
        ensures some { self.old ≡ option_to_list result ++ self.new }
        ensures none { IfNone result (self.old ≡ []) }
    {
        let body = self.innermost.take()?;
        self.innermost = take_first(&mut self.around);
        Some(body)
    }
}

/// Puts a declared name into the innermost of these scopes, if it is a member.
pub fn declare_member(
    alloc: Global,
    bodies: &mut Nest,
    way: Declaration,
    entity: &Entity,
) -> Result<(), AllocError>
    ensures { OnOk result (bodies.new ≡ with_member way entity.now bodies.old) }
{
    match &mut bodies.innermost {
        Some(body) => body.declare(alloc, way, entity),
        None => Ok(()),
    }
}

/// Puts a label into the innermost of these scopes.
pub fn label_member(bodies: &mut Nest, label: Option<Value>) -> Result<(), AllocError>
    ensures { OnOk result (bodies.new ≡ with_body_label label bodies.old) }
{
    match &mut bodies.innermost {
        Some(body) => body.label(label),
        None => Ok(()),
    }
}

/// What was declared last in the innermost of these scopes is this array.
pub fn make_array(bodies: &mut Nest, array: &Entity) -> Result<(), AllocError>
    ensures { OnOk result (bodies.new ≡ with_array_body array.now bodies.old) }
{
    match &mut bodies.innermost {
        Some(body) => body.make_array(array),
        None => Ok(()),
    }
}

/// The innermost of these scopes ends: what it is of has begun.
pub fn end_innermost(
    alloc: Global,
    bodies: &mut Nest,
    clauses: &Clauses,
    begun: &mut Seq<Shared<Entity>>,
) -> Result<(), AllocError>
    ensures begun { OnOk result
        (begun.new ≡ begun.old ++ told_innermost clauses.now bodies.old) }
    ensures bodies { OnOk result (bodies.new ≡ drop 1 bodies.old) }
{
    let Some(body) = bodies.end() else {
        return Ok(());
    };
    let Some(told) = body.told(alloc, clauses)? else {
        return Ok(());
    };
    begun.push(told)?;
    Ok(())
}

// Takes out the first of these scopes, if there is one.
fn take_first(bodies: &mut Vec<Body>) -> Option<Body>
    ensures { bodies.old.items ≡ nested result bodies.new.items }
{
    if bodies.is_empty() {
        return None;
    }
    Some(bodies.remove(0))
}

// The last of these members has this type.
fn set_last_type(members: &mut Vec<Member>, data_type: Option<Shared<DataType>>)
    ensures { members.new.items ≡ with_last_type data_type members.old.items }
{
    if let Some(member) = members.last_mut() {
        member.data_type = data_type;
    }
}

// As many members as most operations, or most structs, have at the least.
fn room_for(kind: Kind) -> usize {
    if kind == Kind::Parameter { 2 } else { 4 }
}

// Whether it is a member or a parameter.
fn is_member(kind: Kind) -> bool
    ensures { result ≡ is_member kind }
{
    kind == Kind::Member || kind == Kind::Parameter
}

// Whether it is a parameter that goes in.
fn goes_in(way: Declaration) -> bool
    ensures { result ≡ goes_in way }
{
    match way {
        Declaration::Parameter(Direction::In) | Declaration::Parameter(Direction::InOut) => true,
        _ => false,
    }
}

// Whether it is a parameter that comes out.
fn comes_out(way: Declaration) -> bool
    ensures { result ≡ comes_out way }
{
    match way {
        Declaration::Parameter(Direction::Out) | Declaration::Parameter(Direction::InOut) => true,
        _ => false,
    }
}
