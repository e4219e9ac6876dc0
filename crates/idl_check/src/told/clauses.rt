//! What the clauses behind an operation or an attribute say.

ghost use Rattle.std.specs.Prelude.{◌≡◌, ◌++◌, ◌&&◌, IfOk, OnOk};
ghost use Rattle.idl_check.specs.told.Bodies.{is_nothing, no_clauses, raises, raising, signature_of, with_raised, with_text};
ghost use Rattle.idl_entity.specs.Kind.{kind_eq};
ghost use Rattle.idl_entity.specs.declared.kind.Kind.TheVariants.{Attribute};

use idl_base::{Seq, Shared};
use idl_entity::{Entity, Kind, Member, Path, Signature};
use idl_parts::{TextPurpose, Use};
use idl_tree::Several;
use idl_value::joined;
use std::alloc::{AllocError, Global};
use std::marker::Model;

/// What the clauses behind an operation or an attribute say. Most units have none, which takes no
/// memory.
#[derive(Drop)]
pub struct Clauses {
    alloc: Global,
    told: Option<Box<ClausesSoFar>>,
}

// The same of a unit that has some.
struct ClausesSoFar {
    /// The paths of the exceptions that are raised.
    raised: Vec<Path>,
    /// The paths of those that the writing of an attribute raises.
    raised_by_set: Vec<Path>,
    /// The texts of a context.
    contexts: Vec<Seq<u16>>,
}

impl Drop for ClausesSoFar {
    fn drop(self) {
        let ClausesSoFar {
            raised: _raised,
            raised_by_set: _raised_by_set,
            contexts: _contexts,
        } = self;
    }
}

impl Model for Clauses {
    ghost use Rattle.idl_check.specs.told.Bodies.{Clauses as ToldClauses, no_clauses};
    ghost use Rattle.idl_check.specs.Apart.{boxed_or};

    ghost Value = { ToldClauses };

    ghost view = { λ clauses. boxed_or no_clauses clauses.told };
}

impl Model for ClausesSoFar {
    ghost use Rattle.idl_check.specs.told.Bodies.{Clauses as ToldClauses};

    ghost Value = { ToldClauses };

    ghost view = { λ told. record {
      raised = told.raised.items;
      raised_by_set = told.raised_by_set.items;
      contexts = told.contexts.items;
    } };
}

impl Clauses {
    /// Before the first. It takes no memory.
    pub fn new(alloc: Global) -> Clauses
        ensures { result ≡ no_clauses }
    {
        Clauses { alloc, told: None }
    }

    /// The path of what a name denotes that is used so.
    pub fn add_raised(&mut self, way: Use, path: &Path) -> Result<(), AllocError>
        ensures { OnOk result (self.new ≡ with_raised way path.now self.old) }
    {
        match way {
            Use::Raised | Use::RaisedBySet => {
                let mut told = self.take()?;
                told.add_raised(way, path)?;
                self.told = Some(told);
                Ok(())
            }
            _ => Ok(()),
        }
    }

    /// String literals, which are joined, if they are of a context.
    pub fn add_text(
        &mut self,
        alloc: Global,
        purpose: TextPurpose,
        text: &Several<Seq<u16>>,
    ) -> Result<(), AllocError>
        ensures { OnOk result (self.new ≡ with_text purpose text.now self.old) }
    {
        match purpose {
            TextPurpose::Context => {
                let mut told = self.take()?;
                told.contexts.push(joined(alloc, text)?)?;
                self.told = Some(told);
                Ok(())
            }
            TextPurpose::Id | TextPurpose::Prefix => Ok(()),
        }
    }

    // Those so far.
    #[inline(never)]
    fn take(&mut self) -> Result<Box<ClausesSoFar>, AllocError>
        ensures { IfOk result (λ told. told.value ≡ self.old) }
    {
        match self.told.take() {
            Some(told) => Ok(told),
            None => Ok(Box::new(self.alloc, ClausesSoFar::new(self.alloc))?),
        }
    }

    // Whether reading or writing raises something.
    fn raises(&self) -> bool
        ensures { result ≡ raises self.now }
    {
        match &self.told {
            Some(told) => told.raises(),
            None => false,
        }
    }

    // Whether it is an attribute that raises something.
    fn is_raising(&self, entity: &Entity) -> bool
        ensures { result ≡ (kind_eq entity.now.kind Attribute && raises self.now) }
    {
        entity.kind() == Kind::Attribute && self.raises()
    }

    /// Puts in the attribute that was declared last, if it raises something.
    pub fn add_raising(
        &self,
        begun: &mut Seq<Shared<Entity>>,
        last: &Option<Shared<Entity>>,
    ) -> Result<(), AllocError>
        ensures { OnOk result (begun.new ≡ begun.old ++ raising last.now self.now) }
    {
        let Some(entity) = last else {
            return Ok(());
        };
        if !self.is_raising(entity.get()) {
            return Ok(());
        }
        begun.push(entity.clone()?)?;
        Ok(())
    }

    /// What a name shows that has these members and clauses.
    pub fn signature(
        &self,
        alloc: Global,
        members: Vec<Member>,
    ) -> Result<Shared<Signature>, AllocError>
        ensures { IfOk result (λ s. s ≡ signature_of members.items self.now) }
    {
        match &self.told {
            Some(told) => told.signature(alloc, members),
            None => Shared::new(
                alloc,
                Signature {
                    members: Seq::from_vec(members),
                    raised: Seq::new(alloc),
                    raised_by_set: Seq::new(alloc),
                    contexts: Seq::new(alloc),
                },
            ),
        }
    }
}

impl ClausesSoFar {
    // Before the first. It takes no memory.
    fn new(alloc: Global) -> ClausesSoFar
        ensures { result ≡ no_clauses }
    {
        ClausesSoFar {
            raised: Vec::new(alloc),
            raised_by_set: Vec::new(alloc),
            contexts: Vec::new(alloc),
        }
    }

    // The path of what a name denotes that is used so.
    fn add_raised(&mut self, way: Use, path: &Path) -> Result<(), AllocError>
        ensures { OnOk result (self.new ≡ with_raised way path.now self.old) }
    {
        match way {
            Use::Raised => self.raised.push(path.clone()?)?,
            Use::RaisedBySet => self.raised_by_set.push(path.clone()?)?,
            _ => {}
        }
        Ok(())
    }

    // Whether reading or writing raises something.
    fn raises(&self) -> bool
        ensures { result ≡ raises self.now }
    {
        !(is_nothing(self.raised.as_slice()) && is_nothing(self.raised_by_set.as_slice()))
    }

    // What a name shows that has these members and clauses.
    #[inline(never)]
    fn signature(
        &self,
        alloc: Global,
        members: Vec<Member>,
    ) -> Result<Shared<Signature>, AllocError>
        ensures { IfOk result (λ s. s ≡ signature_of members.items self.now) }
    {
        let raised = Seq::from_vec(Vec::from_clones(alloc, self.raised.as_slice())?);
        let raised_by_set = Seq::from_vec(Vec::from_clones(alloc, self.raised_by_set.as_slice())?);
        let contexts = Seq::from_vec(Vec::from_clones(alloc, self.contexts.as_slice())?);
        let signature = Signature {
            members: Seq::from_vec(members),
            raised,
            raised_by_set,
            contexts,
        };
        Shared::new(alloc, signature)
    }
}

// Whether there is none.
fn is_nothing(paths: &[Path]) -> bool
    ensures { result ≡ is_nothing paths.now }
{
    paths.is_empty()
}
