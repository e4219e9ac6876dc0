//! Types: what constants may be of, what may discriminate a union, and what is not yet complete.

ghost use Rattle.std.specs.Prelude.{◌≡◌, ℕ, suc, IfOk};
ghost use Rattle.std.specs.Option.{option_copied, option_map};
ghost use Rattle.idl_check.specs.told.Types.{aliased, behind_typedefs, bound_or_none, constants_of, element_of, looked_through, may_switch, path_in, string_of, written_as};
ghost use Rattle.idl_check.specs.tables.Rules.{is_incomplete};
ghost use Rattle.idl_memo.specs.Query.{run};
ghost use Rattle.idl_entity.specs.DataType.{constants_in, with_layer};
ghost use Rattle.idl_env.specs.Facts.{answers};
ghost use Rattle.idl_env.specs.keys.Key.{key_eq};
ghost use Rattle.idl_scope.specs.Lookup.{under};
ghost use Rattle.idl_env.specs.Turns.{HasTurnsFor};
ghost use Rattle.idl_entity.specs.declared.data_type.Layer.TheVariants.{Sequence};

use crate::told::last_type::LastType;
use idl_base::{Bytes, Seq, Shared};
use idl_entity::{DataType, Element, Entity, Kind, Layer, Path, Stage, Unvalued};
use idl_env::Env;
use idl_memo::Journal;
use idl_parts::{Shape, Use};
use idl_scope::View;
use idl_tree::declarations::BasicType;
use idl_value::ConstantType;
use std::alloc::{AllocError, Global};

/// Whether it may stand only as the element of a sequence as yet.
pub fn is_incomplete(entity: &Entity) -> bool
    ensures { result ≡ is_incomplete entity.now }
{
    (entity.kind() == Kind::Structure || entity.kind() == Kind::Union)
        && entity.stage() != Stage::Complete
}

/// What stands behind a name that is used so and denotes this: through typedefs, each of which is
/// asked, where it is the type of a constant or a discriminator.
#[tactic(auto, unfolding(crate::specs::told::Types::looked_through))]
pub fn looked_through(
    view: View<'_>,
    log: &mut Journal<Env>,
    way: Use,
    entity: &Shared<Entity>,
) -> Result<Shared<Entity>, AllocError>
    ensures { IfOk result (λ behind. (turns : ℕ)
        → HasTurnsFor view.entry.env.now view.entry.own.now.additions turns
        → (behind, log.new)
        ≡ run key_eq (under view.entry.own.now.additions (looked_through turns way entity.now))
        (answers view.entry.env.now) log.old) }
{
    match way {
        Use::AsConstantType | Use::AsDiscriminator => behind_typedefs(view, log, entity),
        _ => entity.clone(),
    }
}

// What stands behind a name through typedefs. A chain that ends has each entity that is declared once.
fn behind_typedefs(
    view: View<'_>,
    log: &mut Journal<Env>,
    entity: &Shared<Entity>,
) -> Result<Shared<Entity>, AllocError>
    ensures { IfOk result (λ behind. (turns : ℕ)
        → HasTurnsFor view.entry.env.now view.entry.own.now.additions turns
        → (behind, log.new)
        ≡ run key_eq
        (under view.entry.own.now.additions (behind_typedefs (suc turns) entity.now entity.now))
        (answers view.entry.env.now) log.old) }
{
    let turns = view.most_declared() + 1;
    let mut behind = entity.clone()?;
    for _turn in 0..turns {
        let Some(path) = path_in(behind.get()) else {
            return Ok(behind);
        };
        let Some(next) = view.standing_at(log, path)? else {
            return Ok(behind);
        };
        behind = next.clone()?;
    }
    entity.clone()
}

// The type that the name of a typedef stands for.
fn aliased(entity: &Entity) -> Option<&DataType>
    ensures { option_copied result ≡ aliased entity.now }
{
    match entity.data_type() {
        Some(data_type) if entity.kind() == Kind::Alias => Some(data_type.get()),
        _ => None,
    }
}

// The path that the name of a typedef stands for, if it stands for one.
fn path_in(entity: &Entity) -> Option<&Path>
    ensures { option_copied result ≡ path_in (aliased entity.now) }
{
    aliased(entity)?.named()
}

/// The type that constants of it have.
pub fn constants_of(alloc: Global, entity: &Entity) -> Result<Option<ConstantType>, AllocError>
    ensures { IfOk result (λ target. target ≡ constants_of entity.now) }
{
    if entity.kind() == Kind::Enumeration {
        return Ok(Some(ConstantType::Enumeration(names_of(alloc, entity.path())?)));
    }
    match aliased(entity) {
        Some(data_type) => target_in(data_type),
        None => Ok(None),
    }
}

/// The type that constants of a type have.
pub fn target_in(data_type: &DataType) -> Result<Option<ConstantType>, AllocError>
    ensures { IfOk result (λ target. target ≡ constants_in data_type.now) }
{
    match data_type.constants() {
        Some(target) => Ok(Some(target.clone()?)),
        None => Ok(None),
    }
}

/// The names of a path.
pub fn names_of(alloc: Global, path: &Path) -> Result<Seq<Bytes>, AllocError>
    ensures { IfOk result (λ names. names ≡ path.now) }
{
    Ok(Seq::from_vec(path.names(alloc)?))
}

/// Whether a union may have a discriminator of this type.
pub fn may_switch(target: &Option<ConstantType>) -> bool
    ensures { result ≡ may_switch target.now }
{
    match target {
        Some(target) => target.discriminates(),
        None => false,
    }
}

/// What a type is that is no name, where the last bound in it is this; a sequence is one of the type
/// that was written last.
pub fn written_as(
    env: &Env,
    shape: Shape,
    bound: Option<u32>,
    before: &LastType,
) -> Result<Option<Shared<DataType>>, AllocError>
    ensures { IfOk result (λ t. t ≡ written_as shape bound before.now) }
{
    let element = match shape {
        Shape::Basic(basic) => element_of(basic),
        Shape::Text(is_wide, true) => Element::Constants(string_of(is_wide, bound)),
        Shape::Text(is_wide, false) => Element::Constants(string_of(is_wide, None)),
        Shape::Sequence(is_bounded) => {
            let bound = bound_or_none(is_bounded, bound);
            return sequence_of(env.alloc(), bound, before);
        }
    };
    Ok(Some(env.plain(element)?))
}

// A sequence of a type, if there is one.
fn sequence_of(
    alloc: Global,
    bound: u32,
    before: &LastType,
) -> Result<Option<Shared<DataType>>, AllocError>
    ensures { IfOk result (λ t. t ≡ option_map (with_layer (Sequence bound)) before.now) }
{
    match before.get(alloc)? {
        Some(element) => Ok(Some(element.get().within(alloc, Layer::Sequence(bound))?)),
        None => Ok(None),
    }
}

// The bound of a sequence, or 0 if it has none.
fn bound_or_none(is_bounded: bool, bound: Option<u32>) -> u32
    ensures { result ≡ bound_or_none is_bounded bound }
{
    match bound {
        Some(bound) if is_bounded => bound,
        _ => 0,
    }
}

// A type of keywords.
fn element_of(basic: BasicType) -> Element
    ensures { result ≡ element_of basic }
{
    match basic {
        BasicType::Discrete(discrete) => Element::Constants(ConstantType::of_keywords(discrete)),
        BasicType::Float => Element::Unvalued(Unvalued::Float),
        BasicType::Double => Element::Unvalued(Unvalued::Double),
        BasicType::LongDouble => Element::Unvalued(Unvalued::LongDouble),
        BasicType::Any => Element::Unvalued(Unvalued::Any),
        BasicType::Object => Element::Unvalued(Unvalued::Object),
    }
}

// A string type with this bound.
fn string_of(is_wide: bool, bound: Option<u32>) -> ConstantType
    ensures { result ≡ string_of is_wide bound }
{
    if is_wide {
        ConstantType::WideText(bound)
    } else {
        ConstantType::Text(bound)
    }
}
