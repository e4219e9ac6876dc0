//! What a row shows of what is declared so.

ghost use Rattle.std.specs.Prelude.{◌≡◌};
ghost use Rattle.std.specs.Option.{option_copied};
ghost use Rattle.idl_repo.specs.TypeCode.{shown};

use idl_base::Seq;
use idl_entity::{Entity, Member, Path, Signature};

/// The members of what is declared so, or the parameters.
pub fn members_of(entity: &Entity) -> &[Member]
    ensures { result.now ≡ (shown entity.now).members }
{
    match signature_of(entity) {
        Some(signature) => signature.members.as_slice(),
        None => &[],
    }
}

/// What an operation, or the reading of an attribute, raises.
pub fn raised_of(entity: &Entity) -> &[Path]
    ensures { result.now ≡ (shown entity.now).raised }
{
    match signature_of(entity) {
        Some(signature) => signature.raised.as_slice(),
        None => &[],
    }
}

/// What the writing of an attribute raises.
pub fn raised_by_set_of(entity: &Entity) -> &[Path]
    ensures { result.now ≡ (shown entity.now).raised_by_set }
{
    match signature_of(entity) {
        Some(signature) => signature.raised_by_set.as_slice(),
        None => &[],
    }
}

/// The texts of an operation's context.
pub fn contexts_of(entity: &Entity) -> &[Seq<u16>]
    ensures { result.now ≡ (shown entity.now).contexts }
{
    match signature_of(entity) {
        Some(signature) => signature.contexts.as_slice(),
        None => &[],
    }
}

// What it shows behind its name, if that is told.
fn signature_of(entity: &Entity) -> Option<&Signature>
    ensures { option_copied result ≡ entity.now.signature }
{
    match entity.signature() {
        Some(signature) => Some(signature.get()),
        None => None,
    }
}
