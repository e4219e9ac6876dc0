//! The parts of the text of a block.

ghost use Rattle.std.specs.Prelude.{◌≡◌, IfOk};
ghost use Rattle.std.specs.Option.{option_to_list};
ghost use Rattle.std.proofs.Common.{ap};
ghost use Rattle.idl_root_blocks.specs.Blocks.{is_enclosed};
ghost use Rattle.idl_root_blocks.specs.Units.{parts_of_unit, text_of};
ghost use Rattle.idl_root_blocks.specs.declared.text.BlockPart.TheVariants.{Text, Enters, Leaves};

use crate::block_text::BlockText;
use idl_base::Datum;
use idl_unit::{Unit, UnitText};
use std::alloc::{AllocError, Global};
use std::hash::{Hash, Hasher};

/// A part of a block: a unit with tokens, or the boundary of a file that it includes and whether that stands inside a unit of
/// tokens. Files have no names here.
#[derive(Clone, PartialEq, Eq, PartialOrd, Ord, Drop)]
pub enum BlockPart {
    /// A unit with tokens.
    Text(UnitText),
    /// A file is entered.
    Enters(bool),
    /// A file is left.
    Leaves(bool),
}

impl BlockPart {
    // Whether it is a boundary around which a unit is.
    pub(crate) fn is_enclosed(&self) -> bool
        ensures { result ≡ is_enclosed self.now }
    {
        match self {
            BlockPart::Text(_unit) => false,
            BlockPart::Enters(inside) | BlockPart::Leaves(inside) => *inside,
        }
    }
}

// What units are around is not hashed, so that texts in which that alone differs are found together.
impl Hash for BlockPart {
    ghost use Rattle.idl_root_blocks.specs.Blocks.{part_writes};
    ghost use Rattle.std.specs.Prelude.{refl};
    ghost use Rattle.idl_unit.specs.contracts.unit.UnitTextDatum.TheImpl.Laws.{same-law};

    ghost hash_input = { part_writes };

    ghost respects_eq = { elim [
      | Text a ↦ elim [ Text b ↦ λ h. ap part_writes (ap Text (same-law a b h)) | Enters b ↦ λ h. cc | Leaves b ↦ λ h. cc ]
      | Enters a ↦ elim [ Text b ↦ λ h. cc | Enters b ↦ λ h. refl | Leaves b ↦ λ h. cc ]
      | Leaves a ↦ elim [ Text b ↦ λ h. cc | Enters b ↦ λ h. cc | Leaves b ↦ λ h. refl ]
    ] };

    fn hash<H: Hasher>(&self, state: &mut H) {
        match self {
            BlockPart::Text(unit) => unit.hash(state),
            BlockPart::Enters(_inside) => state.write_u8(0),
            BlockPart::Leaves(_inside) => state.write_u8(1),
        }
    }
}

impl Datum for BlockPart {
    ghost use Rattle.idl_base.specs.Exact.{same_bool};
    ghost use Rattle.idl_unit.specs.contracts.unit.UnitTextDatum.TheImpl.Laws.{copy-law, same-law};

    ghost same = { elim [
      | Text a ↦ elim [ Text b ↦ λ h. ap Text (same-law a b h) | Enters b ↦ λ h. cc | Leaves b ↦ λ h. cc ]
      | Enters a ↦ elim [ Text b ↦ λ h. cc | Enters b ↦ λ h. ap Enters (same_bool a b h) | Leaves b ↦ λ h. cc ]
      | Leaves a ↦ elim [ Text b ↦ λ h. cc | Enters b ↦ λ h. cc | Leaves b ↦ λ h. ap Leaves (same_bool a b h) ]
    ] };

    ghost copy = { elim [
      | Text a ↦ elim [ Text b ↦ λ h. ap Text (copy-law a b h) | Enters b ↦ λ h. absurd h | Leaves b ↦ λ h. absurd h ]
      | Enters a ↦ elim [ Text b ↦ λ h. absurd h | Enters b ↦ λ h. ap Enters h | Leaves b ↦ λ h. absurd h ]
      | Leaves a ↦ elim [ Text b ↦ λ h. absurd h | Enters b ↦ λ h. absurd h | Leaves b ↦ λ h. ap Leaves h ]
    ] };
}

/// The text of these units.
#[tactic(auto, using(crate::proofs::Units::text_next))]
pub fn text_of(alloc: Global, units: &[Unit]) -> Result<BlockText, AllocError>
    ensures { IfOk result (λ text. text ≡ text_of units.now) }
{
    let mut parts = Vec::with_capacity(alloc, units.len())?;
    for unit in units {
        if let Some(part) = part_of(unit)? {
            parts.push(part)?;
        }
    }
    BlockText::new(alloc, parts)
}

// What a unit is in a text, if it is in it.
fn part_of(unit: &Unit) -> Result<Option<BlockPart>, AllocError>
    ensures { IfOk result (λ part. option_to_list part ≡ parts_of_unit unit.now) }
{
    match unit {
        Unit::Spelled(text, _sites) => Ok(Some(BlockPart::Text(text.clone()?))),
        Unit::Entered(_file, inside) => Ok(Some(BlockPart::Enters(*inside))),
        Unit::Left(_file, inside) => Ok(Some(BlockPart::Leaves(*inside))),
        Unit::End => Ok(None),
    }
}
