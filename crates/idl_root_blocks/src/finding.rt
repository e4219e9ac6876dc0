//! How blocks are found among units.

ghost use Rattle.std.specs.Prelude.{◌≡◌, ◌++◌, ◌+◌, ◌-◌, ◌^◌, ◌<◌, ◌≤◌, IfNone, IfSome, length};
ghost use Rattle.std.specs.Option.{option_map};
ghost use Rattle.idl_block.specs.Blocks.{Text as UnitPart};
ghost use Rattle.idl_root_blocks.specs.verdicts.Standing.{part_step};
ghost use Rattle.idl_block.specs.facts.Beneath.{deepened};
ghost use Rattle.idl_root_blocks.specs.Blocks.{Block, cut, depth_behind, level, split_from};
ghost use Rattle.idl_root_blocks.specs.Finding.{IsFirstBlock, IsLeftBehind, blocks_in, depth_of, in_front, left_by, texts_in};
ghost use Rattle.idl_root_blocks.specs.Units.{parts_of_unit, text_of};

use idl_unit::{Unit, UnitText};

/// The units of the block that begins with a unit, if one does, and those behind its leaving: as the text is cut.
pub fn block_at<'a>(unit: &Unit, behind: &'a [Unit]) -> Option<(&'a [Unit], &'a [Unit])>
    ensures some { IfSome result (λ b. cut (parts_of_unit unit.now ++ text_of behind.now)
        ≡ Block (cut (text_of b.0.now)) (cut (text_of b.1.now))) }
    ensures none { IfNone result (cut (parts_of_unit unit.now ++ text_of behind.now)
        ≡ in_front (parts_of_unit unit.now) (cut (text_of behind.now))) }
    ensures units { IfSome result (λ b. IsFirstBlock unit.now behind.now b.0.now b.1.now) }
    ensures fewer { IfSome result (λ b. length b.0.now + length b.1.now < length behind.now) }
{
    match unit {
        Unit::Entered(_file, is_inside) => {
            if *is_inside {
                return None;
            }
            inside_of(behind)
        }
        Unit::Spelled(_text, _sites) => None,
        Unit::Left(_file, _is_inside) => None,
        Unit::End => None,
    }
}

/// How many of these units have tokens.
#[tactic(auto, using(crate::proofs::Units::texts_next))]
pub fn texts_in(units: &[Unit]) -> usize
    ensures { result ≡ texts_in (text_of units.now) }
{
    let mut count = 0;
    for unit in units {
        if let Unit::Spelled(_text, _sites) = unit {
            count += 1;
        }
    }
    count
}

/// How many blocks there are among these units, those in blocks too.
pub fn blocks_in(units: &[Unit]) -> usize
    ensures blocks { result ≡ blocks_in (cut (text_of units.now)) }
    ensures few { result ≤ length units.now }
{
    let mut count = 0;
    let mut left = units;
    'units: while let Some((unit, behind)) = left.split_first() {
        match block_at(unit, behind) {
            Some((inside, others)) => {
                count += blocks_in(inside) + 1;
                left = others;
            }
            None => left = behind,
        }
    }
    count
}

// The units up to where the file is left that they stand in, if they are a block's, and those behind its leaving.
fn inside_of(units: &[Unit]) -> Option<(&[Unit], &[Unit])>
    ensures found { option_map (λ b. record { inside = text_of b.0.now; behind = text_of b.1.now }) result
        ≡ split_from level (text_of units.now) }
    ensures units { IfSome result (λ b. IsLeftBehind units.now b.0.now b.1.now) }
    ensures fewer { IfSome result (λ b. length b.0.now + length b.1.now < length units.now) }
{
    let mut depth = OpenCounts {
        scopes: 0,
        files: 0,
    };
    for place in 0..units.len() {
        let unit = &units[place];
        if let Some(is_inside) = depth.left_by(unit) {
            if is_inside {
                return None;
            }
            return Some((&units[..place], &units[place + 1..]));
        }
        depth = depth.behind(unit)?;
    }
    None
}

// How many scopes and files are open among the units of a block.
#[derive(Clone, Copy)]
struct OpenCounts {
    scopes: usize,
    files: usize,
}

impl OpenCounts {
    // Where a unit leaves the block's own file, whether that stands inside a unit of tokens.
    fn left_by(self, unit: &Unit) -> Option<bool>
        ensures { result ≡ left_by self.files (parts_of_unit unit.now) }
    {
        match unit {
            Unit::Left(_file, is_inside) => {
                if self.files == 0 {
                    Some(*is_inside)
                } else {
                    None
                }
            }
            Unit::Spelled(_text, _sites) => None,
            Unit::Entered(_file, _is_inside) => None,
            Unit::End => None,
        }
    }

    // How many are open behind a unit; nothing where it closes or leaves what was there before the block.
    #[tactic(auto, using(crate::proofs::Scans::left_files, crate::proofs::Scans::no_files, crate::proofs::Scans::text_depth))]
    fn behind(self, unit: &Unit) -> Option<OpenCounts>
        requires scopes { self.scopes < 2 ^ 64 - 1 }
        requires files { self.files < 2 ^ 64 - 1 }
        ensures { option_map depth_of result ≡ depth_behind (depth_of self) (parts_of_unit unit.now) }
    {
        let OpenCounts { scopes, files } = self;
        match unit {
            Unit::Spelled(text, _sites) => self.behind_text(text),
            Unit::Entered(_file, _is_inside) => {
                let files = files + 1;
                Some(OpenCounts { scopes, files })
            }
            Unit::Left(_file, _is_inside) => {
                if files == 0 {
                    return None;
                }
                let files = files - 1;
                Some(OpenCounts { scopes, files })
            }
            Unit::End => Some(self),
        }
    }

    // The same of a unit with tokens.
    #[tactic(auto, using(crate::proofs::Scans::opens, crate::proofs::Scans::closes, crate::proofs::Scans::closes_none, crate::proofs::Scans::stands))]
    fn behind_text(self, text: &UnitText) -> Option<OpenCounts>
        requires { self.scopes < 2 ^ 64 - 1 }
        ensures { option_map depth_of result ≡ deepened (depth_of self) (part_step (UnitPart text.now)) }
    {
        let OpenCounts { scopes, files } = self;
        if text.is_opening() {
            let scopes = scopes + 1;
            return Some(OpenCounts { scopes, files });
        }
        if text.is_closing() {
            if scopes == 0 {
                return None;
            }
            let scopes = scopes - 1;
            return Some(OpenCounts { scopes, files });
        }
        Some(self)
    }
}
