//! What is kept of units and names, read at its own type: whoever calls these names no bank, and meets no bounds.

ghost use Rattle.std.specs.Prelude.{◌≡◌, length};
ghost use Rattle.std.specs.Option.{option_copied};
ghost use Rattle.idl_store.specs.Stored.{result_at};

use crate::kept::keeper::{Entries, KeptEntry};
use idl_env::Env;
use idl_kept::KeptDeclaration;
use idl_memo::KeptLog;
use idl_root_blocks::idl_check::Verdict;
use idl_unit::UnitText;

/// The entry at a place of a list, or nothing where there is none.
#[inline(always)]
pub fn entry_at(kept: &Entries, list: usize, place: usize) -> Option<&KeptEntry>
    ensures { option_copied result ≡ result_at kept.now list place }
{
    kept.get(list, place)
}

/// How many keys were asked for an entry.
#[inline(always)]
pub fn entry_keys(entry: &KeptEntry) -> usize
    ensures { result ≡ length entry.now.log }
{
    keys_in(entry.log())
}

/// The text of a unit.
#[inline(always)]
pub fn unit_text(unit: &KeptDeclaration) -> &UnitText
    ensures { result.now ≡ unit.now.text }
{
    unit.text()
}

/// The verdict of a unit.
#[inline(always)]
pub fn kept_verdict(unit: &KeptDeclaration) -> &Verdict
    ensures { result.now ≡ unit.now.out }
{
    unit.out()
}

/// The keys asked for a unit, with their answers.
#[inline(always)]
pub fn unit_log(unit: &KeptDeclaration) -> &KeptLog<Env>
    ensures { result.now ≡ unit.now.log }
{
    unit.log()
}

/// How many keys were asked for a unit.
#[inline(always)]
pub fn unit_keys(unit: &KeptDeclaration) -> usize
    ensures { result ≡ length unit.now.log }
{
    keys_in(unit_log(unit))
}

/// How many keys a log has.
#[inline(always)]
pub fn keys_in(log: &KeptLog<Env>) -> usize
    ensures { result ≡ length log.now }
{
    log.len()
}
