//! Names in rules: which can stand there, and how they are written.

ghost use Rattle.std.specs.Prelude.{◌≡◌, ◌++◌, OnOk};
ghost use Rattle.std.specs.List.{list_all};
ghost use Rattle.idl_tool.specs.make_rules.Make.{IfThere, There, escaped, escaped_byte, is_capital, is_make_byte, is_make_name, is_special, need_text, target_text};

use std::alloc::AllocError;

/// Whether a rule can have this name in it, so that make reads it.
///
/// make gives a meaning to other bytes than these, to a `~` that comes first, which is a home, and to names as `.PHONY`.
pub fn is_make_name(name: &[u8]) -> bool
    ensures { result ≡ is_make_name name.now }
{
    match name.first() {
        None | Some(b'~') => false,
        Some(_) => are_make_bytes(name) && !is_special(name),
    }
}

/// Writes a name that a target stands on, behind a blank.
pub fn push_need(name: &[u8], out: &mut Vec<u8>) -> Result<(), AllocError>
    ensures { OnOk result (out.new.items ≡ out.old.items ++ need_text (There name.now)) }
{
    out.extend_from_slice(b" ")?;
    push_name(name, out)
}

/// Writes a name that a target stands on if it is there, behind a blank.
pub fn push_need_if_there(name: &[u8], out: &mut Vec<u8>) -> Result<(), AllocError>
    ensures { OnOk result (out.new.items ≡ out.old.items ++ need_text (IfThere name.now)) }
{
    out.extend_from_slice(b" $(wildcard ")?;
    push_name(name, out)?;
    out.extend_from_slice(b")")
}

/// Writes a target and the colon behind it.
pub fn push_target(name: &[u8], out: &mut Vec<u8>) -> Result<(), AllocError>
    ensures { OnOk result (out.new.items ≡ out.old.items ++ target_text name.now) }
{
    'bytes: for byte in name {
        if *byte == b'%' {
            out.extend_from_slice(b"\\")?;
        }
        push_byte(*byte, out)?;
    }
    out.extend_from_slice(b":")
}

fn push_name(name: &[u8], out: &mut Vec<u8>) -> Result<(), AllocError>
    ensures { OnOk result (out.new.items ≡ out.old.items ++ escaped name.now) }
{
    'bytes: for byte in name {
        push_byte(*byte, out)?;
    }
    Ok(())
}

// Writes a byte of a name, with a mark before it where it means something to make.
fn push_byte(byte: u8, out: &mut Vec<u8>) -> Result<(), AllocError>
    ensures { OnOk result (out.new.items ≡ out.old.items ++ escaped_byte byte) }
{
    match byte {
        b'$' => out.extend_from_slice(b"$$"),
        b'#' => out.extend_from_slice(b"\\#"),
        _ => out.extend_from_slice(&[byte]),
    }
}

fn are_make_bytes(name: &[u8]) -> bool
    ensures { result ≡ list_all is_make_byte name.now }
{
    'bytes: for byte in name {
        if !is_make_byte(*byte) {
            return false;
        }
    }
    true
}

fn is_make_byte(byte: u8) -> bool
    ensures { result ≡ is_make_byte byte }
{
    byte.is_ascii_alphanumeric() || MARKS.contains(&byte)
}

// What a name may have beside letters and digits.
const MARKS: &[u8] = b"_./+-,@!~$#%";

// Whether it is as `.PHONY`.
fn is_special(name: &[u8]) -> bool
    ensures { result ≡ is_special name.now }
{
    match name.split_first() {
        Some((b'.', word)) => are_capitals(word),
        _ => false,
    }
}

fn are_capitals(word: &[u8]) -> bool
    ensures { result ≡ list_all is_capital word.now }
{
    'bytes: for byte in word {
        if !(byte.is_ascii_uppercase() || *byte == b'_') {
            return false;
        }
    }
    true
}
