//! How values are written.

ghost use Rattle.std.specs.Prelude.{◌≡◌, ◌∷◌, ◌++◌, OnOk, codes, true};
ghost use Rattle.std.specs.Fmt.{signed_decimal};
ghost use Rattle.idl_value.specs.Spelled.{character_text, escaped, hexadecimal, numbered, octal, path_word, quoted, scope_of, truth_word, value_word};

use crate::value::Value;
use idl_base::Bytes;
use idl_tree::idl_lex::kinds::is_like_keyword;
use itoa::Buffer;
use std::alloc::AllocError;

/// Puts behind a text how the value is written: as one token that has this value, and an enumerator by its path.
pub fn push_value(text: &mut Vec<u8>, value: &Value) -> Result<(), AllocError>
    ensures { OnOk result (text.new.items ≡ text.old.items ++ value_word value.now) }
{
    match value {
        Value::Integer(number) => push_number(text, *number),
        Value::Boolean(truth) => push_truth(text, *truth),
        Value::Character(character) => push_quoted(text, false, b'\'', &[*character]),
        Value::WideCharacter(character) => push_wide(text, b'\'', &[*character]),
        Value::Text(characters) => push_quoted(text, false, b'"', characters.as_slice()),
        Value::WideText(characters) => push_wide(text, b'"', characters.as_slice()),
        Value::Enumerator(enumeration, name) => {
            push_path(text, behind_first(enumeration.as_slice()))?;
            push_part(text, name.as_bytes())
        }
    }
}

// A whole number.
fn push_number(text: &mut Vec<u8>, number: i128) -> Result<(), AllocError>
    ensures { OnOk result (text.new.items ≡ text.old.items ++ signed_decimal number) }
{
    let mut buffer = Buffer::new();
    text.extend_from_slice(buffer.format(number).as_bytes())
}

fn push_truth(text: &mut Vec<u8>, truth: bool) -> Result<(), AllocError>
    ensures { OnOk result (text.new.items ≡ text.old.items ++ truth_word truth) }
{
    if truth {
        text.extend_from_slice(b"TRUE")
    } else {
        text.extend_from_slice(b"FALSE")
    }
}

// A wide literal.
fn push_wide(text: &mut Vec<u8>, quote: u8, characters: &[u16]) -> Result<(), AllocError>
    ensures { OnOk result
        (text.new.items ≡ text.old.items ++ (76 ∷ quoted true quote characters.now)) }
{
    text.push(b'L')?;
    push_quoted(text, true, quote, characters)
}

// Characters between quotes.
fn push_quoted(
    text: &mut Vec<u8>,
    is_wide: bool,
    quote: u8,
    characters: &[u16],
) -> Result<(), AllocError>
    ensures { OnOk result
        (text.new.items ≡ text.old.items ++ quoted is_wide quote characters.now) }
{
    text.push(quote)?;
    for character in characters {
        push_character(text, is_wide, quote, *character)?;
    }
    text.push(quote)?;
    Ok(())
}

// A character between such quotes.
fn push_character(
    text: &mut Vec<u8>,
    is_wide: bool,
    quote: u8,
    character: u16,
) -> Result<(), AllocError>
    ensures { OnOk result
        (text.new.items ≡ text.old.items ++ character_text is_wide quote character) }
{
    if character == u16::from(quote) || character == 92 {
        text.extend_from_slice(&[92, character as u8])
    } else if 32 <= character && character <= 126 {
        text.push(character as u8)?;
        Ok(())
    } else {
        push_numbered(text, is_wide, character)
    }
}

// A character by its number.
fn push_numbered(text: &mut Vec<u8>, is_wide: bool, character: u16) -> Result<(), AllocError>
    ensures { OnOk result (text.new.items ≡ text.old.items ++ numbered is_wide character) }
{
    if is_wide {
        text.extend_from_slice(&[
            92,
            b'u',
            hexadecimal(character / 4096),
            hexadecimal(character / 256),
            hexadecimal(character / 16),
            hexadecimal(character),
        ])
    } else {
        text.extend_from_slice(&[
            92,
            octal(character / 64),
            octal(character / 8),
            octal(character),
        ])
    }
}

// The last octal digit of a number.
fn octal(number: u16) -> u8
    ensures { result ≡ octal number }
{
    48 + (number % 8) as u8
}

// The last hexadecimal digit of a number.
fn hexadecimal(number: u16) -> u8
    ensures { result ≡ hexadecimal number }
{
    let digit = (number % 16) as u8;
    if digit <= 9 { 48 + digit } else { 87 + digit }
}

// The path of the scope around.
fn behind_first(path: &[Bytes]) -> &[Bytes]
    ensures { result.now ≡ scope_of path.entry.now }
{
    match path {
        [] => path,
        [_, scope @ ..] => scope,
    }
}

// A path, from the global scope on.
fn push_path(text: &mut Vec<u8>, path: &[Bytes]) -> Result<(), AllocError>
    ensures { OnOk result (text.new.items ≡ text.old.items ++ path_word path.now) }
{
    let count = path.len();
    for back in 0..count {
        push_part(text, path[count - 1 - back].as_bytes())?;
    }
    Ok(())
}

/// Puts a name of a path behind a text, with `::` before it.
pub fn push_part(text: &mut Vec<u8>, name: &[u8]) -> Result<(), AllocError>
    ensures { OnOk result (text.new.items ≡ text.old.items ++ (codes "::" ++ escaped name.now)) }
{
    text.extend_from_slice(b"::")?;
    push_name(text, name)
}

/// Puts a name behind a text, with `_` before it where it is a keyword but for the case of letters.
#[inline(always)]
pub fn push_name(text: &mut Vec<u8>, name: &[u8]) -> Result<(), AllocError>
    ensures { OnOk result (text.new.items ≡ text.old.items ++ escaped name.now) }
{
    if is_like_keyword(name) {
        text.push(b'_')?;
    }
    text.extend_from_slice(name)
}
