//! The row of a unit in the dump.

ghost use Rattle.std.specs.Prelude.{◌≡◌, ◌≤◌, ◌+◌, ◌∷◌, ◌++◌, ◌||◌, [], codes, false, OnOk, drop, flat_map, length, map, take, if◌then◌else◌};
ghost use Rattle.std.specs.List.{repeat};
ghost use Rattle.std.specs.Str.{bytes_eq};
ghost use Rattle.idl_dump.specs.Row.{behind_site, next_path, next_value, row_of, site_text, spaced, text_word, token_text, unit_text};
ghost use Rattle.idl_dump.specs.HeldRow.{rest_at};
ghost use Rattle.idl_parts.specs.Item.{item_at, item_length, items_length};
ghost use Rattle.idl_tree.specs.Name.{spell_name};
ghost use Rattle.idl_value.specs.Spelled.{escaped, path_word};

use crate::part::{behind, front};
use idl_base::Seq;
use idl_entity::Path;
use idl_entity::paths::Names;
use idl_lex::Token;
use idl_parts::UnitPart;
use idl_tree::{ScopedName, Several, name_length};
use idl_value::{Value, joined, push_name, push_part, push_value};
use std::alloc::AllocError;

/// What a row is still to be made of: tokens, and the paths of what the names among them denote.
#[derive(Clone, Copy)]
pub struct RowSource<'a> {
    pub tokens: &'a [Token],
    pub found: &'a [Path],
    /// The values of the expressions among them.
    pub values: &'a [Value],
    /// Whether the first of them stands in an expression.
    pub in_value: bool,
}

/// Writes the row of a unit around which so many scopes are open, in place of what stands in a buffer.
#[tactic(auto, unfolding(crate::specs::Row::row_of), using(crate::proofs::RowLemmas::behind_blanks))]
pub fn write_row(
    buffer: &mut Vec<u8>,
    depth: usize,
    sites: &[UnitPart<'_>],
    unit: RowSource<'_>,
) -> Result<(), AllocError>
    requires { items_length (map item_at sites.now) ≤ 18446744073709551615 }
    ensures { OnOk result
        (buffer.new.items ≡ row_of depth (map item_at sites.now) (rest_at unit.entry)) }
{
    buffer.clear();
    push_blanks(buffer, depth)?;
    let begin = buffer.len();
    push_sites(buffer, sites, unit)?;
    take_out(buffer, begin);
    Ok(())
}

// Takes out the byte at a place, if there is one.
fn take_out(row: &mut Vec<u8>, place: usize)
    ensures { row.new.items ≡ take place row.old.items ++ drop (place + 1) row.old.items }
{
    if place < row.len() {
        row.remove(place);
    }
}

// Two blanks for each open scope.
fn push_blanks(row: &mut Vec<u8>, depth: usize) -> Result<(), AllocError>
    ensures { OnOk result (row.new.items ≡ row.old.items ++ repeat depth (codes "  ")) }
{
    for _scope in 0..depth {
        row.push(b' ')?;
        row.push(b' ')?;
    }
    Ok(())
}

// The words of these sites.
fn push_sites(
    text: &mut Vec<u8>,
    sites: &[UnitPart<'_>],
    unit: RowSource<'_>,
) -> Result<(), AllocError>
    requires { items_length (map item_at sites.now) ≤ 18446744073709551615 }
    ensures { OnOk result
        (text.new.items
        ≡ text.old.items ++ unit_text (rest_at unit.entry) (map item_at sites.now)) }
{
    let mut rest = unit;
    for site in sites {
        rest.push_site(text, *site)?;
    }
    Ok(())
}

impl<'a> RowSource<'a> {
    // The words of a site, which is then no more left.
    fn push_site(&mut self, text: &mut Vec<u8>, site: UnitPart<'_>) -> Result<(), AllocError>
        requires { item_length (item_at site) ≤ 18446744073709551615 }
        ensures words { OnOk result
            (text.new.items
            ≡ text.old.items ++ site_text (rest_at self.old) (item_at site.entry)) }
        ensures rest { OnOk result
            (rest_at self.new ≡ behind_site (rest_at self.old) (item_at site.entry)) }
    {
        match site {
            UnitPart::Tokens(count) => self.push_tokens(text, count),
            UnitPart::Declared(_, name) => {
                self.pass(1);
                push_declared(text, name.as_bytes())
            }
            UnitPart::Used(_, name) => self.push_used(text, name),
            UnitPart::Joined(_, pieces) => {
                self.pass(1 + pieces.rest.len());
                push_joined(text, pieces)
            }
            UnitPart::ValueBegins => {
                self.in_value = true;
                Ok(())
            }
            UnitPart::ValueEnds(_, _) => self.push_value(text),
            _ => Ok(()),
        }
    }

    // So many tokens, unless they stand in an expression.
    fn push_tokens(&mut self, text: &mut Vec<u8>, count: usize) -> Result<(), AllocError>
        ensures words { OnOk result
            (text.new.items
            ≡ text.old.items
            ++ (if self.old.in_value then []
            else flat_map token_text (take count self.old.tokens.now))) }
        ensures rest { OnOk result
            (rest_at self.new
            ≡ record (rest_at self.old) { tokens = drop count self.old.tokens.now }) }
    {
        let tokens = self.tokens;
        self.pass(count);
        if self.in_value {
            return Ok(());
        }
        push_tokens(text, front(tokens, count))
    }

    // The path of a used name, unless it stands in an expression.
    fn push_used(&mut self, text: &mut Vec<u8>, name: &ScopedName) -> Result<(), AllocError>
        requires { length (spell_name name.now) ≤ 18446744073709551615 }
        ensures words { OnOk result
            (text.new.items
            ≡ text.old.items
            ++ (if self.old.in_value then [] else next_path self.old.found.now)) }
        ensures rest { OnOk result
            (rest_at self.new
            ≡ record (rest_at self.old) {
              tokens = drop (length (spell_name name.now)) self.old.tokens.now;
              found = drop 1 self.old.found.now;
            }) }
    {
        let found = self.found;
        self.found = behind(found, 1);
        self.pass(name_length(name));
        if self.in_value {
            return Ok(());
        }
        push_next_path(text, found)
    }

    // The value of an expression, which ends.
    fn push_value(&mut self, text: &mut Vec<u8>) -> Result<(), AllocError>
        ensures words { OnOk result
            (text.new.items ≡ text.old.items ++ next_value self.old.values.now) }
        ensures rest { OnOk result
            (rest_at self.new
            ≡ record (rest_at self.old) {
              values = drop 1 self.old.values.now;
              in_value = false;
            }) }
    {
        let values = self.values;
        self.values = behind(values, 1);
        self.in_value = false;
        push_next_value(text, values)
    }

    // Passes so many tokens.
    fn pass(&mut self, count: usize)
        ensures { rest_at self.new
            ≡ record (rest_at self.old) { tokens = drop count self.old.tokens.now } }
    {
        self.tokens = behind(self.tokens, count);
    }
}

// The first of these paths.
fn push_next_path(text: &mut Vec<u8>, found: &[Path]) -> Result<(), AllocError>
    ensures { OnOk result (text.new.items ≡ text.old.items ++ next_path found.now) }
{
    match found {
        [] => Ok(()),
        [path, ..] => push_path(text, path),
    }
}

// The first of these values.
fn push_next_value(text: &mut Vec<u8>, values: &[Value]) -> Result<(), AllocError>
    ensures { OnOk result (text.new.items ≡ text.old.items ++ next_value values.now) }
{
    match values {
        [] => Ok(()),
        [value, ..] => {
            text.push(b' ')?;
            push_value(text, value)
        }
    }
}

// Tokens as they are spelled.
fn push_tokens(text: &mut Vec<u8>, tokens: &[Token]) -> Result<(), AllocError>
    ensures { OnOk result (text.new.items ≡ text.old.items ++ flat_map token_text tokens.now) }
{
    for token in tokens {
        push_token(text, token.as_bytes())?;
    }
    Ok(())
}

// A token as it is spelled; no blank stands before `;` and `,`.
fn push_token(text: &mut Vec<u8>, token: &[u8]) -> Result<(), AllocError>
    ensures { OnOk result (text.new.items ≡ text.old.items ++ token_text token.now) }
{
    match token {
        [byte] => push_mark(text, *byte),
        _ => {
            text.push(b' ')?;
            text.extend_from_slice(token)?;
            Ok(())
        }
    }
}

// A token of one byte.
fn push_mark(text: &mut Vec<u8>, byte: u8) -> Result<(), AllocError>
    ensures { OnOk result (text.new.items ≡ text.old.items ++ token_text (byte ∷ [])) }
{
    if is_close(byte) {
        text.push(byte)?;
        return Ok(());
    }
    text.push(b' ')?;
    text.push(byte)?;
    Ok(())
}

// Whether no blank stands before it: `;` and `,`.
fn is_close(byte: u8) -> bool
    ensures { result ≡ (bytes_eq (byte ∷ []) (codes ";") || bytes_eq (byte ∷ []) (codes ",")) }
{
    byte == b';' || byte == b','
}

// A declared name.
fn push_declared(text: &mut Vec<u8>, name: &[u8]) -> Result<(), AllocError>
    ensures { OnOk result (text.new.items ≡ text.old.items ++ spaced (escaped name.now)) }
{
    text.push(b' ')?;
    push_name(text, name)
}

// A path, from the global scope on.
fn push_path(text: &mut Vec<u8>, path: &Path) -> Result<(), AllocError>
    ensures { OnOk result (text.new.items ≡ text.old.items ++ spaced (path_word path.now)) }
{
    text.push(b' ')?;
    push_names(text, path.lent())
}

// The names of a path, from the outermost on.
fn push_names(text: &mut Vec<u8>, names: Names<'_>) -> Result<(), AllocError>
    ensures { OnOk result (text.new.items ≡ text.old.items ++ path_word names.entry) }
{
    let Some((name, outer)) = names.split_first() else {
        return Ok(());
    };
    push_names(text, outer)?;
    push_part(text, name)
}

// String literals as one.
fn push_joined(text: &mut Vec<u8>, pieces: &Several<Seq<u16>>) -> Result<(), AllocError>
    ensures { OnOk result (text.new.items ≡ text.old.items ++ spaced (text_word pieces.now)) }
{
    let characters = joined(*text.allocator(), pieces)?;
    text.push(b' ')?;
    push_value(text, &Value::Text(characters))
}
