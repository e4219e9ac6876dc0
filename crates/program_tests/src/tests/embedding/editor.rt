//! The example of docs/EMBEDDING.md: an editor's server that holds a project and tells what an edit changes.

use idl_session::{Row, Session, Span};
use idl_source::{Name, Refusal, cut};
use std::alloc::{AllocError, Global};

// A file as the editor opens it.
fn open(session: &mut Session, name: &str, text: &str) -> Result<(), Refusal> {
    let lines = cut(session.allocator(), text.as_bytes())?;
    session.put(name.as_bytes(), lines)?;
    Ok(())
}

// A line that is typed in the place of another one, the first being 1.
fn type_line(session: &mut Session, name: &str, at: usize, text: &str) -> Result<(), Refusal> {
    let lines = cut(session.allocator(), text.as_bytes())?;
    session.splice(name.as_bytes(), Span { from: at, del: 1 }, lines)?;
    Ok(())
}

// Tells bytes on a line, behind what they are.
fn tell(told: &mut String, what: &str, bytes: &[u8]) -> Result<(), AllocError> {
    let text = str::from_utf8(bytes).unwrap_or("");
    Ok(write!(told, "{what}{text}\n")?)
}

// Tells the rows of a root.
fn tell_rows(told: &mut String, rows: Option<&[Row]>) -> Result<(), AllocError> {
    for row in rows.unwrap_or(&[]) {
        tell(told, "", row.as_bytes())?;
    }
    Ok(())
}

// Tells names.
fn tell_names(told: &mut String, what: &str, names: &[Name]) -> Result<(), AllocError> {
    for name in names {
        tell(told, what, name.as_bytes())?;
    }
    Ok(())
}

// A root is opened. What isn't there yet is asked for, and is opened next.
fn open_all(session: &mut Session, told: &mut String) -> Result<(), Refusal> {
    session.add_root(b"shop.idl")?;
    let text = "#include \"money.idl\"\ninterface Shop { Money price(); };\n";
    open(session, "shop.idl", text)?;
    tell_names(told, "absent: ", session.absent(b"shop.idl").unwrap_or(&[]))?;
    open(session, "money.idl", "typedef long Mony;\n")?;
    tell_rows(told, session.diagnostics(b"shop.idl"))?;
    Ok(())
}

// An edit of the other file, the roots that it expanded anew, and how many these are. A refused edit changes nothing.
fn edit(session: &mut Session, told: &mut String) -> Result<(), Refusal> {
    type_line(session, "money.idl", 1, "typedef long Money;")?;
    tell_names(told, "touched: ", session.touched())?;
    write!(told, "expanded: {}\n", session.work().expanded)?;
    tell_rows(told, session.diagnostics(b"shop.idl"))?;
    if let Err(refusal) = open(session, "no name", "") {
        write!(told, "refused: {refusal}\n")?;
    }
    tell_rows(told, session.dump(b"shop.idl"))?;
    Ok(())
}

// What is declared, as data: of each name that has an id, in the order of the listing.
fn ask(session: &Session, told: &mut String) -> Result<(), Refusal> {
    if let Some(details) = session.details(b"shop.idl")? {
        for entry in details.entries.as_slice() {
            tell(told, "declared: ", entry.tree.id.as_bytes())?;
        }
    }
    Ok(())
}

// All of these, one after another.
fn edit_all(session: &mut Session, told: &mut String) -> Result<(), Refusal> {
    open_all(session, told)?;
    edit(session, told)?;
    ask(session, told)
}

/// What an editor is told.
pub fn editing(alloc: Global) -> Result<String, AllocError> {
    let mut session = Session::new(alloc);
    let mut told = String::new(alloc);
    if let Err(refusal) = edit_all(&mut session, &mut told) {
        write!(told, "refused: {refusal}\n")?;
    }
    Ok(told)
}
