//! What is found, as an editor is told.

ghost use Rattle.std.specs.Prelude.{◌≡◌, ◌++◌, [], IfOk, OnOk, map, take};
ghost use Rattle.std.specs.List.{AllZip};
ghost use Rattle.serde_json.specs.View.{view};
ghost use Rattle.idl_editor.specs.told.Found.{findings_in, most_told};
ghost use Rattle.idl_server.specs.Diagnostics.{AreDiagnostics, IsToldOf, finding_range, rest_told};
ghost use Rattle.idl_server.specs.Places.{lines_of};

use crate::found::found_in;
use crate::places::{CountedFile, LocatedToken, line_near, line_of, range_of};
use crate::workspace::Workspace;
use idl_base::Seq;
use idl_editor::documents::uri_for;
use idl_editor::told::{
    MOST_RELATED, MOST_TOLD, RootFinding, SecondWords, diagnostic_value, first_told, message_of,
    more_value, second_value,
};
use idl_editor::{Encoding, Range};
use idl_inputs::Columns;
use idl_project::{Finding, Session, related_in};
use idl_related::Related;
use idl_source::Name;
use serde_json::Value;
use std::alloc::AllocError;

// The second places of the first findings of a root.
#[derive(Drop)]
struct RootRelated {
    root: usize,
    related: Option<Seq<Seq<Related>>>,
}

// The second places of a finding, if its root is one of these.
fn related_of<'a>(roots: &'a [RootRelated], one: RootFinding<'_>) -> Option<&'a [Related]> {
    let root = roots.iter().find(|root| root.root == one.root)?;
    let related = root.related.as_ref()?;
    Some(related.as_slice().get(one.index)?.as_slice())
}

// How many of a root's findings there are up to the last of these of a file.
fn count_up_to(found: &[RootFinding<'_>], root: usize) -> usize {
    let mut count = 0_usize;
    for one in found {
        if one.root == root {
            count = count.max(one.index.saturating_add(1));
        }
    }
    count
}

impl Workspace {
    /// What is found in a file, as it is told: the first findings, and how many more there are.
    pub fn diagnostics_in(&self, name: &Name) -> Result<Value, AllocError>
        ensures { IfOk result (λ value. AreDiagnostics self.now.encoding
            self.now.session.project name.now (view value)) }
    {
        let found = found_in(&self.session, name)?;
        let held = found.as_slice();
        let mut list = self.first_values(name, held)?;
        push_rest(&self.session, self.encoding, held, &mut list)?;
        Ok(Value::Array(list))
    }

    // The first of these findings in a file, as they are told.
    fn first_values(&self, name: &Name, found: &[RootFinding<'_>]) -> Result<Vec<Value>, AllocError>
        ensures { IfOk result (λ list.
            AllZip (IsToldOf self.now.encoding self.now.session.project)
            (take most_told (findings_in found.entry.now)) (map view list.items)) }
    {
        let alloc = self.session.allocator();
        let file = CountedFile::new(&self.session, name)?;
        let mut columns = self.session.columns();
        let roots = self.related_roots(found)?;
        let held = first_told(found);
        let mut list = Vec::with_capacity(alloc, held.len())?;
        'each: for index in 0..held.len() {
            let one = held[index];
            let related = self.seconds_of(&roots, index, one)?;
            let message = message_of(alloc, one.finding)?;
            let said = message.as_slice();
            let range = self.finding_range(&mut columns, one.finding, &file)?;
            list.push(diagnostic_value(alloc, range, one.finding, said, related)?)?;
        }
        Ok(list)
    }

    // The second places of those findings of a file of which they are told, and of what their roots find before them.
    fn related_roots(&self, found: &[RootFinding<'_>]) -> Result<Vec<RootRelated>, AllocError> {
        let first = found.get(..MOST_RELATED).unwrap_or(found);
        let mut roots = Vec::new(self.session.allocator());
        for one in first {
            if related_of(&roots, *one).is_some() {
                continue;
            }
            let Some(name) = self.session.root(one.root) else {
                continue;
            };
            let count = count_up_to(first, one.root);
            let related = related_in(&self.session, name.as_bytes(), count)?;
            roots.push(RootRelated {
                root: one.root,
                related,
            })?;
        }
        Ok(roots)
    }

    // The second places of the finding of this number, as they are told: of many findings those of the first ones.
    fn seconds_of(
        &self,
        roots: &[RootRelated],
        number: usize,
        one: RootFinding<'_>,
    ) -> Result<Value, AllocError> {
        match related_of(roots, one) {
            Some(related) if number < MOST_RELATED => self.related_value(related),
            _ => Ok(Value::Array(Vec::new(self.session.allocator()))),
        }
    }

    // The range of what a finding is about, by the lines of a file, if it is in that.
    fn finding_range(
        &self,
        columns: &mut Columns<'_>,
        finding: &Finding,
        file: &CountedFile<'_>,
    ) -> Result<Range, AllocError>
        requires lines { file.now.lines ≡ lines_of self.now.session.project file.now.name.now }
        requires columns { columns.old ≡ self.now.session.project.inputs.files }
        ensures range { IfOk result (λ range.
            range ≡ finding_range self.now.encoding self.now.session.project finding.now) }
        ensures same { columns.new ≡ columns.old }
    {
        let Some(text) = &finding.text else {
            return Ok(line_near(&self.session, self.encoding, &finding.place, file));
        };
        let token = LocatedToken {
            place: &finding.place,
            number: finding.number,
            text: text.as_bytes(),
        };
        let column = columns.column(token.place, token.number, token.text)?;
        match file.range(self.encoding, token, column) {
            Some(range) => Ok(range),
            None => Ok(range_of(&self.session, self.encoding, token)),
        }
    }

    // Second places, as they are told.
    fn related_value(&self, related: &[Related]) -> Result<Value, AllocError> {
        let alloc = self.session.allocator();
        let mut list = Vec::with_capacity(alloc, related.len())?;
        'related: for second in related {
            let uri = uri_for(&self.documents, &self.folders, &second.place.file.name())?;
            let token = LocatedToken {
                place: &second.place,
                number: second.number,
                text: second.text.as_bytes(),
            };
            let range = range_of(&self.session, self.encoding, token);
            let words = SecondWords {
                reason: second.reason.words(),
                token: token.text,
                more: second.more,
            };
            list.push(second_value(alloc, &uri, range, words)?)?;
        }
        Ok(Value::Array(list))
    }
}

// Puts in how many more are found than are told, if any are.
fn push_rest(
    session: &Session,
    encoding: Encoding,
    found: &[RootFinding<'_>],
    list: &mut Vec<Value>,
) -> Result<(), AllocError>
    ensures { OnOk result (map view list.new.items ≡ map view list.old.items
        ++ rest_told encoding session.now.project (findings_in found.entry.now)) }
{
    if found.len() <= MOST_TOLD {
        return Ok(());
    }
    let at = MOST_TOLD - 1;
    let last = found[at];
    let left = found.len() - MOST_TOLD;
    let range = line_of(session, encoding, &last.finding.place);
    let more = more_value(session.allocator(), range, left)?;
    Ok(list.push(more)?)
}
