//! The units of a root as they were.

ghost use Rattle.std.specs.Prelude.{◌≡◌, ◌∷◌, [], false, IfSome, IsTrue, List, Some, length};
ghost use Rattle.idl_env.specs.Facts.{UnitFacts};
ghost use Rattle.idl_store.specs.Stored.{result_at};
ghost use Rattle.idl_root.specs.AsBefore.{IsBehindMark, IsBehindSame};
ghost use Rattle.idl_root.specs.Followed.{IsBehind, IsFirst, IsNext};
ghost use Rattle.idl_kept.specs.Texts.{DeclarationResult};
ghost use Rattle.idl_root.specs.declared.kept.marks.Mark.{Mark as RootMark};

use crate::kept::marks::{Mark, Marks};
use crate::kept::reading::unit_text;
use idl_kept::{Declarations, KeptDeclaration};
use idl_store::Spot;
use idl_unit::{Unit, UnitText};

/// The units of a root as they were when it was compiled last, from one of them on: what each was, and where in the root's list the
/// result of the next one with tokens stands.
#[derive(Clone, Copy)]
pub struct Course<'k> {
    list: usize,
    place: usize,
    marks: &'k [Mark],
}

impl<'k> Course<'k> {
    /// From the first unit on.
    pub fn new(list: usize, marks: &'k Marks) -> Course<'k>
        ensures list { result.list ≡ list }
        ensures place { result.place ≡ 0 }
        ensures marks { result.marks.now ≡ marks.now.marks }
    {
        Course {
            list,
            place: 0,
            marks: marks.as_slice(),
        }
    }

    /// How many units there are.
    pub fn len(self) -> usize
        ensures { result ≡ length self.entry.marks.now }
    {
        self.marks.len()
    }

    /// Whether there are none.
    pub fn is_empty(self) -> bool
        ensures { IsTrue result → self.entry.marks.now ≡ [] }
    {
        self.marks.is_empty()
    }

    /// The list of the root, and the place in it of the next unit with tokens.
    pub fn place(self) -> (usize, usize)
        ensures { result ≡ (self.entry.list, self.entry.place) }
    {
        (self.list, self.place)
    }

    /// The spot at which the result of the next unit with tokens stands.
    pub fn spot(self) -> Spot
        ensures { result ≡ record {
          is_draft = false;
          list = self.entry.list;
          place = self.entry.place;
        } }
    {
        Spot {
            is_draft: false,
            list: self.list,
            place: self.place,
        }
    }

    /// What is kept of the first of them, if it has tokens.
    pub fn first<'s>(self, kept: &'s Declarations) -> Option<&'s KeptDeclaration>
        ensures found { IfSome result (λ k.
            result_at kept.now self.entry.list self.entry.place ≡ Some k.now) }
        ensures first { IfSome result (λ k. IsFirst kept.now.lists k.now self.entry) }
    {
        if !self.begins_with(Mark::Judged) {
            return None;
        }
        let first = kept.get(self.list, self.place)?;
        Some(first)
    }

    /// The same, if its text is this.
    pub fn first_of<'s>(
        self,
        kept: &'s Declarations,
        text: &UnitText,
    ) -> Option<&'s KeptDeclaration>
        ensures found { IfSome result (λ k.
            result_at kept.now self.entry.list self.entry.place ≡ Some k.now) }
        ensures first { IfSome result (λ k. IsFirst kept.now.lists k.now self.entry) }
        ensures text { IfSome result (λ k. k.now.text ≡ text.now) }
    {
        let first = self.first(kept)?;
        if *unit_text(first) == *text {
            return Some(first);
        }
        None
    }

    /// Whether the first of them was that.
    pub fn begins_with(self, mark: Mark) -> bool
        ensures { IsTrue result
            → (rest : List RootMark) × (self.entry.marks.now ≡ mark ∷ rest) }
    {
        match self.marks.first() {
            Some(first) => *first == mark,
            None => false,
        }
    }

    /// Behind the first of them, if it was as this unit is. The end is none of them.
    pub fn behind_same(self, kept: &Declarations, unit: &Unit) -> Option<Course<'k>>
        ensures { IfSome result (λ next. IsBehindSame kept.now.lists self.entry unit.now next) }
    {
        match unit {
            Unit::Spelled(text, _sites) => {
                self.first_of(kept, text)?;
                self.behind(Mark::Judged)
            }
            Unit::Entered(_file, inside) => self.behind(Mark::Entered(*inside)),
            Unit::Left(_file, inside) => self.behind(Mark::Left(*inside)),
            Unit::End => Some(self),
        }
    }

    // Behind the first of them, if it was that.
    fn behind(self, mark: Mark) -> Option<Course<'k>>
        ensures { IfSome result (λ next. IsBehindMark self.entry mark next) }
    {
        if !self.begins_with(mark) {
            return None;
        }
        let list = self.list;
        let (_first, marks) = self.marks.split_first()?;
        match mark {
            Mark::Judged => {
                let place = self.place.checked_add(1)?;
                Some(Course { list, place, marks })
            }
            Mark::Entered(_) | Mark::Left(_) => {
                let place = self.place;
                Some(Course { list, place, marks })
            }
        }
    }

    /// Behind the first of them.
    pub fn behind_first(self) -> Option<Course<'k>>
        ensures { IfSome result (λ next. (lists : List (List DeclarationResult)) (f : UnitFacts)
            → IsNext lists f self.entry → IsBehind lists f self.entry next) }
    {
        let list = self.list;
        let place = self.place;
        match self.marks.split_first()? {
            (Mark::Judged, marks) => {
                let place = place.checked_add(1)?;
                Some(Course { list, place, marks })
            }
            (Mark::Entered(_inside), marks) => Some(Course { list, place, marks }),
            (Mark::Left(_inside), marks) => Some(Course { list, place, marks }),
        }
    }
}
