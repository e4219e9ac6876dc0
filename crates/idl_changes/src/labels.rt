//! A union's labels, and what each of them selects.

ghost use Rattle.std.specs.Prelude.{◌≡◌, ◌++◌, ◌∷◌, [], ℕ, List, IfOk, None, OnOk, Some, if◌then◌else◌, length, option_copied};
ghost use Rattle.std.specs.Map.{lookup};
ghost use Rattle.std.specs.Option.{option_or};
ghost use Rattle.std.specs.Str.{bytes_eq};
ghost use Rattle.idl_changes.specs.Numbered.{AreNumbered};
ghost use Rattle.idl_changes.specs.Plain.{default_of, label_of, labelled, selected};
ghost use Rattle.idl_changes.specs.Tables.{AreLabelled};
ghost use Rattle.idl_repo.specs.declared.details.type_code_tree.CaseTree.{CaseTree};

use crate::keys::NumberedText;
use idl_base::Bytes;
use idl_map::Map;
use idl_repo::details::CaseTree;
use std::alloc::{AllocError, Global};
use std::marker::Model;

/// The enumerators of a union's discriminator, if that is an enum, and its cases. To every contract these two lists.
pub struct Labels<'a> {
    names: &'a [Bytes],
    cases: &'a [CaseTree],
    // The number of each enumerator, and the place of the case of each label.
    numbers: Map<Bytes, usize>,
    places: Map<NumberedText, usize>,
}

impl<'a> Model for Labels<'a> {
    ghost use Rattle.std.specs.Prelude.{List, ℕ};
    ghost use Rattle.idl_changes.specs.Numbered.{AreNumbered};
    ghost use Rattle.idl_changes.specs.Tables.{AreLabelled};
    ghost use Rattle.idl_repo.specs.declared.details.type_code_tree.CaseTree.{CaseTree};

    ghost Value = { List (List ℕ) × List CaseTree };

    ghost view = { λ labels. (labels.names.now, labels.cases.now) };

    ghost invariant = { λ labels. AreNumbered labels.names.now labels.numbers
        × AreLabelled labels.names.now labels.cases.now labels.places };
}

impl<'a> Drop for Labels<'a> {
    fn drop(self) {
        let Labels {
            names: _names,
            cases: _cases,
            numbers: _numbers,
            places: _places,
        } = self;
    }
}

impl<'a> Labels<'a> {
    /// Those of a union that has these cases, where these are its discriminator's enumerators.
    pub fn new(
        alloc: Global,
        names: &'a [Bytes],
        cases: &'a [CaseTree],
    ) -> Result<Labels<'a>, AllocError>
        ensures { IfOk result (λ labels. labels ≡ (names.entry.now, cases.entry.now)) }
    {
        let numbers = numbers_of(alloc, names)?;
        let mut places = Map::new(alloc)?;
        for (place, case) in cases.iter().enumerate() {
            add_label(&numbers, place, case, &mut places)?;
        }
        Ok(Labels {
            names,
            cases,
            numbers,
            places,
        })
    }

    /// The cases.
    pub fn cases(&self) -> &'a [CaseTree]
        ensures { result.now ≡ self.now.1 }
    {
        self.cases
    }

    /// A label as it goes over the wire.
    pub fn label_of(&self, text: &Bytes) -> Result<NumberedText, AllocError>
        ensures { IfOk result (λ label. label ≡ label_of self.now.0 text.now) }
    {
        let label = label_among(&self.numbers, text)?;
        Ok(label)
    }

    /// The case of a label.
    pub fn labelled(&self, label: &NumberedText) -> Option<&'a CaseTree>
        ensures { option_copied result ≡ labelled self.now.0 self.now.1 label.now }
    {
        let place = self.places.get(label)?;
        self.cases.get(*place)
    }

    /// The case of `default`.
    #[tactic(auto, unfolding(crate::specs::Plain::default_of))]
    pub fn default_case(&self) -> Option<&'a CaseTree>
        ensures { option_copied result ≡ default_of self.now.1 }
    {
        self.cases.iter().find(|case| case.label.is_none())
    }

    /// What a label selects.
    #[tactic(auto, unfolding(crate::specs::Plain::selected))]
    pub fn selected(&self, label: &NumberedText) -> Option<&'a CaseTree>
        ensures { option_copied result ≡ selected self.now.0 self.now.1 label.now }
    {
        match self.labelled(label) {
            Some(case) => Some(case),
            None => self.default_case(),
        }
    }
}

// Puts in the place of one more case, if it is the first of its label, where these are the numbers of enumerators.
fn add_label(
    numbers: &Map<Bytes, usize>,
    place: usize,
    case: &CaseTree,
    places: &mut Map<NumberedText, usize>,
) -> Result<(), AllocError>
    ensures { OnOk result ((names : List (List ℕ)) (cases : List CaseTree)
        → AreNumbered names numbers.now → place ≡ length cases
        → AreLabelled names cases places.old
        → AreLabelled names (cases ++ case.now ∷ []) places.new) }
{
    let Some(text) = &case.label else {
        return Ok(());
    };
    let label = label_among(numbers, text)?;
    if places.get(&label).is_some() {
        return Ok(());
    }
    places.insert(label, place)?;
    Ok(())
}

// A label as it goes over the wire, where these are the numbers of enumerators.
#[tactic(auto, unfolding(crate::specs::Plain::label_of))]
fn label_among(numbers: &Map<Bytes, usize>, text: &Bytes) -> Result<NumberedText, AllocError>
    ensures { IfOk result (λ label. (names : List (List ℕ)) → AreNumbered names numbers.now
        → label ≡ label_of names text.now) }
{
    let Some(number) = numbers.get(text) else {
        let copy = text.clone()?;
        return Ok(NumberedText {
            text: copy,
            number: 0,
        });
    };
    let none = text.part(0, 0)?;
    Ok(NumberedText {
        text: none,
        number: *number,
    })
}

// The number of each of these names.
fn numbers_of(alloc: Global, names: &[Bytes]) -> Result<Map<Bytes, usize>, AllocError>
    ensures { IfOk result (AreNumbered names.now) }
{
    let mut numbers = Map::new(alloc)?;
    for (place, name) in names.iter().enumerate() {
        add_number(&mut numbers, place + 1, name)?;
    }
    Ok(numbers)
}

// Puts in the number of one more name, if it is the first of it.
fn add_number(
    numbers: &mut Map<Bytes, usize>,
    number: usize,
    name: &Bytes,
) -> Result<(), AllocError>
    ensures { OnOk result ((k : List ℕ) → lookup (bytes_eq k) numbers.new
        ≡ option_or (lookup (bytes_eq k) numbers.old)
        (if bytes_eq k name.now then Some number else None)) }
{
    if numbers.get(name).is_some() {
        return Ok(());
    }
    numbers.insert(name.clone()?, number)?;
    Ok(())
}
