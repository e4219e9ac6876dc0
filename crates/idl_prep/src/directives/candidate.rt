//! An include finds the first of its candidates.

ghost use Rattle.std.specs.Prelude.{◌≡◌, List, Option, ℕ};
ghost use Rattle.idl_memo.specs.Query.{asked, outcome};
ghost use Rattle.idl_fault.specs.declared.file_name.FileName.{FileName};
ghost use Rattle.idl_event.specs.declared.asked.key.RootAnswer.{RootAnswer};
ghost use Rattle.idl_event.specs.declared.asked.key.RootKey.{RootKey};
ghost use Rattle.idl_prep.specs.Candidate.{AnswersFrom, IsFirstPresent, files_asked, up_to_present};
ghost use Rattle.idl_prep.specs.Include.{Operand, file_of};
ghost use Rattle.idl_source.specs.names.Candidates.{candidates};
ghost use Rattle.idl_source.specs.texts.Texts.{Texts};

/// Where answers come from files and a search list, an include finds the first of its candidates that is present, with its
/// lines, and the files that it asks for are its candidates up to that one. This does nothing: it carries the law.
pub fn first_candidate()
    ensures found { (files : Texts) (directories : List (List ℕ)) (bank : RootKey → Option RootAnswer)
        (from : FileName) (o : Operand) → AnswersFrom files directories bank
        → let names = candidates directories from o.name o.is_quoted in
        IsFirstPresent files names (outcome (file_of from o) bank) }
    ensures asked { (files : Texts) (directories : List (List ℕ)) (bank : RootKey → Option RootAnswer)
        (from : FileName) (o : Operand) → AnswersFrom files directories bank
        → let names = candidates directories from o.name o.is_quoted in
        files_asked (asked (file_of from o) bank) ≡ up_to_present files names }
{}
