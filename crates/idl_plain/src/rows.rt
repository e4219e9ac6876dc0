//! The laws of rows, of which a line tells each form.

ghost use Rattle.std.specs.Prelude.{◌≡◌, ◌∷◌, [], List, None, Some, codes, ℕ};
ghost use Rattle.idl_entity.specs.declared.entity.Entity.{Entity};
ghost use Rattle.idl_env.specs.Facts.{entity_in, entity_key};
ghost use Rattle.idl_memo.specs.Query.{Ask, Done, and_then};
ghost use Rattle.idl_plain.specs.Rows.{kind_row};
ghost use Rattle.idl_repo.specs.Entry.{closing_fault, entry};
ghost use Rattle.idl_repo.specs.Pieces.{IdOf, Says, written};
ghost use Rattle.idl_repo.specs.Row.{path_text, row_pieces};
ghost use Rattle.idl_repo.specs.TypeCode.{shown};

/// A row is the word of its kind, the path, the id, and what stands behind that: a line tells it for each kind, as the format does. A name
/// has one where it is declared.
pub fn listing()
    ensures rows { (e : Entity) → row_pieces e ≡ (
        let row = kind_row e (shown e) e.kind in
        Says row.0 ∷ Says (codes " ") ∷ Says (path_text e.path) ∷ Says (codes " ")
        ∷ IdOf e.path ∷ row.1) }
    ensures entries { (path : List (List ℕ)) → entry path ≡ Ask (entity_key path) (λ there.
        elim (entity_in there) [
          | None ↦ Done (record { row = None; fault = None })
          | Some e ↦ and_then (written [] (row_pieces e))
              (λ text. Done (record { row = Some text; fault = closing_fault e }))
        ]) }
{}
