//! The laws of the listing: what a row says, and what it asks.
//!
//! Each function does nothing: it carries its laws as clauses. They hold over any answers.

ghost use Rattle.std.specs.Prelude.{◌≡◌, ◌∷◌, ◌++◌, ℕ, List, None, Option, Some, codes, decimal, flat_map};
ghost use Rattle.idl_memo.specs.Query.{asked, outcome};
ghost use Rattle.idl_repo.specs.Entry.{closing_fault, entry, no_entry};
ghost use Rattle.idl_repo.specs.Pieces.{asked_of, ids_in, text_over};
ghost use Rattle.idl_repo.specs.Referred.{referred};
ghost use Rattle.idl_repo.specs.Row.{behind_id, row_pieces};
ghost use Rattle.idl_repo.specs.TypeCode.{element_pieces, written_type};
ghost use Rattle.idl_entity.specs.DataType.{plain_type, with_arrays, with_layer};
ghost use Rattle.idl_env.specs.Facts.{entity_in, entity_key};
ghost use Rattle.idl_env.specs.declared.answering.answer.Answer.{Answer};
ghost use Rattle.idl_entity.specs.declared.data_type.DataType.{DataType};
ghost use Rattle.idl_entity.specs.declared.data_type.Element.{Element};
ghost use Rattle.idl_entity.specs.declared.data_type.Layer.TheVariants.{Array, Sequence};
ghost use Rattle.idl_entity.specs.declared.entity.Entity.{Entity};
ghost use Rattle.idl_entity.specs.declared.kind.Kind.{Kind};
ghost use Rattle.idl_env.specs.declared.keys.key.Key.{Key};

/// The entry of a declared name is its row with each id put in; where nothing is declared, there is
/// none.
pub fn listed_row()
    ensures declared { (path : List (List ℕ)) (bank : Key → Option Answer) (e : Entity)
        → entity_in (bank (entity_key path)) ≡ Some e
        → outcome (entry path) bank
        ≡ record { row = Some (text_over bank (row_pieces e)); fault = closing_fault e } }
    ensures unknown { (path : List (List ℕ)) (bank : Key → Option Answer)
        → entity_in (bank (entity_key path)) ≡ None → outcome (entry path) bank ≡ no_entry }
{}

/// The entry of a declared name asks what is declared there, and then for its own id and those of the
/// paths that its row refers to, and nothing of what stands behind these.
pub fn asked_ids()
    ensures { (path : List (List ℕ)) (bank : Key → Option Answer) (e : Entity)
        → entity_in (bank (entity_key path)) ≡ Some e
        → asked (entry path) bank ≡ entity_key path ∷ flat_map (asked_of bank) (e.path ∷ referred e.kind e) }
{}

/// A row expands no named type: behind its id stand those of the types that it names, of bases, and of exceptions, and in a TypeCode
/// its own before them.
pub fn references()
    ensures { (kind : Kind) (e : Entity) (bank : Key → Option Answer)
        → ids_in bank (behind_id kind e) ≡ flat_map (asked_of bank) (referred kind e) }
{}

/// A type is written as it nests: a sequence or an array stands around what it is of, and of the lengths of an array the first
/// one is outermost.
pub fn nesting()
    ensures plain { (bank : Key → Option Answer) (e : Element)
        → text_over bank (written_type (plain_type e)) ≡ text_over bank (element_pieces e) }
    ensures sequence { (bank : Key → Option Answer) (n : ℕ) (t : DataType)
        → text_over bank (written_type (with_layer (Sequence n) t))
        ≡ codes "tk_sequence("
        ++ (text_over bank (written_type t) ++ (codes "," ++ (decimal n ++ codes ")"))) }
    ensures array { (bank : Key → Option Answer) (n : ℕ) (t : DataType)
        → text_over bank (written_type (with_layer (Array n) t))
        ≡ codes "tk_array("
        ++ (text_over bank (written_type t) ++ (codes "," ++ (decimal n ++ codes ")"))) }
    ensures lengths { (n : ℕ) (lengths : List ℕ) (t : DataType)
        → with_arrays (n ∷ lengths) t ≡ with_layer (Array n) (with_arrays lengths t) }
{}
