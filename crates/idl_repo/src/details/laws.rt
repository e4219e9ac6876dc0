//! The law of trees: what they are printed as.

ghost use Rattle.std.specs.Prelude.{◌≡◌, Option};
ghost use Rattle.idl_repo.specs.details.Print.{row_of};
ghost use Rattle.idl_repo.specs.details.Tree.{tree_over};
ghost use Rattle.idl_entity.specs.declared.entity.Entity.{Entity};
ghost use Rattle.idl_env.specs.declared.answering.answer.Answer.{Answer};
ghost use Rattle.idl_env.specs.declared.keys.key.Key.{Key};
ghost use Rattle.idl_repo.specs.Pieces.{text_over};
ghost use Rattle.idl_repo.specs.Row.{row_pieces};

/// The row of what is declared so, over any answers, is what its tree is printed as.
pub fn printing()
    ensures { (bank : Key → Option Answer) (e : Entity)
        → text_over bank (row_pieces e) ≡ row_of (tree_over bank e) }
{}
