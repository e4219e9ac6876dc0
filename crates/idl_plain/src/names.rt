//! The laws of names: what is asked of each part, how far its use goes, and what is said of it.

ghost use Rattle.std.specs.Prelude.{◌≡◌, List, fold, not, ℕ};
ghost use Rattle.std.specs.List.{prefix_len};
ghost use Rattle.idl_check.specs.ids.Remarks.{remark};
ghost use Rattle.idl_check.specs.tables.Using.{with_uses};
ghost use Rattle.idl_entity.specs.Kind.{kind_eq};
ghost use Rattle.idl_entity.specs.declared.entity.Entity.{Entity};
ghost use Rattle.idl_entity.specs.declared.kind.Kind.TheVariants.{Module};
ghost use Rattle.idl_env.specs.Facts.{with_addition};
ghost use Rattle.idl_env.specs.declared.additions.addition.Addition.{Addition};
ghost use Rattle.idl_env.specs.declared.answering.answer.Scope.{Scope};
ghost use Rattle.idl_parts.specs.declared.part.TextPurpose.{TextPurpose};
ghost use Rattle.idl_plain.specs.Names.{asked_of, reach_at, remark_on, uses_at};
ghost use Rattle.idl_scope.specs.Lookup.{before_module, denoted, reach_of};
ghost use Rattle.idl_scope.specs.declared.found.Reach.{Reach};
ghost use Rattle.idl_tree.specs.declared.name.ScopedName.{ScopedName};

/// A name is asked part by part. Its use goes for certain into the scopes inside the one that decides it, and into that one where it
/// doesn't declare it itself; then outward, up to a scope that declares it, none of which was asked.
pub fn denoting()
    ensures denoted { (turns : ℕ) (cursor : List Scope) (name : ScopedName)
        → denoted turns cursor name ≡ asked_of turns cursor name }
    ensures outward { (scopes : List Scope) → before_module scopes
        ≡ prefix_len (λ s. not (kind_eq s.kind Module)) scopes }
    ensures reach { (name : ScopedName) (cursor : List Scope) (inside : ℕ) (first : Entity)
        → reach_of name cursor inside first ≡ reach_at name cursor inside first }
    ensures uses { (n : List ℕ) (r : Reach) (scopes : List Scope) (own : List Addition)
        → with_uses n r scopes own ≡ fold with_addition own (uses_at n r scopes own) }
{}

/// What a `typeid` or a `typeprefix` says of what its name denotes: nothing is added by a text that may not stand there.
pub fn remarks()
    ensures { (purpose : TextPurpose) (at : ℕ) (t : List ℕ) (e : Entity)
        → remark purpose at t e ≡ remark_on purpose at t e }
{}
