//! The law of the facts that wrote last at a key.

ghost use Rattle.std.specs.Prelude.{◌≡◌, ◌≤◌, ◌++◌, ◌↔◌, IsFalse, List, length};
ghost use Rattle.idl_env.specs.Facts.{UnitFacts, answers, world};
ghost use Rattle.idl_env.specs.Written.{last_written, written_from};
ghost use Rattle.idl_env.specs.declared.keys.key.Key.{Key};

/// The facts that wrote last at a key stand among the first ones of a list just where none of those behind these writes there;
/// what is answered there is then what the first ones answer.
pub fn lasting()
    ensures among { (before behind : List UnitFacts) (k : Key)
        → (last_written (before ++ behind) k ≤ length before)
        ↔ IsFalse (written_from (world before) behind k) }
    ensures answered { (before behind : List UnitFacts) (k : Key)
        → IsFalse (written_from (world before) behind k)
        → answers (before ++ behind) k ≡ answers before k }
{}
