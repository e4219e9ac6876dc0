//! The laws of what facts leave as it was.

ghost use Rattle.std.specs.Prelude.{◌≡◌, ◌≢◌, ◌≤◌, ◌++◌, ◌↔◌, [], IsFalse, List, length};
ghost use Rattle.idl_env.specs.Facts.{UnitFacts, answers, scopes_in};
ghost use Rattle.idl_env.specs.Written.{last_written};
ghost use Rattle.idl_env.specs.declared.keys.key.Key.{Key};
ghost use Rattle.idl_env.specs.declared.keys.key.Key.TheVariants.{Cursor};
ghost use Rattle.idl_block.specs.facts.Beneath.{StayWithin, start};
ghost use Rattle.idl_block.specs.facts.Written.{is_written};

/// Facts that close and leave nothing that was there before them have not written at a key just where one of those before them
/// wrote last there; what is answered there is then what was answered before them.
pub fn untouched()
    ensures among { (before facts : List UnitFacts) (k : Key)
        → StayWithin (start (answers before)) facts
        → (last_written (before ++ facts) k ≤ length before)
        ↔ IsFalse (is_written facts (answers before) k) }
    ensures answered { (before facts : List UnitFacts) (k : Key)
        → StayWithin (start (answers before)) facts
        → IsFalse (is_written facts (answers before) k)
        → answers (before ++ facts) k ≡ answers before k }
{}

/// Behind any facts a scope is open: the global one is never closed.
pub fn opening()
    ensures { (facts : List UnitFacts) → scopes_in (answers facts Cursor) ≢ [] }
{}
