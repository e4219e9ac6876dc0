//! The laws of fresh declarations and fresh entries.

ghost use Rattle.std.specs.Prelude.{◌≡◌, ◌+◌, ◌++◌, [], All, Contains, List};
ghost use Rattle.idl_root.specs.Places.{EntryPlace};
ghost use Rattle.idl_root_blocks.specs.Places.{DeclarationPlace};
ghost use Rattle.idl_root.specs.Results.{fresh_declarations, fresh_entries};

use idl_env::Env;
use idl_memo::freshness;
use idl_repo::EntryTask;
use idl_root_blocks::idl_check::DeclarationTask;

/// Fresh declarations and fresh entries are counted part by part, and those that stood there before add nothing.
pub fn fresh_tasks()
    ensures declarations_none { (known : List DeclarationPlace) → fresh_declarations known [] ≡ 0 }
    ensures declarations_split { (old a b : List DeclarationPlace)
        → fresh_declarations old (a ++ b)
        ≡ fresh_declarations old a + fresh_declarations (old ++ a) b }
    ensures declarations_aside { (old front stay rest : List DeclarationPlace)
        → All (Contains old) stay
        → fresh_declarations old (front ++ (stay ++ rest))
        ≡ fresh_declarations old (front ++ rest) }
    ensures entries_none { (known : List EntryPlace) → fresh_entries known [] ≡ 0 }
    ensures entries_split { (old a b : List EntryPlace) → fresh_entries old (a ++ b)
        ≡ fresh_entries old a + fresh_entries (old ++ a) b }
    ensures entries_aside { (old front stay rest : List EntryPlace) → All (Contains old) stay
        → fresh_entries old (front ++ (stay ++ rest)) ≡ fresh_entries old (front ++ rest) }
{
    freshness::<Env, DeclarationTask>();
    freshness::<Env, EntryTask>();
}
