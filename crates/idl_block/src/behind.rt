//! The law of a query behind what was written.

ghost use Rattle.std.specs.Prelude.{◌≡◌, List, flat_map};
ghost use Rattle.idl_memo.specs.Query.{Query, asked, outcome};
ghost use Rattle.idl_block.specs.Behind.{Answering, behind, laid};

/// Behind what was written a query comes to what it comes to over the bank with that laid over it, and asks, for each key
/// that it asks there, what that one is answered by.
pub fn layering<K, V, X, W, A>()
    ensures outcome { (answered : Answering K V X W) (written : List W) (query : Query K V X A)
        (bank : K → V)
        → outcome (behind answered written query) bank
        ≡ outcome query (laid answered written bank) }
    ensures asked { (answered : Answering K V X W) (written : List W) (query : Query K V X A)
        (bank : K → V)
        → asked (behind answered written query) bank
        ≡ flat_map (λ k. asked (answered written k) bank)
        (asked query (laid answered written bank)) }
{}
