//! Tokens of a file that are shared.

ghost use Rattle.std.specs.Prelude.{◌≡◌, ◌≤◌, ◌<◌, ◌↔◌, [], IsTrue, Some, flat_map, length, refl, IfOk, OnErr, OnOk, slice_range};
ghost use Rattle.std.specs.Cmp.{partial_equiv_from_equiv, partial_order_from_agreeing_total};
ghost use Rattle.std.specs.Cmp.Lexicographic.{bytes_decides, lists_equiv, lists_per, lists_ties, lists_total, nat_list_cmp_total, nat_list_eq_equiv, pointwise, pointwise_decides, slice_cmp, texts_ties};
ghost use Rattle.std.specs.Hash as fed;
ghost use Rattle.std.specs.Ordering.{nat_cmp};
ghost use Rattle.std.specs.Str.{bytes_eq};
ghost use Rattle.std.proofs.Common.{ap};
ghost use Rattle.idl_lex.specs.tokens.Tokens.{tokens_in, tokens_of};

use crate::tokens::chunk::{Ends, cut_chunk};
use idl_base::Datum;
use idl_lex::Token;
use idl_source::Line;
use std::alloc::{AllocError, Global};
use std::cmp::Ordering;
use std::hash::{Hash, Hasher};
use std::marker::Model;
use std::mem::replace;
use std::rc::Rc;

/// Tokens that are shared: those of a macro's body, of a pragma, or of a unit. To every contract they are their list, wherever
/// they stand.
#[derive(Drop)]
pub struct TokenRange {
    tokens: Rc<Vec<Token>>,
    from: u32,
    to: u32,
}

// A root has thousands of units.
const _: () = prove!(size_of::<TokenRange>() <= 16);

impl Model for TokenRange {
    ghost use Rattle.std.specs.Prelude.{◌≤◌, List, ℕ, length, slice_range};

    ghost Value = { List (List ℕ) };

    ghost view = { λ range. slice_range range.tokens.value.items range.from range.to };

    ghost invariant = { λ range. (range.from ≤ range.to) × (range.to ≤ length range.tokens.value.items) };
}

impl TokenRange {
    /// The tokens of these lines.
    pub fn of_lines(alloc: Global, lines: &[Line]) -> Result<TokenRange, AllocError>
        requires some { 0 < length lines.now }
        requires room { length lines.now ≤ 200000 }
        ensures { IfOk result (λ range. range ≡ tokens_in (tokens_of lines.now)) }
    {
        let ends = Ends {
            lines: lines.len(),
            old: None,
        };
        let chunk = cut_chunk(alloc, lines, ends)?;
        let tokens = chunk.tokens.tokens().clone()?;
        let to = tokens.len();
        TokenRange::new(tokens, 0, to)
    }

    /// The tokens of a list, which are shared from now on: none is left there. Want of memory leaves them there, and so do
    /// numbers from the first 2^32 on.
    pub fn take(tokens: &mut Vec<Token>) -> Result<TokenRange, AllocError>
        ensures range { IfOk result (λ range. range ≡ tokens.old.items) }
        ensures none { OnOk result (tokens.new.items ≡ []) }
        ensures kept { OnErr result (tokens.new.items ≡ tokens.old.items) }
    {
        let Ok(to) = u32::try_from(tokens.len()) else {
            return Err(AllocError);
        };
        let alloc = *tokens.allocator();
        match Rc::new(alloc, replace(tokens, Vec::new(alloc))) {
            Ok(shared) => Ok(TokenRange {
                tokens: shared,
                from: 0,
                to,
            }),
            Err(failed) => {
                *tokens = failed.value;
                Err(AllocError)
            }
        }
    }

    /// The tokens of a list from one number up to another. Numbers from the first 2^32 on are as want of memory.
    pub(crate) fn new(
        tokens: Rc<Vec<Token>>,
        from: usize,
        to: usize,
    ) -> Result<TokenRange, AllocError>
        requires order { from ≤ to }
        requires within { to ≤ length tokens.value.items }
        ensures { IfOk result (λ range. range ≡ slice_range tokens.value.items from to) }
    {
        let (Ok(from), Ok(to)) = (u32::try_from(from), u32::try_from(to)) else {
            return Err(AllocError);
        };
        Ok(TokenRange { tokens, from, to })
    }

    /// The tokens from one number up to another, shared with all.
    pub fn part(&self, from: usize, to: usize) -> Result<TokenRange, AllocError>
        requires order { from ≤ to }
        requires within { to ≤ length self.now }
        ensures { IfOk result (λ range. range ≡ slice_range self.now from to) }
    {
        let start = self.from as usize;
        TokenRange::new(self.tokens.clone()?, start + from, start + to)
    }

    /// How many tokens they are.
    pub fn len(&self) -> usize
        ensures { result ≡ length self.now }
    {
        (self.to - self.from) as usize
    }

    /// The tokens in order.
    pub fn as_slice(&self) -> &[Token]
        ensures { result.now ≡ self.now }
    {
        &self.tokens.as_slice()[self.from as usize..self.to as usize]
    }
}

impl Clone for TokenRange {
    ghost is_clone = { λ range copy. copy ≡ range };

    fn clone(&self) -> Result<TokenRange, AllocError> {
        Ok(TokenRange {
            tokens: self.tokens.clone()?,
            from: self.from,
            to: self.to,
        })
    }
}

impl PartialEq for TokenRange {
    ghost eq = { pointwise bytes_eq };

    ghost laws = { lists_per (partial_equiv_from_equiv nat_list_eq_equiv) };

    fn eq(&self, other: &TokenRange) -> bool
        ensures by_token { result ≡ pointwise bytes_eq self.now other.now }
        ensures exact { IsTrue result ↔ (self.now ≡ other.now) }
    {
        self.as_slice() == other.as_slice()
    }
}

impl Eq for TokenRange {
    ghost laws = { lists_equiv nat_list_eq_equiv };
}

impl PartialOrd for TokenRange {
    ghost partial_cmp = { λ x y. Some (slice_cmp (slice_cmp nat_cmp) x y) };

    ghost laws = { partial_order_from_agreeing_total (slice_cmp (slice_cmp nat_cmp)) (lists_total nat_list_cmp_total) (λ x y. refl) (lists_ties (slice_cmp nat_cmp) texts_ties) };

    fn partial_cmp(&self, other: &TokenRange) -> Option<Ordering> {
        Some(self.cmp(other))
    }
}

impl Ord for TokenRange {
    ghost cmp = { slice_cmp (slice_cmp nat_cmp) };

    ghost total = { lists_total nat_list_cmp_total };

    ghost matches_partial_cmp = { λ x y. refl };

    ghost matches_eq = { lists_ties (slice_cmp nat_cmp) texts_ties };

    fn cmp(&self, other: &TokenRange) -> Ordering
        ensures { result ≡ slice_cmp (slice_cmp nat_cmp) self.now other.now }
    {
        self.as_slice().cmp(&other.as_slice())
    }
}

impl Hash for TokenRange {
    ghost hash_input = { flat_map (fed.slice fed.u8) };

    ghost respects_eq = { λ x y h. ap (flat_map (fed.slice fed.u8)) ((pointwise_decides bytes_decides x y).0 h) };

    fn hash<H: Hasher>(&self, state: &mut H) {
        let mut left = self.as_slice();
        while let [token, rest @ ..] = left {
            token.hash(state);
            left = rest;
        }
    }
}

impl Datum for TokenRange {
    ghost same = { λ x y. (pointwise_decides bytes_decides x y).0 };

    ghost copy = { λ x y h. h };
}
