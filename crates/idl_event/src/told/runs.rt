//! The tokens of a text, as runs of tokens that are shared.

ghost use Rattle.std.specs.Prelude.{◌≡◌, ◌≤◌, ◌<◌, ◌+◌, ◌^◌, ◌++◌, List, IfNone, IfOk, IfSome, None, OnErr, OnOk, Some, drop, length, slice_get, take};
ghost use Rattle.idl_event.specs.Runs.{tokens_of};
ghost use Rattle.idl_lex.specs.tokens.Tokens.{Token as Bytes};

use idl_lex::Token;
use idl_text::TokenRange;
use std::alloc::{AllocError, Global};
use std::marker::Model;

/// The tokens of a text, as runs of tokens that are shared: to every contract the list of them.
#[derive(Drop)]
pub struct TokenRuns {
    runs: Vec<TokenRange>,
    // How many tokens are before each of them.
    starts: Vec<u32>,
    count: u32,
}

impl Model for TokenRuns {
    ghost use Rattle.std.specs.Prelude.{◌≡◌, ◌<◌, ◌^◌, List, length};
    ghost use Rattle.idl_event.specs.Runs.{starts_of, tokens_of};
    ghost use Rattle.idl_lex.specs.tokens.Tokens.{Token};

    ghost Value = { List Token };

    ghost view = { λ r. tokens_of r.runs.items };

    ghost invariant = { λ r. (r.starts.items ≡ starts_of 0 r.runs.items)
        × (r.count ≡ length (tokens_of r.runs.items)) };
}

impl TokenRuns {
    /// The tokens of these runs, end to end. Numbers from the first 2^32 on are as want of memory.
    pub fn new(alloc: Global, runs: Vec<TokenRange>) -> Result<TokenRuns, AllocError>
        ensures { IfOk result (λ all. all ≡ tokens_of runs.items) }
    {
        let mut starts = Vec::with_capacity(alloc, runs.len())?;
        let mut count = 0;
        'runs: for run in &runs {
            starts.push(count)?;
            count = sum(count, run.len())?;
        }
        Ok(TokenRuns {
            runs,
            starts,
            count,
        })
    }

    /// How many tokens they are.
    pub fn len(&self) -> usize
        ensures value { result ≡ length self.now }
        ensures small { result < 2 ^ 32 }
    {
        self.count as usize
    }

    /// The run that the token with this number is in, and how many tokens of the run are before it.
    pub fn run_from(&self, index: usize) -> Option<(&TokenRange, usize)>
        ensures some { IfSome result (λ at. (at.1 < length at.0.now)
            × (rest : List Bytes) × (drop index self.now ≡ drop at.1 at.0.now ++ rest)) }
        ensures none { IfNone result (length self.now ≤ index) }
    {
        if self.count as usize <= index {
            return None;
        }
        let place = self
            .starts
            .partition_point(|start| *start as usize <= index)
            - 1;
        Some((&self.runs[place], index - self.starts[place] as usize))
    }

    /// The token with this number.
    pub fn get(&self, index: usize) -> Option<&Token>
        ensures some { IfSome result (λ t. slice_get self.now index ≡ Some t.now) }
        ensures none { IfNone result (slice_get self.now index ≡ None) }
    {
        let (run, place) = self.run_from(index)?;
        run.as_slice().get(place)
    }

    /// Copies of the tokens from one on: of so many, or of all where there are fewer.
    pub fn gathered(
        &self,
        alloc: Global,
        from: usize,
        count: usize,
    ) -> Result<Vec<Token>, AllocError>
        ensures { IfOk result (λ tokens. tokens.items ≡ take count (drop from self.now)) }
    {
        let mut left = count.min(self.len().saturating_sub(from));
        let mut gathered = Vec::with_capacity(alloc, left)?;
        'runs: while left > 0 {
            let Some((run, place)) = self.run_from(from + gathered.len()) else {
                return Ok(gathered);
            };
            let (_before, front) = run.as_slice().split_at(place);
            let more = front.len().min(left);
            push_clones(&mut gathered, &front[..more])?;
            left -= more;
        }
        Ok(gathered)
    }
}

// The number of so many tokens and so many more.
fn sum(count: u32, more: usize) -> Result<u32, AllocError>
    ensures { IfOk result (λ sum. sum ≡ count + more) }
{
    let Ok(more) = u32::try_from(more) else {
        return Err(AllocError);
    };
    match count.checked_add(more) {
        Some(sum) => Ok(sum),
        None => Err(AllocError),
    }
}

/// Copies of these tokens go behind the others. Want of memory leaves these as they were.
pub fn push_clones(text: &mut Vec<Token>, tokens: &[Token]) -> Result<(), AllocError>
    ensures ok { OnOk result (text.new.items ≡ text.old.items ++ tokens.now) }
    ensures err { OnErr result (text.new.items ≡ text.old.items) }
{
    let before = text.len();
    text.reserve(tokens.len())?;
    'tokens: for token in tokens {
        match token.clone() {
            Ok(token) => text.push_reserved(token),
            Err(error) => {
                text.truncate(before);
                return Err(error);
            }
        }
    }
    Ok(())
}
