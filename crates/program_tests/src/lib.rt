//! What no clause of the crates below says: calls of sessions that succeed, and the first program over files in memory, for words and files,
//! what goes out and how it ends.
#![tactic(auto)]

#[cfg(test)]
mod tests;
