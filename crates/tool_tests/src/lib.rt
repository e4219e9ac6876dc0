//! The second program and its server over files in memory: for words and files, and for messages of an editor, what goes out and how it ends.
#![tactic(auto)]

#[cfg(test)]
mod tests;
