//! The tests, by subject.

mod checks;
mod diffs;
mod editors;
mod explains;
mod jsons;
mod rules;
mod support;
