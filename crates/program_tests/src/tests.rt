//! The tests, by subject.

mod batches;
mod copies;
mod devices;
mod embedding;
mod examples;
mod failures;
mod limits;
mod loads;
mod options;
mod room;
mod sessions;
mod support;
