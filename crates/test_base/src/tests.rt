//! What no clause says: large values, worked examples, texts. Where rows stand in a table, a function answers the first
//! one that isn't right, and a test fails by `none_wrong`, which says it.

mod base;
mod lanes;
mod link;
mod mem;
mod queue;
mod ranges;
mod text;
mod time;
