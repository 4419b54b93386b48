//! What no clause says: worked examples, large values, growths that are refused.

mod batches;
mod board;
mod configs;
mod exec;
mod kernel;
mod objects;
mod ready;
mod shapes;
mod sysgate;
mod tasks;
mod time_handlers;
