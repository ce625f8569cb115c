// Trials of the net: an example for each refusal, the limits, and small nets with known parts, due numbers and rings, rows, and a caller.
#![tactic(auto)]

mod columns;
#[cfg(test)]
mod nets;
#[cfg(test)]
mod refusals;
#[cfg(test)]
mod rings;
#[cfg(test)]
mod rows;

pub use columns::first_pipe_takes_the_first_place;
