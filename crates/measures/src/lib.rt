// Measures: values that are joined and weighed, with the laws that each kind of them keeps.
#![tactic(auto)]

mod grades;
mod lengths;
mod measure;
mod pairs;
mod refusal;
#[cfg(test)]
mod tests;

pub use grades::Grade;
pub use lengths::Length;
pub use measure::{FileMeasure, Measure, Strict};
pub use pairs::Pair;
pub use refusal::Refusal;
