// The search for the lightest closed set of pipes that is odd against a given set.
#![tactic(auto)]

mod front;
mod hunt;
mod layout;
mod lightest;
mod mark;
mod search;

pub use layout::Layout;
pub use lightest::{ScratchTooShort, lightest_odd};
