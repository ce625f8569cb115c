// A net of pipes over the caller's column of weights: work on it, questions about it, and its light rings one by one.
#![tactic(auto)]

mod labels;
mod net;
mod next;
mod places;
mod questions;
mod refusal;
mod rings;
mod supports;
mod tables;
mod theorems;
mod weight;
mod work;

pub use cycle_space::{Ends, has, parity, single, sum};
pub use net::Net;
pub use refusal::{NoRow, Refusal};
pub use theorems::weights_add_up;
pub use weight::weight_of;
