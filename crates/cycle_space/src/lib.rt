// The cycle space of a net's shape: rows of pipes with their sum and parity, and the theorems on parts, labels and the due number.
#![tactic(auto)]

mod ends;
mod rows;
mod theorems;

pub use ends::Ends;
pub use rows::{has, parity, single, sum};
pub use theorems::{
    bases_exist, bases_have_due_size, closing_pipes_tell_closed_sets,
    due_is_the_number_of_closing_pipes, labels_tell_parts, nets_keep_their_laws,
    parity_keeps_its_laws, part_is_an_equivalence, parts_are_counted,
    rows_are_known_by_their_pipes, sum_keeps_its_laws, supports_begin_with_closing_pipes,
};
