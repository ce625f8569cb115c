ghost use Rattle.std.specs.Prelude.{◌≡◌};
ghost use Rattle.cycle_space.specs.Rows.{empty};
ghost use Rattle.cycle_space.specs.Moments.{weight_from};

use cycle_space::has;
use measures::Measure;

// The weight of a set of pipes, where the column has the weight of pipe j at the place j - 1: the joined weights of its pipes, and zero
// for the empty set. A loop and no fold, by a rule of the project.
pub fn weight_of<M: Measure>(column: &[M], row: [u64; 4]) -> M
    ensures joined { result ≡ weight_from M.Measure.zero M.Measure.join row 1 column.now }
    ensures nothing { row ≡ empty → result ≡ M.Measure.zero }
{
    let mut sum = M::zero();
    for (place, weight) in column.iter().enumerate() {
        if has(row, place + 1) {
            sum = sum.join(*weight);
        }
    }
    sum
}
