// Theorems on weights, as the contracts of functions that have nothing else to do.
ghost use Rattle.cycle_space.specs.Moments.{WeightLaws};

use measures::Measure;

// The empty set weighs nothing, and sets without a common pipe weigh together what they weigh each.
pub fn weights_add_up<M: Measure>()
    ensures { WeightLaws M.Measure.zero M.Measure.join }
{}
