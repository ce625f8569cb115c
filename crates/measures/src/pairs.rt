ghost use Rattle.std.specs.Prelude.{◌≡◌};
ghost use Rattle.measures.specs.Pairs.{both, part_by_part, not_heavier, FirstDecides};
ghost use Rattle.measures.specs.OfPairs.{pair_laws};

use crate::measure::{Measure, Strict};

// Two measures as one: the first decides, and the second where the firsts are level.
#[derive(Clone, Copy, PartialEq, Eq, Debug)]
pub struct Pair<A, B> {
    pub first: A,
    pub second: B,
}

impl<A: Strict, B: Measure> Pair<A, B> {
    // A promise, and no work: how any two pairs are weighed.
    pub fn first_decides()
        ensures { FirstDecides A.Measure.ceiling A.Measure.within B.Measure.within }
    {}
}

// No strict measure: between level firsts, a join can make unlike seconds level.
impl<A: Strict, B: Measure> Measure for Pair<A, B> {
    ghost zero = { both A.Measure.zero B.Measure.zero };

    ghost ceiling = { both A.Measure.ceiling B.Measure.ceiling };

    ghost join = { part_by_part A.Measure.join B.Measure.join };

    ghost within = { not_heavier A.Measure.ceiling A.Measure.within B.Measure.within };

    ghost lawful = { pair_laws A.Measure.lawful B.Measure.lawful };

    fn zero() -> Self {
        Pair {
            first: A::zero(),
            second: B::zero(),
        }
    }

    fn ceiling() -> Self {
        Pair {
            first: A::ceiling(),
            second: B::ceiling(),
        }
    }

    fn join(self, other: Self) -> Self {
        Pair {
            first: self.first.join(other.first),
            second: self.second.join(other.second),
        }
    }

    fn at_most(self, other: Self) -> bool {
        let top = A::ceiling();
        let both_full = top.at_most(self.first) && top.at_most(other.first);
        let lighter = !other.first.at_most(self.first);
        both_full
            || lighter
            || (self.first.at_most(other.first) && self.second.at_most(other.second))
    }

    fn join_keeps_order() {
        A::join_keeps_order();
        A::join_keeps_lighter();
        B::join_keeps_order();
    }
}
