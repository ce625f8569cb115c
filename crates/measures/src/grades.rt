ghost use Rattle.std.specs.Prelude.{◌≡◌, ◌^◌, ◌<◌, ◌≤◌, max, true, MatchResult};

use crate::measure::{FileMeasure, Measure, up_to};
use crate::refusal::Refusal;

// A grade. The ghost field says what every value keeps: it is a number of 8 bits. A type of its own beside Length, since it is joined by another rule,
// with other laws.
#[derive(Clone, Copy, PartialEq, Eq, PartialOrd, Ord, Hash, Debug)]
pub struct Grade {
    pub value: u8,
    ghost fits: { value < 2 ^ 8 },
}

impl Grade {
    pub fn new(value: u8) -> Grade
        ensures { result.value ≡ value }
    {
        Grade { value }
    }
}

impl Measure for Grade {
    ghost use Rattle.measures.specs.Grades.{no_grade, greatest_grade, higher, not_higher};
    ghost use Rattle.measures.specs.OfGrades.{grade_laws};

    ghost zero = { no_grade };

    ghost ceiling = { greatest_grade };

    ghost join = { higher };

    ghost within = { not_higher };

    ghost lawful = { grade_laws };

    fn zero() -> Grade {
        Grade { value: 0 }
    }

    fn ceiling() -> Grade {
        Grade { value: u8::MAX }
    }

    fn join(self, other: Grade) -> Grade
        ensures meant { result ≡ higher self other }
        ensures highest { result.value ≡ max self.value other.value }
    {
        self.max(other)
    }

    fn at_most(self, other: Grade) -> bool
        ensures meant { result ≡ not_higher self other }
        ensures only { result ≡ true → self.value ≤ other.value }
        ensures whenever { self.value ≤ other.value → result ≡ true }
    {
        self <= other
    }

    fn join_keeps_order() {}
}

impl FileMeasure for Grade {
    ghost use Rattle.measures.specs.Numbers.{Read};
    ghost use Rattle.measures.specs.Grades.{topped};

    const GREATEST: u64 = 255;

    ghost GREATEST = { 255 };

    ghost standing = { topped };

    fn of_number(number: u64) -> Result<Grade, Refusal>
        ensures meant { result ≡ Read topped 255 number }
        ensures itself { MatchResult result (λ made. made.value ≡ number) (λ _. 255 < number) }
    {
        let value = up_to(Self::GREATEST, number)?;
        // `as`, which is proved to lose nothing: `try_from` would have a branch that is never taken
        Ok(Grade { value: value as u8 })
    }
}
