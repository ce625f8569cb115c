ghost use Rattle.std.specs.Prelude.{◌≡◌, ◌+◌, ◌^◌, ◌<◌, ◌≤◌, min, true, MatchResult};

use crate::measure::{FileMeasure, Measure, Strict, up_to};
use crate::refusal::Refusal;

// A length. The ghost field says what every value keeps: it is a number of 64 bits.
#[derive(Clone, Copy, PartialEq, Eq, PartialOrd, Ord, Hash, Debug)]
pub struct Length {
    pub value: u64,
    ghost fits: { value < 2 ^ 64 },
}

impl Length {
    pub fn new(value: u64) -> Length
        ensures { result.value ≡ value }
    {
        Length { value }
    }
}

impl Measure for Length {
    ghost use Rattle.measures.specs.Lengths.{no_length, greatest_length, together, not_longer};
    ghost use Rattle.measures.specs.OfLengths.{length_laws};

    ghost zero = { no_length };

    ghost ceiling = { greatest_length };

    ghost join = { together };

    ghost within = { not_longer };

    ghost lawful = { length_laws };

    fn zero() -> Length {
        Length { value: 0 }
    }

    fn ceiling() -> Length {
        Length { value: u64::MAX }
    }

    fn join(self, other: Length) -> Length
        ensures meant { result ≡ together self other }
        ensures sum { result.value ≡ min (self.value + other.value) 18446744073709551615 }
    {
        Length {
            value: self.value.saturating_add(other.value),
        }
    }

    fn at_most(self, other: Length) -> bool
        ensures meant { result ≡ not_longer self other }
        ensures only { result ≡ true → self.value ≤ other.value }
        ensures whenever { self.value ≤ other.value → result ≡ true }
    {
        self <= other
    }

    fn join_keeps_order() {}
}

impl Strict for Length {
    fn join_keeps_lighter() {}
}

impl FileMeasure for Length {
    ghost use Rattle.measures.specs.Numbers.{Read};
    ghost use Rattle.measures.specs.Lengths.{capped};

    const GREATEST: u64 = 1_000_000_000;

    ghost GREATEST = { 1000000000 };

    ghost standing = { capped };

    fn of_number(number: u64) -> Result<Length, Refusal>
        ensures meant { result ≡ Read capped 1000000000 number }
        ensures itself { MatchResult result (λ made. made.value ≡ number) (λ _. 1000000000 < number) }
    {
        let value = up_to(Self::GREATEST, number)?;
        Ok(Length { value })
    }
}
