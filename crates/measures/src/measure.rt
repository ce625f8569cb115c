ghost use Rattle.std.specs.Prelude.{◌≡◌, ℕ, Bool};
ghost use Rattle.measures.specs.Laws.{Laws, KeepsOrder, KeepsLighter};
ghost use Rattle.measures.specs.Numbers.{Read};

use crate::refusal::Refusal;

// A measure: values with a zero and a ceiling, that are joined, and of which any two can be weighed. They are weighed by `at_most` and not by a
// `PartialOrd`, for which level values would have to be equal.
pub trait Measure: Copy {
    // No weight at all.
    ghost zero: { Self };

    // The greatest weight.
    ghost ceiling: { Self };

    // Two values together.
    ghost join: { Self → Self → Self };

    // The first is at most the second.
    ghost within: { Self → Self → Bool };

    fn zero() -> Self
        ensures { result ≡ zero };

    fn ceiling() -> Self
        ensures { result ≡ ceiling };

    fn join(self, other: Self) -> Self
        ensures { result ≡ join self other };

    fn at_most(self, other: Self) -> bool
        ensures { result ≡ within self other };

    // A promise, and no work: what is joined to both sides keeps their order. It is a function and no law by a rule of the project.
    fn join_keeps_order()
        ensures { KeepsOrder join within };

    ghost lawful: { Laws zero ceiling join within };
}

// A measure that has room to tell values apart: below the ceiling, what is joined to both sides keeps the lighter one lighter.
pub trait Strict: Measure {
    // A promise, and no work; a function and no law by a rule of the project.
    fn join_keeps_lighter()
        ensures { KeepsLighter Self.Measure.ceiling Self.Measure.join Self.Measure.within };
}

// A measure whose values stand in files, as numbers.
pub trait FileMeasure: Measure {
    // The greatest number that stands for a value.
    const GREATEST: u64;

    // The same number, for clauses.
    ghost GREATEST: { ℕ };

    // The value that a number stands for.
    ghost standing: { ℕ → Self };

    // The value of a file's number. No `TryFrom`, which says what it answers by a relation of its own: a law would have to tie it to this clause.
    fn of_number(number: u64) -> Result<Self, Refusal>
        ensures { result ≡ Read standing GREATEST number };
}

// The number, where it is at most the greatest.
pub(crate) fn up_to(greatest: u64, number: u64) -> Result<u64, Refusal>
    ensures { result ≡ Read (λ n. n) greatest number }
{
    if number <= greatest {
        Ok(number)
    } else {
        Err(Refusal::FileNumberTooGreat)
    }
}
