ghost use Rattle.std.specs.Prelude.{◌≡◌, Some};
ghost use Rattle.cycle_space.specs.Rows.{empty};
ghost use Rattle.net.specs.Refusals.{number, words};
ghost use Rattle.net.specs.declared.refusal.Refusal.TheVariants.{ScratchTooShort as TooShort};

use search::ScratchTooShort;
use std::error::Error;
use std::fmt;

// Why a call is declined. `measures` has a refusal of its own with the same three functions; a trait for them would be longer than they are.
#[derive(Clone, Copy, PartialEq, Eq, Debug)]
pub enum Refusal {
    // There are 64 nodes already.
    NodesFull = 1,
    // An end is no node.
    NoSuchNode = 2,
    // Both ends are one node.
    OneNode = 3,
    // There are 256 pipes already, or the column is full.
    PipesFull = 4,
    // There is no such pipe.
    NoSuchPipe = 5,
    // All due rings are found.
    Complete = 6,
    // The scratch has too few places.
    ScratchTooShort = 7,
    // No such ring is found.
    NoSuchRing = 8,
}

impl From<ScratchTooShort> for Refusal {
    ghost from_gives = { λ _ r. r ≡ TooShort };

    fn from(_short: ScratchTooShort) -> Refusal {
        Refusal::ScratchTooShort
    }
}

// Why a question for a row is declined; by a rule of the project a row of zeros stands beside the refusal.
#[derive(Clone, Copy, PartialEq, Eq, Debug)]
pub struct NoRow {
    pub refusal: Refusal,
    pub row: [u64; 4],
}

impl From<Refusal> for NoRow {
    ghost from_gives = { λ e r. r ≡ record { refusal = e; row = empty } };

    fn from(refusal: Refusal) -> NoRow {
        NoRow {
            refusal,
            row: [0; 4],
        }
    }
}

impl Refusal {
    // The number by which the refusal is known.
    pub fn number(self) -> u8
        ensures { result ≡ number self }
    {
        self as u8
    }

    // The reason, in words.
    pub fn reason(self) -> &'static str
        ensures { result.now ≡ words self }
    {
        match self {
            Refusal::NodesFull => "there are 64 nodes already",
            Refusal::NoSuchNode => "an end is no node",
            Refusal::OneNode => "both ends are one node",
            Refusal::PipesFull => "there are 256 pipes already, or the column is full",
            Refusal::NoSuchPipe => "there is no such pipe",
            Refusal::Complete => "all due rings are found",
            Refusal::ScratchTooShort => "the scratch has too few places",
            Refusal::NoSuchRing => "no such ring is found",
        }
    }
}

// Printing is written and not derived: what a derive prints, no contract says.
impl fmt::Display for Refusal {
    ghost output = { λ e. Some (words e) };

    fn fmt<W: fmt::Write>(&self, f: &mut fmt::Formatter<W>) -> fmt::Result {
        f.write_str(self.reason())
    }
}

impl Error for Refusal {}

// It prints its refusal; written and not derived, as above.
impl fmt::Display for NoRow {
    ghost output = { λ e. Some (words e.refusal) };

    fn fmt<W: fmt::Write>(&self, f: &mut fmt::Formatter<W>) -> fmt::Result {
        f.write_str(self.refusal.reason())
    }
}

impl Error for NoRow {}
