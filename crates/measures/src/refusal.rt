ghost use Rattle.std.specs.Prelude.{◌≡◌, Some};
ghost use Rattle.measures.specs.Refusals.{number, words};

use std::error::Error;
use std::fmt;

// Why a file's number is made no value.
#[derive(Clone, Copy, PartialEq, Eq, Debug)]
pub enum Refusal {
    // It is above the greatest that the measure takes.
    FileNumberTooGreat = 9,
}

impl Refusal {
    // The number by which the refusal is known.
    pub fn number(self) -> u8
        ensures { result ≡ number self }
    {
        self as u8
    }

    // The reason, in words.
    pub fn reason(self) -> &'static str
        ensures { result.now ≡ words self }
    {
        match self {
            Refusal::FileNumberTooGreat => "the file number is above the measure's greatest",
        }
    }
}

// Written and not derived: what a derive prints, no contract says.
impl fmt::Display for Refusal {
    ghost output = { λ e. Some (words e) };

    fn fmt<W: fmt::Write>(&self, f: &mut fmt::Formatter<W>) -> fmt::Result {
        f.write_str(self.reason())
    }
}

impl Error for Refusal {}
