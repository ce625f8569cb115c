ghost use Rattle.std.specs.Prelude.{◌≡◌, ℕ, ◌<◌, length};
ghost use Rattle.cycle_space.specs.Supports.{alone, Extended};
ghost use Rattle.net.specs.Keeps.{laid_out, row_at, supports_of};

use crate::labels::Labels;
use crate::net::Net;
use crate::tables::{NO_PIPES, StoredRow};
use cycle_space::{parity, single, sum};
use measures::Measure;

// The supports as next works on them: that of ring i at the place i - 1.
#[derive(Drop)]
pub(crate) struct Supports {
    pub(crate) of: [StoredRow; 256],
}

impl Supports {
    // After a ring is found, its support is added to every later one that is odd against the ring.
    pub(crate) fn turn(&mut self, found: usize, ring: [u64; 4])
        requires { found < 256 }
        ensures turned { Extended found (row_at self.old.of) ring (row_at self.new.of) }
        ensures long { length self.new.of ≡ 256 }
    {
        let own = self.of[found].words;
        for later in &mut self.of[found + 1..] {
            if parity(ring, later.words) {
                later.words = sum(later.words, own);
            }
        }
    }
}

impl<M: Measure> Net<'_, M> {
    // Each closing pipe alone, in the order of the pipes.
    fn closing_pipes(&self) -> Supports
        ensures { (i : ℕ) → row_at result.of i ≡ alone (laid_out self.now.tables) i }
    {
        let mut of = [NO_PIPES; 256];
        let mut labels = Labels::own();
        let mut closing = 0; // by hand: an iterator of the rows would answer each in an option that is never none
        for (place, ends) in self.laid().iter().enumerate() {
            if labels.joined(*ends) {
                of[closing].words = single(place + 1);
                closing += 1;
            }
            labels.lay(*ends);
        }
        Supports { of }
    }

    // The supports as they stand: before the first ring, each closing pipe alone.
    pub(crate) fn supports(&self) -> Supports
        ensures { (i : ℕ) → row_at result.of i ≡ supports_of self.now.tables i }
    {
        // no ring yet, and so no support is written: a lay costs no labelling
        if self.tables.found == 0 {
            return self.closing_pipes();
        }
        Supports {
            of: self.tables.supports,
        }
    }
}
