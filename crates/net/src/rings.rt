// Questions about the rings found. Clauses name members of the measure for the reason that is told in work.rt.
ghost use Rattle.std.specs.Prelude.{◌≡◌};
ghost use Rattle.cycle_space.specs.Rivals.{joined_weight};
ghost use Rattle.cycle_space.specs.Moments.{weight as set_weight};
ghost use Rattle.net.specs.Views.{view, rings, support as support_of};
ghost use Rattle.net.specs.Calls.{ring_row, TellsRow, TellsRingWeight};

use crate::net::Net;
use crate::refusal::{NoRow, Refusal};
use crate::weight::weight_of;
use measures::Measure;

impl<M: Measure> Net<'_, M> {
    // The row of a ring.
    pub fn ring(&self, ring: usize) -> Result<[u64; 4], NoRow>
        ensures { TellsRow self.now ring (ring_row self.now ring) result }
    {
        Ok(self.tables.rows[self.ring_place(ring)?].words)
    }

    // The support of a ring.
    pub fn support(&self, ring: usize) -> Result<[u64; 4], NoRow>
        ensures { TellsRow self.now ring (support_of self.now ring) result }
    {
        Ok(self.tables.supports[self.ring_place(ring)?].words)
    }

    // The weight of a set of the net's pipes.
    fn weighed(&self, row: [u64; 4]) -> M
        ensures { result ≡ set_weight M.Measure.zero M.Measure.join (view self.now) row }
    {
        weight_of(self.weights(), row)
    }

    // The weight of a ring.
    pub fn ring_weight(&self, ring: usize) -> Result<M, Refusal>
        ensures { TellsRingWeight M.Measure.zero M.Measure.join self.now ring result }
    {
        Ok(self.weighed(self.tables.rows[self.ring_place(ring)?].words))
    }

    // The joined weight of all rings found; zero if there is none. A loop, as the weight of a set is.
    pub fn joined_weight(&self) -> M
        ensures { result ≡ joined_weight M.Measure.zero M.Measure.join (view self.now) (rings self.now) }
    {
        let mut joined = M::zero();
        for row in &self.tables.rows[..self.tables.found] {
            joined = joined.join(self.weighed(row.words));
        }
        joined
    }
}
