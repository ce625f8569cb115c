// Next: one ring after the other.
ghost use Rattle.std.specs.Prelude.{◌≡◌, ◌<◌, true, false, ◌↔◌, length};
ghost use Rattle.cycle_space.specs.Shapes.{Due};
ghost use Rattle.cycle_space.specs.Moments.{shape, weights as weights_of};
ghost use Rattle.search.specs.Sought.{plan};
ghost use Rattle.net.specs.Keeps.{laid_out};
ghost use Rattle.net.specs.Views.{view, rings};
ghost use Rattle.net.specs.Calls.{FindsNext};

use crate::net::Net;
use crate::refusal::Refusal;
use measures::Measure;
use search::{Layout, lightest_odd};

impl<M: Measure> Net<'_, M> {
    // The net as the search takes it.
    fn layout(&self) -> Layout<'_, M>
        ensures drawn { plan result ≡ laid_out self.now.tables }
        ensures weighed { result.weights.now ≡ weights_of (view self.now) }
    {
        Layout {
            nodes: self.tables.nodes,
            ends: self.laid(),
            weights: self.weights(),
        }
    }

    // Whether all rings that are due are found.
    fn is_complete(&self) -> bool
        ensures due { (result ≡ true) ↔ Due (shape (view self.now)) (length (rings self.now)) }
        ensures room { result ≡ false → self.now.tables.found < 256 }
    {
        self.found() == self.due()
    }

    // Finds the next ring, in scratch of at least twice as many values as there are nodes; answers its number. (For `lent` and the members of the
    // measure see work.rt.)
    pub fn next(&mut self, scratch: &mut [M]) -> Result<usize, Refusal>
        ensures replied { FindsNext M.zero M.join M.within self.old scratch.old result self.new scratch.new }
        ensures lent { self.new.column.ghost_name ≡ self.old.column.ghost_name }
    {
        if self.is_complete() {
            return Err(Refusal::Complete);
        }
        let found = self.tables.found;
        let mut supports = self.supports();
        let Some(ring) = lightest_odd(&self.layout(), supports.of[found].words, scratch)? else {
            unreachable!() // as long as a ring is due, there is such a set
        };
        supports.turn(found, ring);
        self.tables.rows[found].words = ring;
        self.tables.supports = supports.of;
        self.tables.found = found + 1;
        Ok(found + 1)
    }
}
