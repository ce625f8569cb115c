// Numbers and places: nodes, pipes and rings are numbered from 1, and what is numbered j stands at the place j - 1 of its table.
ghost use Rattle.std.specs.Prelude.{◌≡◌, true, ◌↔◌};
ghost use Rattle.cycle_space.specs.Shapes.{Node};
ghost use Rattle.cycle_space.specs.Moments.{shape};
ghost use Rattle.net.specs.Places.{IsPlace, PlaceOf};
ghost use Rattle.net.specs.Views.{view};
ghost use Rattle.net.specs.Calls.{PipeDeclined, RingDeclined, Answered};

use crate::net::Net;
use crate::refusal::Refusal;
use measures::Measure;

// The place of a number from 1 to `count`.
fn place(number: usize, count: usize) -> Option<usize>
    ensures { PlaceOf number count result }
{
    number.checked_sub(1).filter(|place| *place < count)
}

impl<M: Measure> Net<'_, M> {
    // Whether the node is there.
    pub(crate) fn has_node(&self, node: usize) -> bool
        ensures { (result ≡ true) ↔ Node (shape (view self.now)) node }
    {
        (1..=self.tables.nodes).contains(&node)
    }

    // The place of a pipe that is laid.
    pub(crate) fn pipe_place(&self, pipe: usize) -> Result<usize, Refusal>
        ensures { Answered (PipeDeclined self.now pipe) (λ place. IsPlace pipe self.now.tables.pipes place) result }
    {
        place(pipe, self.tables.pipes).ok_or(Refusal::NoSuchPipe)
    }

    // The place of a ring that is found.
    pub(crate) fn ring_place(&self, ring: usize) -> Result<usize, Refusal>
        ensures { Answered (RingDeclined self.now ring) (λ place. IsPlace ring self.now.tables.found place) result }
    {
        place(ring, self.tables.found).ok_or(Refusal::NoSuchRing)
    }
}
