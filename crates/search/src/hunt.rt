// What is searched for, and where a pipe leads to.
ghost use Rattle.measures.specs.Laws.{KeepsOrder};

use crate::layout::Layout;
use crate::mark::state;
use cycle_space::has;
use measures::Measure;

// A search: over which net, and against which support.
#[derive(Drop)]
pub(crate) struct Hunt<'a, M: Measure> {
    pub(crate) net: &'a Layout<'a, M>,
    pub(crate) support: [u64; 4],
    // what is joined to both sides keeps their order
    ghost order: { KeepsOrder M.join M.within },
}

// States and pipes are asked for as in front.rt.
impl<M: Measure> Hunt<'_, M> {
    ghost use Rattle.std.specs.Prelude.{◌≡◌, ◌<◌, ◌≤◌, length};
    ghost use Rattle.search.specs.Layouts.{states};
    ghost use Rattle.search.specs.Fronts.{Inside};
    ghost use Rattle.search.specs.Sought.{plan};
    ghost use Rattle.search.specs.Tasks.{arc, arrival};

    // The state at the node, come to from the state u over the pipe at the place.
    fn arrival(&self, node: usize, u: usize, place: usize) -> usize
        requires { (1 ≤ node) × (node ≤ 64) × (place < 256) }
        ensures { result ≡ arrival self.now.support node u place }
    {
        if has(self.support, place + 1) {
            state(node, 1 - u % 2)
        } else {
            state(node, u % 2)
        }
    }

    // The state on the other side of the pipe at the place from the state u, if the pipe lies at u's node.
    pub(crate) fn across(&self, u: usize, place: usize) -> Option<usize>
        requires { place < length self.now.net.now.ends.now }
        ensures leads { result ≡ arc (plan self.now.net.now) self.now.support u place }
        ensures inside { Inside (states self.now.net.now) result }
    {
        let node = u / 2 + 1;
        let ends = self.net.ends[place];
        if ends.first == node {
            Some(self.arrival(ends.second, u, place))
        } else if ends.second == node {
            Some(self.arrival(ends.first, u, place))
        } else {
            None
        }
    }
}
