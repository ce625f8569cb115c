// The front of a search.
ghost use Rattle.std.specs.Prelude.{◌≤◌, length};
ghost use Rattle.search.specs.Layouts.{states};

use crate::hunt::Hunt;
use crate::mark::Mark;
use cycle_space::{single, sum};
use measures::Measure;

// A search from one node on its way: the marks of the states, and how far each reached state is. The distances stand in the caller's scratch, `dist`:
// by a rule of the project nothing here takes heap.
#[derive(Drop)]
pub(crate) struct Front<'a, M: Measure> {
    pub(crate) hunt: &'a Hunt<'a, M>,
    pub(crate) start: usize,
    pub(crate) dist: &'a mut [M],
    pub(crate) marks: [Mark; 128],
    // the start is a node
    ghost start_in: { (1 ≤ start) × (start ≤ hunt.now.net.now.nodes) },
    // dist has a place for each state
    ghost room: { states hunt.now.net.now ≤ length dist.now },
}

// States and pipes are asked to be of this net: as types of their own they would hold the net, and no call would be plainer. Each method that writes says
// that the task stays (`same`), a fact of two moments, which no type keeps. The choice and the relaxing are defined for any members of a measure, as their
// lemmas are, so clauses name those that they need.
impl<M: Measure> Front<'_, M> {
    ghost use Rattle.std.specs.Prelude.{◌≡◌, ◌<◌, true, slice_index_or};
    ghost use Rattle.search.specs.Marks.{mark, reached};
    ghost use Rattle.search.specs.Fronts.{Picked, Inside, Nearer};
    ghost use Rattle.search.specs.Tasks.{task_of};
    ghost use Rattle.search.specs.Steps.{better, Entered, Relaxed};

    // The nearer of the state best, if there is one, and the state k.
    fn nearer(&self, best: Option<usize>, k: usize) -> usize
        requires { (k < states self.now.hunt.now.net.now) × (Inside (states self.now.hunt.now.net.now) best) }
        ensures { Nearer M.zero M.within self.now.dist.now best k result }
    {
        match best {
            Some(b) if self.dist[b].at_most(self.dist[k]) => b,
            _ => k,
        }
    }

    // The nearest of the open states.
    pub(crate) fn nearest_open(&self) -> Option<usize>
        ensures { Picked M.zero M.within self.now.dist.now self.now.marks (states self.now.hunt.now.net.now) result }
    {
        let mut best = None;
        for (k, mark) in self.marks[..2 * self.hunt.net.nodes].iter().enumerate() {
            if mark.is_open() {
                best = Some(self.nearer(best, k));
            }
        }
        best
    }

    // Whether the distance reach improves the state v: v is not reached yet, or it is open and not at that distance or a smaller one.
    fn improves(&self, v: usize, reach: M) -> bool
        requires { v < states self.now.hunt.now.net.now }
        ensures { result ≡ better M.within (mark self.now.marks v) (slice_index_or self.now.dist.now v M.zero) reach }
    {
        match self.marks[v] {
            Mark::Unreached => true,
            Mark::Open(_) => !self.dist[v].at_most(reach),
            Mark::Settled(_) => false,
        }
    }

    // Reaches the state v from the state u over the pipe at the place.
    fn enter(&mut self, u: usize, v: usize, place: usize, reach: M)
        requires inside { (u < states self.old.hunt.now.net.now) × (v < states self.old.hunt.now.net.now) × (place < 256) }
        requires from { reached self.old.marks u ≡ true }
        ensures same { task_of self.new ≡ task_of self.old }
        ensures entered { Entered self.old.marks self.old.dist.now u v place reach self.new.marks self.new.dist.now }
    {
        let row = self.marks[u].row().unwrap();
        self.dist[v] = reach;
        self.marks[v] = Mark::Open(sum(row, single(place + 1))); // the pipe comes in, or goes out where it was in
    }

    // Reaches the state v from the state u over the pipe at the place, of the weight w, if v is not nearer already.
    pub(crate) fn relax(&mut self, u: usize, v: usize, place: usize, w: M)
        requires inside { (u < states self.old.hunt.now.net.now) × (v < states self.old.hunt.now.net.now) × (place < 256) }
        requires from { reached self.old.marks u ≡ true }
        ensures same { task_of self.new ≡ task_of self.old }
        ensures relaxed { Relaxed M.zero M.join M.within self.old.marks self.old.dist.now u v place w self.new.marks self.new.dist.now }
    {
        let reach = self.dist[u].join(w);
        if self.improves(v, reach) {
            self.enter(u, v, place, reach);
        }
    }
}
