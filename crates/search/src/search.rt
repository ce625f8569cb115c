// The search from one node: label-setting, over states. (States, pipes and `same` are as in front.rt.)
ghost use Rattle.std.specs.Prelude.{◌≡◌, ◌<◌, ◌≤◌, length};
ghost use Rattle.search.specs.Layouts.{states};
ghost use Rattle.search.specs.Fronts.{Nearest};
ghost use Rattle.search.specs.Tasks.{task, task_of};
ghost use Rattle.search.specs.Searches.{IsSearching, IsSettling, HasShortest, unsettled};

use crate::front::Front;
use crate::hunt::Hunt;
use crate::mark::{Mark, state};
use measures::Measure;

impl<'a, M: Measure> Front<'a, M> {
    // The start is reached, and nothing else. Start and scratch are handed over here, so what they must be is asked here; from then on the front keeps it.
    pub(crate) fn at_start(hunt: &'a Hunt<'a, M>, start: usize, dist: &'a mut [M]) -> Front<'a, M>
        requires inside { (1 ≤ start) × (start ≤ hunt.now.net.now.nodes) }
        requires room { states hunt.now.net.now ≤ length dist.old }
        ensures same { task_of result ≡ task hunt.now start }
        ensures searching { IsSearching result }
    {
        let s = state(start, 0);
        dist[s] = M::zero();
        let mut marks = [Mark::Unreached; 128];
        marks[s] = Mark::Open([0; 4]);
        Front {
            hunt,
            start,
            dist,
            marks,
        }
    }

    // Relaxes every pipe at the node of the state u, which has just been settled.
    fn spread(&mut self, u: usize)
        requires inside { u < states self.old.hunt.now.net.now }
        requires settling { IsSettling self.old u 0 }
        ensures same { task_of self.new ≡ task_of self.old }
        ensures left { unsettled self.new.marks ≡ unsettled self.old.marks }
        ensures settling { IsSettling self.new u (task_of self.new).shape.pipes }
    {
        for (place, weight) in self.hunt.net.weights.iter().enumerate() {
            if let Some(v) = self.hunt.across(u, place) {
                self.relax(u, v, place, *weight);
            }
        }
    }

    // Settles u, the nearest of the open states. In its midst the front is settling and not searching, so that it is searching is no ghost field.
    fn settle(&mut self, u: usize)
        requires searching { IsSearching self.old }
        requires nearest { Nearest M.zero M.within self.old.dist.now self.old.marks (states self.old.hunt.now.net.now) u }
        ensures same { task_of self.new ≡ task_of self.old }
        ensures fewer { unsettled self.new.marks < unsettled self.old.marks }
        ensures searching { IsSearching self.new }
    {
        let row = self.marks[u].row().unwrap();
        self.marks[u] = Mark::Settled(row);
        self.spread(u);
    }

    // Searches on until every reached state is settled.
    pub(crate) fn search(&mut self)
        requires { IsSearching self.old }
        ensures same { task_of self.new ≡ task_of self.old }
        ensures shortest { HasShortest self.new }
    {
        while let Some(u) = self.nearest_open() {
            self.settle(u);
        }
    }
}
