// The lightest closed set that is odd against the support: a search from each node that a pipe of the support is drawn from.
ghost use Rattle.std.specs.Prelude.{◌≡◌, ◌≤◌, false, length};
ghost use Rattle.search.specs.Layouts.{states};
ghost use Rattle.search.specs.Tasks.{task};
ghost use Rattle.search.specs.Sought.{Sought};
ghost use Rattle.search.specs.Finds.{Start, choose, ClosedThrough, Lightest};

use crate::front::Front;
use crate::hunt::Hunt;
use crate::layout::Layout;
use crate::mark::state;
use cycle_space::has;
use measures::Measure;

// The scratch has fewer than two places for each node.
#[derive(Clone, Copy, PartialEq, Eq, Debug)]
pub struct ScratchTooShort {}

// A closed set that is odd against the support, and at most how much it weighs.
#[derive(Clone, Copy)]
pub(crate) struct Candidate<M> {
    pub(crate) weight: M,
    pub(crate) row: [u64; 4],
}

// The lighter of two.
fn lighter_of<M: Measure>(a: Option<Candidate<M>>, b: Option<Candidate<M>>) -> Option<Candidate<M>>
    ensures { result ≡ choose M.within a b }
{
    match (a, b) {
        (Some(x), Some(y)) => Some(if x.weight.at_most(y.weight) { x } else { y }),
        _ => a.or(b),
    }
}

impl<M: Measure> Hunt<'_, M> {
    // Whether a pipe of the support is drawn from the node.
    fn starts(&self, node: usize) -> bool
        ensures { result ≡ false → Start (task self.now node) node → ⊥ }
    {
        let mut pipes = self.net.ends.iter().enumerate();
        pipes.any(|(place, ends)| ends.first == node && has(self.support, place + 1))
    }

    // The lightest odd closed walk through the node. What start and scratch must be is asked here and below, where there is no front yet that keeps it.
    fn closed_through(&self, start: usize, dist: &mut [M]) -> Option<Candidate<M>>
        requires inside { (1 ≤ start) × (start ≤ self.now.net.now.nodes) }
        requires room { states self.now.net.now ≤ length dist.old }
        ensures { ClosedThrough (task self.now start) result }
    {
        let at = state(start, 1);
        let mut front = Front::at_start(self, start, dist);
        front.search();
        let row = front.marks[at].row()?;
        Some(Candidate {
            weight: front.dist[at],
            row,
        })
    }

    // The lightest of all starts.
    fn lightest(&self, dist: &mut [M]) -> Option<Candidate<M>>
        requires { states self.now.net.now ≤ length dist.old }
        ensures { Lightest (task self.now 1) result }
    {
        let mut best = None;
        for start in 1..=self.net.nodes {
            if self.starts(start) {
                best = lighter_of(best, self.closed_through(start, dist));
            }
        }
        best
    }
}

// The lightest closed set of pipes that is odd against the support, or none where there is none such.
pub fn lightest_odd<M: Measure>(
    net: &Layout<M>,
    support: [u64; 4],
    scratch: &mut [M],
) -> Result<Option<[u64; 4]>, ScratchTooShort>
    ensures { Sought M.zero M.join M.within net.now support scratch.old result scratch.new }
{
    if scratch.len() < 2 * net.nodes {
        return Err(ScratchTooShort {});
    }
    M::join_keeps_order();
    let hunt = Hunt { net, support };
    // no `map`: its closure would want a clause of its own
    let Some(found) = hunt.lightest(scratch) else {
        return Ok(None);
    };
    Ok(Some(found.row))
}
