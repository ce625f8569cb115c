// The net that is searched.
ghost use Rattle.std.specs.Prelude.{◌≡◌, ◌≤◌, map, length};
ghost use Rattle.cycle_space.specs.Shapes.{EndsAreNodes};
ghost use Rattle.cycle_space.specs.Moments.{drawn};

use cycle_space::Ends;

// A net to search: so many nodes, numbered from 1, the ends of its pipes, and their weights. These are two slices, since the weights stand in a column of
// the caller's.
#[derive(Drop)]
pub struct Layout<'a, M> {
    pub nodes: usize,
    pub ends: &'a [Ends],
    pub weights: &'a [M],
    // at most 64 nodes and 256 pipes
    ghost few_nodes: { nodes ≤ 64 },
    ghost few_pipes: { length ends.now ≤ 256 },
    // a weight for each pipe
    ghost weighed: { length weights.now ≡ length ends.now },
    // every end is a node
    ghost ends_in: { EndsAreNodes (drawn nodes (map (λ e. e.first) ends.now) (map (λ e. e.second) ends.now)) },
}
