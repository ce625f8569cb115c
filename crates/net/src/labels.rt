ghost use Rattle.std.specs.Prelude.{◌≡◌, ℕ, ◌<◌, ◌==◌};
ghost use Rattle.cycle_space.specs.Labels.{relabel, label};
ghost use Rattle.cycle_space.specs.Moments.{shape};
ghost use Rattle.net.specs.Views.{view};
ghost use Rattle.net.specs.Labelled.{HavePlaces, labelled, own_labels};

use crate::net::Net;
use cycle_space::Ends;
use measures::Measure;
use std::array;

// A place for each node's number, and one for 0.
const PLACES: usize = 65;

// A label for each node, at the place of its number: two nodes have one label where the pipes laid so far join them.
#[derive(Drop)]
pub(crate) struct Labels {
    of: [usize; PLACES],
}

impl Labels {
    // No pipes: each node is its own label.
    pub(crate) fn own() -> Labels
        ensures { (v : ℕ) → v < 65 → labelled result v ≡ v }
    {
        Labels {
            of: array::from_fn(|v| v),
        }
    }

    // One pipe more: the nodes with the greater of its ends' labels get the smaller.
    pub(crate) fn lay(&mut self, ends: Ends)
        requires { HavePlaces ends }
        ensures { (v : ℕ) → v < 65 → labelled self.new v ≡ relabel (labelled self.old ends.first) (labelled self.old ends.second) (labelled self.old v) }
    {
        let p = self.of[ends.first];
        let q = self.of[ends.second];
        let low = p.min(q);
        let high = p.max(q);
        for label in &mut self.of {
            if *label == high {
                *label = low;
            }
        }
    }

    // Whether the ends have one label.
    pub(crate) fn joined(&self, ends: Ends) -> bool
        requires { HavePlaces ends }
        ensures { result ≡ (labelled self.now ends.first == labelled self.now ends.second) }
    {
        self.of[ends.first] == self.of[ends.second]
    }

    // How many of the nodes 1 to `nodes` are their own label. (A loop: over many nodes with few pipes a `filter` and its `count` take 1.4 times as long.)
    pub(crate) fn parts(&self, nodes: usize) -> usize
        requires { nodes < 65 }
        ensures { result ≡ own_labels self.now nodes }
    {
        let mut parts = 0;
        for (place, label) in self.of[1..nodes + 1].iter().enumerate() {
            if *label == place + 1 {
                parts += 1;
            }
        }
        parts
    }
}

impl<M: Measure> Net<'_, M> {
    // The labels after all pipes.
    pub(crate) fn labels(&self) -> Labels
        ensures { (v : ℕ) → v < 65 → labelled result v ≡ label (shape (view self.now)) (shape (view self.now)).pipes v }
    {
        let mut labels = Labels::own();
        for ends in self.laid() {
            labels.lay(*ends);
        }
        labels
    }
}
