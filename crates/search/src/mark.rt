// States, and what a search knows of them. A state is a node with a parity: node v, from 1, with an even number of support pipes walked is the state
// 2 * (v - 1), and with an odd number the state after it. It is a number, since it is a place among the marks and in the scratch.
ghost use Rattle.std.specs.Prelude.{◌≡◌, ◌≤◌};
ghost use Rattle.search.specs.Marks.{is_open, walked};
ghost use Rattle.search.specs.Tasks.{state};

// The state of a node with an even number of support pipes walked, parity 0, or an odd one, parity 1.
pub(crate) fn state(node: usize, parity: usize) -> usize
    requires { (1 ≤ node) × (node ≤ 64) × (parity ≤ 1) }
    ensures { result ≡ state node parity }
{
    2 * (node - 1) + parity
}

// The mark of a state, with the row walked to it.
#[derive(Clone, Copy)]
pub(crate) enum Mark {
    // not reached yet (unvisited)
    Unreached,
    // reached, and may yet come nearer (a tentative label)
    Open([u64; 4]),
    // done (a permanent label)
    Settled([u64; 4]),
}

impl Mark {
    pub(crate) fn is_open(self) -> bool
        ensures { result ≡ is_open self }
    {
        matches!(self, Mark::Open(_))
    }

    // The row walked to the state, if it is reached.
    pub(crate) fn row(self) -> Option<[u64; 4]>
        ensures { result ≡ walked self }
    {
        match self {
            Mark::Unreached => None,
            Mark::Open(row) | Mark::Settled(row) => Some(row),
        }
    }
}
