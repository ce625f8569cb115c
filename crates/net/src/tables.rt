use cycle_space::Ends;

// The most nodes and pipes that a net has.
pub const MOST_NODES: usize = 64;

pub const MOST_PIPES: usize = 256;

// A row as it stands in a table; a struct by a rule of the project.
#[derive(Clone, Copy)]
pub struct StoredRow {
    pub words: [u64; 4],
}

// A row without pipes.
pub const NO_PIPES: StoredRow = StoredRow { words: [0; 4] };

// What each place of the table of ends holds at opening.
pub const NOWHERE: Ends = Ends {
    first: 0,
    second: 0,
};

// What a net has besides the weights of its pipes. Pipe j stands at the place j - 1, and so does ring j with its support. By a rule of the project a net
// takes no heap: the tables are of fixed size, and the counts say how many ends and rows are in use. Supports are a table of their own, since from the
// first ring on all of them are in use.
#[derive(Drop)]
pub struct Tables {
    pub(crate) nodes: usize,
    pub(crate) pipes: usize,
    pub(crate) found: usize,
    pub(crate) ends: [Ends; 256],
    pub(crate) rows: [StoredRow; 256],
    pub(crate) supports: [StoredRow; 256],
}
