ghost use Rattle.std.specs.Prelude.{◌≤◌, length};
ghost use Rattle.net.specs.Keeps.{Keeps};
ghost use Rattle.net.specs.Props.{keeps_prop};

use crate::tables::Tables;

// A net (a weighted multigraph) over the caller's column: the weight of pipe j is the column's element j - 1.
#[derive(Drop)]
pub struct Net<'a, M> {
    pub(crate) column: &'a mut [M],
    pub(crate) tables: Tables,
    // the column has a place for each pipe
    ghost fits: { tables.pipes ≤ length column.now },
    // there are at most 64 nodes and 256 pipes, every pipe leads from a node to another, and the rings found and their supports are sound
    ghost keeps: { Keeps tables } by { keeps_prop tables },
}
