// What a caller knows of its column once the net over it is gone, proved from the contracts of the net's calls alone.
ghost use Rattle.std.specs.Prelude.{◌≡◌, ◌<◌, length, slice_set};

use measures::Length;
use net::Net;

// The first pipe's weight stands in the first place, and all else is as it was.
pub fn first_pipe_takes_the_first_place(column: &mut [Length], weight: Length)
    ensures { 0 < length column.old → column.new ≡ slice_set column.old 0 weight }
{
    let mut net = Net::open(column);
    let _ = net.add_node();
    let _ = net.add_node();
    let _ = net.lay(1, 2, weight);
}
