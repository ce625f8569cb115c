// Finds the light rings of a small heating net, as light as they can be, and says what they are.
#![tactic(auto)]

use measures::Length;
use net::{Net, NoRow, Refusal, has};

const NODES: usize = 4;

// A pipe of the net: its two ends and its length. (due_rings has such a struct too: a crate between two programs for three fields is no plainer.)
#[derive(Clone, Copy)]
struct Pipe(usize, usize, u64);

const PIPES: [Pipe; 5] = [
    Pipe(1, 2, 3),
    Pipe(2, 3, 4),
    Pipe(3, 1, 5),
    Pipe(3, 4, 1),
    Pipe(4, 1, 1),
];

// Writes the numbers of the pipes in a row.
fn list(rt: &HostRuntime, row: [u64; 4]) -> anyhow::Result<()> {
    for pipe in 1..=256 {
        if has(row, pipe) {
            print!(rt; " {pipe}")?;
        }
    }
    Ok(())
}

// Says of a ring that is found what it is.
fn tell(rt: &HostRuntime, net: &Net<Length>, ring: usize) -> anyhow::Result<()> {
    print!(rt; "ring {ring} found: pipes")?;
    list(rt, net.ring(ring)?)?;
    let length = net.ring_weight(ring)?.value;
    print!(rt; ", length {length}, support")?;
    list(rt, net.support(ring)?)?;
    println!(rt; "")?;
    Ok(())
}

// Finds all rings that are due, and says what they weigh together.
fn find(rt: &HostRuntime, net: &mut Net<Length>, scratch: &mut [Length]) -> anyhow::Result<()> {
    for _ in 0..net.due() {
        let ring = net.next(scratch)?;
        tell(rt, net, ring)?;
    }
    if let Err(refusal) = net.next(scratch) {
        let number = refusal.number();
        println!(rt; "no further ring: refusal {number}, {refusal}")?;
    }
    let found = net.found();
    let length = net.joined_weight().value;
    println!(rt; "{found} rings found, joined length {length}")?;
    Ok(())
}

fn main(rt: HostRuntime) -> anyhow::Result<()> {
    let mut column = [Length::new(0); 8];
    let mut net = Net::open(&mut column);
    for _ in 0..NODES {
        net.add_node()?;
    }
    for Pipe(first, second, length) in PIPES {
        net.lay(first, second, Length::new(length))?;
    }
    find(&rt, &mut net, &mut [Length::new(0); 2 * NODES])
}
