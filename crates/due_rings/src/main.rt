// Lays a small heating net, pipe by pipe, and says how many rings are due.
#![tactic(auto)]

use measures::Length;
use net::{Net, Refusal};

const NODES: usize = 4;

// A pipe as it is wished: its two ends and its length.
#[derive(Clone, Copy)]
struct Wish(usize, usize, u64);

const WISHES: [Wish; 6] = [
    Wish(1, 2, 3),
    Wish(2, 3, 4),
    Wish(3, 1, 5),
    Wish(3, 4, 1),
    Wish(4, 1, 1),
    Wish(4, 5, 2),
];

// Lays one pipe and says so, or says why it was refused.
fn lay(rt: &HostRuntime, net: &mut Net<Length>, wish: Wish) -> anyhow::Result<()> {
    let Wish(first, second, length) = wish;
    match net.lay(first, second, Length::new(length)) {
        Ok(pipe) => println!(rt;
            "pipe {pipe} laid from node {first} to node {second}, length {length}"
        )?,
        Err(refusal) => {
            let number = refusal.number();
            println!(rt;
                "no pipe laid from node {first} to node {second}: refusal {number}, {refusal}"
            )?;
        }
    }
    Ok(())
}

fn main(rt: HostRuntime) -> anyhow::Result<()> {
    let mut column = [Length::new(0); 8];
    let mut net = Net::open(&mut column);
    for _ in 0..NODES {
        let node = net.add_node()?;
        println!(rt; "node {node} added")?;
    }
    for wish in WISHES {
        lay(&rt, &mut net, wish)?;
    }
    let nodes = net.nodes();
    let pipes = net.pipes();
    let parts = net.parts();
    let due = net.due();
    println!(rt; "the net has {nodes} nodes, {pipes} pipes, {parts} part and {due} rings due")?;
    Ok(())
}
