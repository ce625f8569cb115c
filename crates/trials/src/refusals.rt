// An example for each refusal that a net without rings can give, and the last call that is still taken.
use crate::nets::built;
use measures::Length;
use net::*;
use std::test::Fail;

fn one() -> Length {
    Length::new(1)
}

#[test]
fn the_64th_node_is_taken_and_the_65th_declined(rt: HostRuntime) -> Result<(), Fail> {
    let mut column = [one(); 1];
    let mut net = built(&mut column, 63, &[])?;
    assert_eq!(rt; net.add_node(), Ok(64));
    assert_eq!(rt; net.add_node(), Err(Refusal::NodesFull));
    assert_eq!(rt; net.nodes(), 64);
    assert_eq!(rt; Refusal::NodesFull.number(), 1);
    Ok(())
}

#[test]
fn an_end_has_to_be_a_node(rt: HostRuntime) -> Result<(), Fail> {
    let mut column = [one(); 3];
    let mut net = built(&mut column, 2, &[])?;
    assert_eq!(rt; net.lay(1, 3, one()), Err(Refusal::NoSuchNode));
    assert_eq!(rt; net.lay(0, 1, one()), Err(Refusal::NoSuchNode));
    assert_eq!(rt; net.pipes(), 0);
    assert_eq!(rt; Refusal::NoSuchNode.number(), 2);
    Ok(())
}

#[test]
fn the_ends_have_to_be_two(rt: HostRuntime) -> Result<(), Fail> {
    let mut column = [one(); 3];
    let mut net = built(&mut column, 2, &[])?;
    assert_eq!(rt; net.lay(2, 2, one()), Err(Refusal::OneNode));
    assert_eq!(rt; net.lay(3, 3, one()), Err(Refusal::NoSuchNode));
    assert_eq!(rt; Refusal::OneNode.number(), 3);
    Ok(())
}

#[test]
fn the_column_has_to_have_a_place(rt: HostRuntime) -> Result<(), Fail> {
    let mut column = [one(); 3];
    let mut net = built(&mut column, 2, &[])?;
    for pipe in 1..=3usize {
        assert_eq!(rt; net.lay(1, 2, one()), Ok(pipe));
    }
    assert_eq!(rt; net.lay(1, 2, one()), Err(Refusal::PipesFull));
    assert_eq!(rt; net.lay(1, 1, one()), Err(Refusal::OneNode));
    assert_eq!(rt; net.pipes(), 3);
    assert_eq!(rt; Refusal::PipesFull.number(), 4);
    Ok(())
}

#[test]
fn the_256th_pipe_is_taken_and_the_257th_declined(rt: HostRuntime) -> Result<(), Fail> {
    let mut column = [one(); 300];
    let mut net = built(&mut column, 2, &[])?;
    for _ in 0..255 {
        net.lay(1, 2, one())?;
    }
    assert_eq!(rt; net.lay(2, 1, one()), Ok(256));
    assert_eq!(rt; net.lay(2, 1, one()), Err(Refusal::PipesFull));
    assert_eq!(rt; net.due(), 255);
    Ok(())
}

#[test]
fn a_pipe_has_to_be_there(rt: HostRuntime) -> Result<(), Fail> {
    let mut column = [one(); 3];
    let mut net = built(&mut column, 2, &[])?;
    assert_eq!(rt; net.lift(), Err(Refusal::NoSuchPipe));
    net.lay(1, 2, one())?;
    assert_eq!(rt; net.reweigh(2, one()), Err(Refusal::NoSuchPipe));
    assert_eq!(rt; net.reweigh(0, one()), Err(Refusal::NoSuchPipe));
    assert_eq!(rt; net.ends(2), Err(Refusal::NoSuchPipe));
    assert_eq!(rt; net.weight(2), Err(Refusal::NoSuchPipe));
    assert_eq!(rt; net.weight(1), Ok(one()));
    assert_eq!(rt; Refusal::NoSuchPipe.number(), 5);
    Ok(())
}
