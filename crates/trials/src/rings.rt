// Small nets with known rings, and what next declines.
use crate::nets::net_of;
use measures::{Grade, Length, Measure};
use net::*;
use std::test::Fail;

// Four nodes, a triangle of pipes 1 to 3, and a way round over node 4 beside pipe 3.
fn kite<'a, M: Measure>(column: &'a mut [M], weights: [M; 5]) -> Result<Net<'a, M>, Refusal> {
    net_of(
        column,
        4,
        &[(1, 2), (2, 3), (3, 1), (3, 4), (4, 1)],
        &weights,
    )
}

fn lengths() -> [Length; 5] {
    [3, 4, 5, 1, 1].map(Length::new)
}

// Two nodes and two pipes between them.
fn pair<'a, M: Measure>(column: &'a mut [M], weights: [M; 2]) -> Result<Net<'a, M>, Refusal> {
    net_of(column, 2, &[(1, 2), (1, 2)], &weights)
}

#[test]
fn two_pipes_between_two_nodes_are_one_ring(rt: HostRuntime) -> Result<(), Fail> {
    let mut column = [Length::new(9); 2];
    let mut scratch = [Length::new(9); 4];
    let mut net = pair(&mut column, [Length::new(4), Length::new(0)])?;
    assert_eq!(rt; net.next(&mut scratch), Ok(1));
    assert_eq!(rt; net.ring(1)?[0], 3);
    assert_eq!(rt; net.ring_weight(1)?.value, 4);
    assert_eq!(rt; net.next(&mut scratch), Err(Refusal::Complete));
    Ok(())
}

#[test]
fn two_graded_pipes_weigh_as_the_worse(rt: HostRuntime) -> Result<(), Fail> {
    let mut column = [Grade::new(9); 2];
    let mut scratch = [Grade::new(9); 4];
    let mut net = pair(&mut column, [Grade::new(4), Grade::new(0)])?;
    assert_eq!(rt; net.next(&mut scratch), Ok(1));
    assert_eq!(rt; net.ring(1)?[0], 3);
    assert_eq!(rt; net.ring_weight(1)?.value, 4);
    Ok(())
}

#[test]
fn the_kite_by_length_has_rings_of_seven_and_nine(rt: HostRuntime) -> Result<(), Fail> {
    let mut column = [Length::new(0); 5];
    let mut scratch = [Length::new(0); 8];
    let mut net = kite(&mut column, lengths())?;
    assert_eq!(rt; net.joined_weight().value, 0);
    assert_eq!(rt; net.next(&mut scratch), Ok(1));
    assert_eq!(rt; net.support(1)?[0], 4); // pipe 3
    assert_eq!(rt; net.ring(1)?[0], 28); // pipes 3, 4, 5
    assert_eq!(rt; net.ring_weight(1)?.value, 7);
    assert_eq!(rt; net.next(&mut scratch), Ok(2));
    assert_eq!(rt; net.support(2)?[0], 20); // pipes 3, 5
    assert_eq!(rt; net.ring(2)?[0], 27); // pipes 1, 2, 4, 5
    assert_eq!(rt; net.ring_weight(2)?.value, 9);
    assert_eq!(rt; net.joined_weight().value, 16);
    assert_eq!(rt; net.next(&mut scratch), Err(Refusal::Complete));
    Ok(())
}

#[test]
fn the_kite_by_grade_has_rings_of_five_and_four(rt: HostRuntime) -> Result<(), Fail> {
    let mut column = [Grade::new(0); 5];
    let mut scratch = [Grade::new(0); 8];
    let mut net = kite(&mut column, [3, 4, 5, 1, 1].map(Grade::new))?;
    assert_eq!(rt; net.next(&mut scratch), Ok(1));
    assert_eq!(rt; net.next(&mut scratch), Ok(2));
    assert_eq!(rt; net.ring_weight(1)?.value, 5);
    assert_eq!(rt; net.ring_weight(2)?.value, 4);
    assert_eq!(rt; net.joined_weight().value, 5);
    Ok(())
}

#[test]
fn scratch_for_four_nodes_has_eight_places(rt: HostRuntime) -> Result<(), Fail> {
    let mut column = [Length::new(0); 5];
    let mut net = kite(&mut column, lengths())?;
    let mut short = [Length::new(6); 7];
    assert_eq!(rt; net.next(&mut short), Err(Refusal::ScratchTooShort));
    assert_eq!(rt; short[0].value, 6);
    assert_eq!(rt; net.found(), 0);
    let mut enough = [Length::new(6); 8];
    assert_eq!(rt; net.next(&mut enough), Ok(1));
    Ok(())
}

#[test]
fn without_rings_there_is_no_row_and_no_weight(rt: HostRuntime) -> Result<(), Fail> {
    let mut column = [Length::new(0); 5];
    let net = kite(&mut column, lengths())?;
    let none = Err(NoRow {
        refusal: Refusal::NoSuchRing,
        row: [0; 4],
    });
    assert_eq!(rt; net.ring(1), none);
    assert_eq!(rt; net.support(1), none);
    assert_eq!(rt; net.ring(0), none);
    assert!(rt; net.ring_weight(1).is_err());
    Ok(())
}

#[test]
fn without_pipes_a_net_is_complete_whatever_the_scratch(rt: HostRuntime) -> Result<(), Fail> {
    let mut column = [Length::new(0); 1];
    let mut scratch = [Length::new(0); 1];
    let mut net = Net::open(&mut column);
    assert_eq!(rt; net.next(&mut scratch), Err(Refusal::Complete));
    net.add_node()?;
    assert_eq!(rt; net.next(&mut scratch), Err(Refusal::Complete));
    Ok(())
}

#[test]
fn a_node_leaves_the_rings_and_other_work_strikes_them(rt: HostRuntime) -> Result<(), Fail> {
    let mut column = [Length::new(0); 6];
    let mut scratch = [Length::new(0); 10];
    let mut net = kite(&mut column, lengths())?;
    assert_eq!(rt; net.next(&mut scratch), Ok(1));
    assert_eq!(rt; net.add_node(), Ok(5));
    assert_eq!(rt; net.ring(1)?[0], 28);
    assert_eq!(rt; net.next(&mut scratch), Ok(2));
    net.reweigh(3, Length::new(50))?;
    assert_eq!(rt; net.found(), 0);
    assert_eq!(rt; net.next(&mut scratch), Ok(1));
    assert_eq!(rt; net.ring_weight(1)?.value, 52);
    net.lift()?;
    assert_eq!(rt; net.found(), 0);
    assert_eq!(rt; net.next(&mut scratch), Ok(1));
    assert_eq!(rt; net.ring(1)?[0], 7);
    assert_eq!(rt; net.ring_weight(1)?.value, 57);
    Ok(())
}

// Finds rings until none is due, and answers how many there are.
fn complete(net: &mut Net<Length>, scratch: &mut [Length]) -> Result<usize, Refusal> {
    for _ in 0..net.due() {
        net.next(scratch)?;
    }
    Ok(net.found())
}

// 64 nodes in a circle, each with pipes to the next four: triangles make up all closed sets but the way round, which takes 16 pipes.
#[test]
fn a_full_net_is_completed(rt: HostRuntime) -> Result<(), Fail> {
    let mut column = [Length::new(1); 256];
    let mut net = Net::open(&mut column);
    for _ in 0..64 {
        net.add_node()?;
    }
    // steps and nodes, by their numbers
    for step in 1..=4 {
        for node in 0..64 {
            net.lay(node + 1, (node + step) % 64 + 1, Length::new(1))?;
        }
    }
    assert_eq!(rt; net.due(), 193);
    assert_eq!(rt; complete(&mut net, &mut [Length::new(0); 128]), Ok(193));
    assert_eq!(rt; net.joined_weight().value, 192 * 3 + 16);
    assert_eq!(rt; net.next(&mut []), Err(Refusal::Complete));
    Ok(())
}
