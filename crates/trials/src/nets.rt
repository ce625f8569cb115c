// Small nets with known parts and due numbers, and what lay, lift and reweigh leave in the column.
use measures::{Grade, Length, Measure};
use net::*;
use std::test::Fail;

// A net of so many nodes, with pipes of these ends and weights: two slices, since the same ends are tried with weights of several measures.
pub(crate) fn net_of<'a, M: Measure>(
    column: &'a mut [M],
    nodes: usize,
    ends: &[(usize, usize)],
    weights: &[M],
) -> Result<Net<'a, M>, Refusal> {
    let mut net = Net::open(column);
    for _ in 0..nodes {
        net.add_node()?;
    }
    for ((first, second), weight) in ends.iter().zip(weights) {
        net.lay(*first, *second, *weight)?;
    }
    Ok(net)
}

// A net of so many nodes and these pipes, all of length 1.
pub(crate) fn built<'a>(
    column: &'a mut [Length],
    nodes: usize,
    pipes: &[(usize, usize)],
) -> Result<Net<'a, Length>, Refusal> {
    net_of(column, nodes, pipes, &[Length::new(1); 256])
}

#[test]
fn no_nodes_have_no_parts_and_nothing_is_due(rt: HostRuntime) -> Result<(), Fail> {
    let mut column = [Length::new(1); 1];
    let net = built(&mut column, 0, &[])?;
    assert_eq!(rt; net.parts(), 0);
    assert_eq!(rt; net.due(), 0);
    Ok(())
}

#[test]
fn nothing_is_due_in_a_tree(rt: HostRuntime) -> Result<(), Fail> {
    let mut column = [Length::new(1); 4];
    let net = built(&mut column, 5, &[(1, 2), (3, 1), (3, 4), (5, 3)])?;
    assert_eq!(rt; net.parts(), 1);
    assert_eq!(rt; net.due(), 0);
    Ok(())
}

#[test]
fn two_triangles_apart_have_two_parts_and_two_rings_due(rt: HostRuntime) -> Result<(), Fail> {
    let mut column = [Length::new(1); 6];
    let net = built(
        &mut column,
        6,
        &[(1, 2), (2, 3), (3, 1), (4, 5), (5, 6), (6, 4)],
    )?;
    assert_eq!(rt; net.pipes(), 6);
    assert_eq!(rt; net.parts(), 2);
    assert_eq!(rt; net.due(), 2);
    assert_eq!(rt; net.found(), 0);
    Ok(())
}

#[test]
fn a_lift_leaves_the_column_and_the_next_lay_uses_the_place(rt: HostRuntime) -> Result<(), Fail> {
    let mut column = [Length::new(7); 3];
    {
        let mut net = built(&mut column, 3, &[(1, 2), (2, 3)])?;
        assert_eq!(rt; net.lift(), Ok(2));
        assert_eq!(rt; net.pipes(), 1);
        assert_eq!(rt; net.lay(3, 1, Length::new(9)), Ok(2));
        assert_eq!(rt;
            net.ends(2),
            Ok(Ends {
                first: 3,
                second: 1,
            })
        );
        assert_eq!(rt; net.weight(2)?.value, 9);
        net.reweigh(1, Length::new(4))?;
        assert_eq!(rt; net.lift(), Ok(2));
    }
    assert_eq!(rt; column[0].value, 4);
    assert_eq!(rt; column[1].value, 9);
    assert_eq!(rt; column[2].value, 7);
    Ok(())
}

#[test]
fn a_set_weighs_what_its_pipes_weigh_together(rt: HostRuntime) {
    let lengths = [Length::new(3), Length::new(4), Length::new(5)];
    assert_eq!(rt; weight_of(&lengths, [5, 0, 0, 0]).value, 8);
    assert_eq!(rt; weight_of(&lengths, [0, 0, 0, 0]).value, 0);
    let grades = [Grade::new(3), Grade::new(4), Grade::new(5)];
    assert_eq!(rt; weight_of(&grades, [3, 0, 0, 0]).value, 4);
}
