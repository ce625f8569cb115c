use crate::*;
use std::test::Fail;

fn pair(first: u64, second: u8) -> Pair<Length, Grade> {
    Pair {
        first: Length::new(first),
        second: Grade::new(second),
    }
}

fn nested(first: u64, second: u64, third: u8) -> Pair<Length, Pair<Length, Grade>> {
    Pair {
        first: Length::new(first),
        second: pair(second, third),
    }
}

// The first is at most the second, and the second not at most the first.
fn lighter<M: Measure>(a: M, b: M) -> bool {
    a.at_most(b) && !b.at_most(a)
}

#[test]
fn lengths_stop_at_the_ceiling(rt: HostRuntime) {
    let sum = Length::ceiling().join(Length::new(1));
    assert_eq!(rt; sum, Length::ceiling());
    assert_eq!(rt; sum.value, u64::MAX);
}

#[test]
fn numbers_become_values(rt: HostRuntime) -> Result<(), Fail> {
    assert_eq!(rt;
        Length::of_number(1_000_000_000)?,
        Length::new(1_000_000_000)
    );
    assert_eq!(rt; Grade::of_number(255)?, Grade::new(255));
    Ok(())
}

#[test]
fn greater_numbers_are_declined(rt: HostRuntime) -> Result<(), Fail> {
    let Err(long) = Length::of_number(1_000_000_001) else {
        return Err(Fail::new("the length was made"));
    };
    assert_eq!(rt; long.number(), 9);
    let Err(high) = Grade::of_number(256) else {
        return Err(Fail::new("the grade was made"));
    };
    assert_eq!(rt; high.number(), 9);
    Ok(())
}

#[test]
fn the_first_decides_between_pairs(rt: HostRuntime) {
    let light = pair(5, 9);
    let heavy = pair(6, 0);
    let more = pair(1, 9);
    assert!(rt; lighter(light, heavy));
    assert_eq!(rt; light.join(more), pair(6, 9));
    assert_eq!(rt; heavy.join(more), pair(7, 9));
    assert!(rt; lighter(pair(2, 3), pair(2, 4)));
}

#[test]
fn pairs_at_the_ceiling_are_level(rt: HostRuntime) {
    let low = pair(u64::MAX, 3);
    let high = pair(u64::MAX, 9);
    assert!(rt; low.at_most(high));
    assert!(rt; high.at_most(low));
}

#[test]
fn pairs_nest(rt: HostRuntime) {
    let sum = nested(1, 2, 3).join(nested(4, 5, 1));
    assert_eq!(rt; sum, nested(5, 7, 3));
    assert!(rt; lighter(sum, nested(5, 7, 4)));
}
