// Rows at the edges of their words.
use net::{has, parity, sum};

// The pipes 1, 64, 65 and 256.
const EDGES: [u64; 4] = [1 + (1 << 63), 1, 0, 1 << 63];

#[test]
fn pipes_stand_at_their_bits(rt: HostRuntime) {
    assert!(rt; has(EDGES, 1) && has(EDGES, 64) && has(EDGES, 65) && has(EDGES, 256));
    assert!(rt; !has(EDGES, 2) && !has(EDGES, 63) && !has(EDGES, 66) && !has(EDGES, 255));
    assert!(rt; !has(EDGES, 0) && !has(EDGES, 257));
}

#[test]
fn a_sum_holds_what_is_in_one_of_the_two(rt: HostRuntime) {
    assert_eq!(rt; sum(EDGES, [3, 0, 5, 0]), [2 + (1 << 63), 1, 5, 1 << 63]);
    assert_eq!(rt; sum(EDGES, EDGES), [0; 4]);
}

#[test]
fn parity_tells_an_odd_number_in_common(rt: HostRuntime) {
    assert!(rt; !parity(EDGES, EDGES));
    assert!(rt; parity(EDGES, [1, 0, 0, 0]));
    assert!(rt; parity(EDGES, [1, 1, 0, 1 << 63]));
    assert!(rt; !parity(EDGES, [6, 0, 7, 0]));
}
