// Rows: sets of the pipes 1 to 256, as four words of 64 bits.
ghost use Rattle.std.specs.Prelude.{◌≡◌, ℕ, suc, nat_eq};
ghost use Rattle.cycle_space.specs.Rows.{SpotOf, holds, add2, row_of, sum, odd};

// Where a pipe stands in a row: its word, and its bit in that word. There is no pipe 0, and none above 256.
fn spot(pipe: usize) -> Option<(usize, usize)>
    ensures { SpotOf pipe result }
{
    let place = pipe.checked_sub(1)?;
    (place < 256).then_some((place / 64, place % 64))
}

// Whether the pipe is in the row.
pub fn has(row: [u64; 4], pipe: usize) -> bool
    ensures { result ≡ holds row pipe }
{
    match spot(pipe) {
        Some((word, bit)) => (row[word] >> bit) & 1 == 1,
        None => false,
    }
}

// The row of one pipe; where there can be no such pipe, the empty row.
pub fn single(pipe: usize) -> [u64; 4]
    ensures { result ≡ row_of (λ j. nat_eq (suc j) pipe) }
{
    let mut row = [0; 4];
    if let Some((word, bit)) = spot(pipe) {
        row[word] = 1 << bit;
    }
    row
}

// The pipes that are in one of the two rows and not in both. Word by word, here and below: for four words a loop is no plainer.
pub fn sum(x: [u64; 4], y: [u64; 4]) -> [u64; 4]
    ensures value { result ≡ sum x y }
    ensures pipes { (j : ℕ) → holds result j ≡ add2 (holds x j) (holds y j) }
{
    [x[0] ^ y[0], x[1] ^ y[1], x[2] ^ y[2], x[3] ^ y[3]]
}

// Whether the two rows have an odd number of pipes in common.
pub fn parity(x: [u64; 4], y: [u64; 4]) -> bool
    ensures { result ≡ odd x y }
{
    let common = (x[0] & y[0]) ^ (x[1] & y[1]) ^ (x[2] & y[2]) ^ (x[3] & y[3]);
    common.count_ones() % 2 == 1
}
