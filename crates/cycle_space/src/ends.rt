// The two ends of a pipe, which is drawn from the first to the second.
#[derive(Clone, Copy, PartialEq, Eq, Debug)]
pub struct Ends {
    pub first: usize,
    pub second: usize,
}
