// A waiting node by its value and its number.
ghost use Rattle.std.specs.Prelude.{◌<◌};

/// A waiting node: the bytes that its mix replicates, times the weight of the mix; that weight; and its number.
#[derive(Clone, Copy, Drop)]
pub(crate) struct Candidate {
    pub worth: u128,
    pub weight: u64,
    pub number: u32,
    ghost weighed: { 0 < weight },
}
