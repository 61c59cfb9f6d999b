// How a search ended.

/// Why a search ended: no waiting node can hold a better plan; or the branchings of the budget were made, and the value of
/// the waiting node that is first, rounded up, is so many bytes.
#[derive(Clone, Copy, Drop)]
pub(crate) enum Ending {
    Closed,
    Spent(u64),
}
