// The numbers of the rules that are judged here.

/// A word is not the text of a set of the table's files.
pub const WIDTH: u8 = 2;

/// Answer, plan and bound do not go together.
pub const ANSWERING: u8 = 3;

/// The printed sums are not those of the plan.
pub const SUMS: u8 = 4;

/// The plan is not in range.
pub const IN_REACH: u8 = 5;

/// The file of a branching is not free, or not the first in which its sets differ.
pub const DIFFERENCE: u8 = 6;

/// The sets and weights of a branching are no mix of its node, or the mix replicates more than the bound.
pub const MIXING: u8 = 7;

/// A node that is said to be low or high is not.
pub const CLOSING: u8 = 8;

/// A file is pinned to both sides.
pub const APART: u8 = 13;

/// The plan does not keep to the pins.
pub const PINNING: u8 = 14;
