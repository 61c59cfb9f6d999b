// What was tried.
use seed_model::PlanSet;

/// A set that was found greedily, if any, and how: how many turns each added a file, and how many rounds each flipped one.
#[derive(Drop)]
pub struct Tried {
    pub set: Option<PlanSet>,
    pub turns: u32,
    pub rounds: u32,
}
