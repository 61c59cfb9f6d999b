// What is answered of a node.
use bound_cert::Multipliers;
use seed_model::Mix;

/// A node is low, where no member migrates enough, or high, where every member migrates too much; or it has a value,
/// which multipliers prove and a mix attains.
#[derive(Drop)]
pub enum NodeAnswer {
    Low,
    High,
    Bound(Multipliers, Mix),
}
