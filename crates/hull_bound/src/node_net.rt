// The net of a node for a slope, class by class.
ghost use Rattle.std.specs.Prelude.{◌≡◌, ℕ, ◌+◌, ◌*◌, ◌^◌, ◌<◌, ◌≤◌, ◌++◌, All, length, map, IfOk};
ghost use Rattle.std.specs.List.{list_any};
ghost use Rattle.seed_model.specs.Files.{holds};
ghost use Rattle.seed_model.specs.Keys.{class_at};
ghost use Rattle.seed_model.specs.Nodes.{IsNode, is_free};
ghost use Rattle.flow_net.specs.Nets.{IsNet};
ghost use Rattle.hull_bound.specs.Slots.{net_of, pipe_of, reward_slots, charge_slots};

use flow_net::Net;
use seed_model::{NoMemory, Node, PlanSet, Table};
use std::alloc::Global;

/// A slope `p / q`: each byte that a set migrates wins `p`, and each that it touches costs `q`.
#[derive(Clone, Copy)]
pub(crate) struct Slope {
    pub p: u64,
    pub q: u64,
}

/// Whether some user is in the set.
pub(crate) fn any_in(users: &[u32], set: &PlanSet) -> bool
    requires { All (λ file. file < length set.now) users.now }
    ensures { result ≡ list_any (holds set.now) users.now }
{
    users.iter().any(|file| set.contains(*file))
}

/// Whether a file is neither inside nor outside.
pub(crate) fn is_open(file: u32, node: &Node) -> bool
    requires inside { file < length node.now.inside }
    requires outside { file < length node.now.outside }
    ensures { result ≡ is_free node.now file }
{
    !node.inside.contains(file) && !node.outside.contains(file)
}

/// Adds the pipes of a class's rewards: one from source to sink where a user is outside, and else one that fills the
/// class and one from there to each free user.
fn add_rewards(
    net: &mut Net,
    table: &Table,
    class: u32,
    node: &Node,
    slope: Slope,
) -> Result<(), NoMemory>
    requires class { class < length table.now.classes }
    requires node { IsNode table.now.files node.now }
    requires p { slope.p ≤ 2 ^ 50 }
    requires nodes { net.old.nodes ≡ 2 + table.now.files + 2 * length table.now.classes }
    requires few { length net.old.pipes + length (reward_slots node.now class (class_at table.now.classes class)) ≤ 2 ^ 24 }
    ensures nodes { net.new.nodes ≡ net.old.nodes }
    ensures added { IfOk result (λ _. net.new.pipes ≡ net.old.pipes ++ map (pipe_of table.now.files slope.p slope.q) (reward_slots node.now class (class_at table.now.classes class))) }
{
    let users = table.users(class);
    let room = slope.p as u128 * table.size(class) as u128;
    if any_in(users, &node.outside) {
        net.add(0, 1, room)?;
        return Ok(());
    }
    let hub = 3 + table.files() + 2 * class;
    net.add(0, hub, room)?;
    for file in users {
        if is_open(*file, node) {
            net.add(hub, 2 + *file, room)?;
        }
    }
    Ok(())
}

/// Adds the pipes of a class's charges: one from source to sink where a user is inside, and else one that drains the
/// class and one to there from each free user.
fn add_charges(
    net: &mut Net,
    table: &Table,
    class: u32,
    node: &Node,
    slope: Slope,
) -> Result<(), NoMemory>
    requires class { class < length table.now.classes }
    requires node { IsNode table.now.files node.now }
    requires q { slope.q ≤ 2 ^ 50 }
    requires nodes { net.old.nodes ≡ 2 + table.now.files + 2 * length table.now.classes }
    requires few { length net.old.pipes + length (charge_slots node.now class (class_at table.now.classes class)) ≤ 2 ^ 24 }
    ensures nodes { net.new.nodes ≡ net.old.nodes }
    ensures added { IfOk result (λ _. net.new.pipes ≡ net.old.pipes ++ map (pipe_of table.now.files slope.p slope.q) (charge_slots node.now class (class_at table.now.classes class))) }
{
    let users = table.users(class);
    let room = slope.q as u128 * table.size(class) as u128;
    if any_in(users, &node.inside) {
        net.add(0, 1, room)?;
        return Ok(());
    }
    let hub = 2 + table.files() + 2 * class;
    net.add(hub, 1, room)?;
    for file in users {
        if is_open(*file, node) {
            net.add(2 + *file, hub, room)?;
        }
    }
    Ok(())
}

/// How many pipes a net has.
pub(crate) fn pipe_count(net: &Net) -> u32
    ensures count { result ≡ length net.now.pipes }
    ensures lawful { IsNet net.now }
{
    net.pipes().len() as u32
}

/// The net of a node for a slope: a source side of it costs as many as its files do as a set of the node, or more, so
/// its least cuts are those of the minima.
pub(crate) fn net_of_node(
    alloc: Global,
    table: &Table,
    node: &Node,
    slope: Slope,
) -> Result<Net, NoMemory>
    requires node { IsNode table.now.files node.now }
    requires p { slope.p ≤ 2 ^ 50 }
    requires q { slope.q ≤ 2 ^ 50 }
    ensures { IfOk result (λ net. net ≡ net_of table.now slope.p slope.q node.now) }
{
    let nodes = 2 + table.files() + 2 * table.classes();
    let mut net = Net::new(alloc, nodes)?;
    for class in 0..table.classes() {
        add_rewards(&mut net, table, class, node, slope)?;
        add_charges(&mut net, table, class, node, slope)?;
    }
    Ok(net)
}
