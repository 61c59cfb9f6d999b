// The least and the greatest minimum of a node for a slope.
ghost use Rattle.std.specs.Prelude.{◌≡◌, ℕ, ◌+◌, ◌^◌, ◌<◌, ◌≤◌, length, IfOk};
ghost use Rattle.seed_model.specs.Files.{holds};
ghost use Rattle.seed_model.specs.Nodes.{IsNode};
ghost use Rattle.flow_net.specs.Flows.{is_in};
ghost use Rattle.hull_bound.specs.Slots.{set_of};
ghost use Rattle.hull_bound.specs.Solutions.{IsSolved};

use crate::node_net::{Slope, net_of_node, pipe_count};
use flow_net::{Filling, FlowCut, Steps, max_flow};
use seed_model::{NoMemory, Node, PlanSet, Table, sum_laws};
use std::alloc::Global;
use std::sync::ledger::Ledger;

/// The least and the greatest minimum, and the flow from which the multipliers are read, with the number of its pipes.
#[derive(Drop)]
pub(crate) struct Minima {
    pub least: PlanSet,
    pub greatest: PlanSet,
    pub flow: Filling,
    pub pipes: u32,
}

impl Minima {
    /// The least minimum alone.
    pub(crate) fn into_least(self) -> PlanSet
        ensures { result ≡ self.least }
    {
        let Minima { least, .. } = self;
        least
    }

    /// The greatest minimum alone.
    pub(crate) fn into_greatest(self) -> PlanSet
        ensures { result ≡ self.greatest }
    {
        let Minima { greatest, .. } = self;
        greatest
    }
}

/// The set of files that a side of the net has: those inside, and the free ones whose node is on the side.
fn set_of_side(alloc: Global, side: &[bool], node: &Node) -> Result<PlanSet, NoMemory>
    requires same { length node.now.outside ≡ length node.now.inside }
    requires nodes { length node.now.inside + 2 ≤ length side.now }
    ensures files { IfOk result (λ s. length s ≡ length node.now.inside) }
    ensures set { IfOk result (λ s. (f : ℕ) → f < length node.now.inside → holds s f ≡ set_of node.now (is_in side.now) f) }
{
    let files = node.inside.files();
    let mut set = PlanSet::empty(alloc, files)?;
    for file in 0..files {
        let chosen = side[file as usize + 2];
        if node.inside.contains(file) || !node.outside.contains(file) && chosen {
            set.insert(file);
        }
    }
    Ok(set)
}

/// The minima of a node for a slope, by a greatest flow through its net.
pub(crate) fn minima_of<L: Ledger>(
    alloc: Global,
    table: &Table,
    node: &Node,
    slope: Slope,
    steps: &mut Steps<L>,
) -> Result<Minima, NoMemory>
    requires node { IsNode table.now.files node.now }
    requires p { slope.p ≤ 2 ^ 50 }
    requires some { 1 ≤ slope.q }
    requires q { slope.q ≤ 2 ^ 50 }
    ensures { IfOk result (IsSolved table.now node.now slope.p slope.q) }
{
    sum_laws();
    let _files = table.files();
    let net = net_of_node(alloc, table, node, slope)?;
    let pipes = pipe_count(&net);
    let cut = max_flow(alloc, &net, 0, 1, steps)?;
    let least = set_of_side(alloc, &cut.least, node)?;
    let greatest = set_of_side(alloc, &cut.greatest, node)?;
    let FlowCut { flow, .. } = cut;
    Ok(Minima {
        least,
        greatest,
        flow,
        pipes,
    })
}
