// Multipliers of a node for a slope.
ghost use Rattle.std.specs.Prelude.{◌≡◌, ◌<◌, ◌^◌, ◌≤◌, IfOk};
ghost use Rattle.seed_model.specs.Nodes.{IsNode};
ghost use Rattle.hull_bound.specs.Forms.{AreMultipliersAt};

use crate::gives::{Amounts, multipliers_from};
use crate::minima::minima_of;
use crate::node_net::Slope;
use bound_cert::Multipliers;
use flow_net::Steps;
use seed_model::{NoMemory, Node, Table};
use std::alloc::Global;
use std::marker::Brand;
use std::sync::ledger::{Blank, Ledger};

/// Multipliers with these `p` and `q`, such that some member of the node costs just what they say that none costs less
/// than. With the slope of the node's relaxation they prove the same bound as its multipliers.
///
/// # Errors
///
/// `NoMemory` where memory runs out.
pub fn multipliers_at(
    alloc: Global,
    table: &Table,
    node: &Node,
    p: u64,
    q: u64,
) -> Result<Multipliers, NoMemory>
    requires node { IsNode table.now.files node.now }
    requires p { p ≤ 2 ^ 50 }
    requires some { 1 ≤ q }
    requires q { q ≤ 2 ^ 50 }
    ensures { IfOk result (AreMultipliersAt table.now node.now p q) }
{
    solved_at::<Brand>(alloc, table, node, Slope { p, q }, Blank::new(1))
}

/// The same, with a counter of the flow's steps.
fn solved_at<L: Ledger>(
    alloc: Global,
    table: &Table,
    node: &Node,
    slope: Slope,
    blank: Blank,
) -> Result<Multipliers, NoMemory>
    requires name { blank.name ≡ L.name }
    requires parts { blank.parts ≡ L.parts }
    requires counted { 0 < blank.parts }
    requires node { IsNode table.now.files node.now }
    requires p { slope.p ≤ 2 ^ 50 }
    requires some { 1 ≤ slope.q }
    requires q { slope.q ≤ 2 ^ 50 }
    ensures { IfOk result (AreMultipliersAt table.now node.now slope.p slope.q) }
{
    let mut steps = Steps::<L>::new(blank);
    let minima = minima_of(alloc, table, node, slope, &mut steps)?;
    let amounts = Amounts {
        flow: &minima.flow,
        pipes: minima.pipes,
    };
    multipliers_from(alloc, table, node, slope, amounts)
}
