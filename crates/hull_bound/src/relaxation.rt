// The relaxation at a node.
ghost use Rattle.std.specs.Prelude.{◌≡◌, ◌^◌, ◌<◌, ◌≤◌, ◌-◌, ◌==◌, ℕ, not, length, IfOk, if◌then◌else◌};
ghost use Rattle.seed_model.specs.Files.{holds};
ghost use Rattle.seed_model.specs.Nodes.{IsNode, smallest_member, largest_member};
ghost use Rattle.seed_model.specs.Sums.{migrated_of};
ghost use Rattle.seed_model.specs.SumLaws.{AgreesBelow};
ghost use Rattle.seed_model.specs.Ranges.{IsRange};
ghost use Rattle.hull_bound.specs.Answers.{IsAnswer};
ghost use Rattle.hull_bound.specs.Corners.{IsCorner, IsAimed};
ghost use Rattle.hull_bound.specs.Relaxations.{IsRelaxation};

use crate::answer::NodeAnswer;
use crate::gives::{Amounts, multipliers_from};
use crate::minima::{Minima, minima_of};
use crate::node_net::Slope;
use crate::search::{Corner, Found, Stretch, corner_of, seek};
use bound_cert::Multipliers;
use flow_net::Steps;
use seed_model::{Mix, NoMemory, Node, PlanSet, Range, Table, migrated};
use std::alloc::Global;
use std::marker::Brand;
use std::sync::ledger::{Blank, Ledger};

/// Whether a node is low, or high and not low, and otherwise multipliers and a mix of one value, which is therefore the
/// least that a mix of the node replicates: by weak duality no mix is worth less than the multipliers say.
///
/// # Errors
///
/// `NoMemory` where memory runs out.
pub fn solve_node(
    alloc: Global,
    table: &Table,
    range: &Range,
    node: &Node,
) -> Result<NodeAnswer, NoMemory>
    requires node { IsNode table.now.files node.now }
    requires range { IsRange range.now }
    ensures { IfOk result (IsAnswer table.now range.now node.now) }
{
    answer_of::<Brand>(alloc, table, range, node, Blank::new(1))
}

/// The same, with a counter of the steps of all flows.
fn answer_of<L: Ledger>(
    alloc: Global,
    table: &Table,
    range: &Range,
    node: &Node,
    blank: Blank,
) -> Result<NodeAnswer, NoMemory>
    requires name { blank.name ≡ L.name }
    requires parts { blank.parts ≡ L.parts }
    requires counted { 0 < blank.parts }
    requires node { IsNode table.now.files node.now }
    requires range { IsRange range.now }
    ensures { IfOk result (IsAnswer table.now range.now node.now) }
{
    let _files = table.files();
    let largest = corner_of(table, largest_of(alloc, node)?);
    if largest.migrated < range.low {
        return Ok(NodeAnswer::Low);
    }
    let smallest = corner_of(table, node.inside.copy()?);
    if range.high < smallest.migrated {
        return Ok(NodeAnswer::High);
    }
    let mut steps = Steps::<L>::new(blank);
    let found = aimed(alloc, table, range, node, smallest, largest, &mut steps)?;
    let (multipliers, mix) = relaxed(alloc, table, range, node, found)?;
    Ok(NodeAnswer::Bound(multipliers, mix))
}

/// The member with the most files: all that are not outside.
fn largest_of(alloc: Global, node: &Node) -> Result<PlanSet, NoMemory>
    ensures files { IfOk result (λ s. length s ≡ length node.now.outside) }
    ensures set { IfOk result (λ s. AgreesBelow (length node.now.outside) (largest_member node.now) (holds s)) }
{
    let files = node.outside.files();
    let mut set = PlanSet::empty(alloc, files)?;
    for file in 0..files {
        if !node.outside.contains(file) {
            set.insert(file);
        }
    }
    Ok(set)
}

/// The slope of the search rule with its minima, and the migrated bytes at which its mix aims. At slope 1 the minima are
/// the members that replicate least.
fn aimed<L: Ledger>(
    alloc: Global,
    table: &Table,
    range: &Range,
    node: &Node,
    smallest: Corner,
    largest: Corner,
    steps: &mut Steps<L>,
) -> Result<Found, NoMemory>
    requires node { IsNode table.now.files node.now }
    requires smallest { IsCorner table.now smallest }
    requires is_smallest { AgreesBelow table.now.files (smallest_member node.now) (holds smallest.set) }
    requires largest { IsCorner table.now largest }
    requires is_largest { AgreesBelow table.now.files (largest_member node.now) (holds largest.set) }
    requires high_enough { range.now.low ≤ largest.migrated }
    requires low_enough { smallest.migrated ≤ range.now.high }
    ensures { IfOk result (IsAimed table.now range.now node.now) }
{
    let _files = table.files();
    let slope = Slope { p: 1, q: 1 };
    let minima = minima_of(alloc, table, node, slope, steps)?;
    let first = migrated(table, &minima.least);
    let last = migrated(table, &minima.greatest);
    if last < range.low {
        let lower = corner_of(table, minima.into_greatest());
        let upper = largest;
        let short = seek(
            alloc,
            table,
            range,
            node,
            true,
            Stretch { lower, upper },
            steps,
        )?;
        return Ok(short);
    }
    if range.high < first {
        let lower = smallest;
        let upper = corner_of(table, minima.into_least());
        let past = seek(
            alloc,
            table,
            range,
            node,
            false,
            Stretch { lower, upper },
            steps,
        )?;
        return Ok(past);
    }
    let aim = range.low.max(first);
    Ok(Found { slope, minima, aim })
}

/// The sets weighted by the distances of one another from the aim, which lies between them.
fn mix_of(table: &Table, first: PlanSet, second: PlanSet, aim: u64) -> Mix
    requires first { length first ≡ table.now.files }
    requires second { length second ≡ table.now.files }
    requires below { migrated_of (holds first) table.now ≤ aim }
    requires above { aim ≤ migrated_of (holds second) table.now }
    ensures first { result.first ≡ first }
    ensures second { result.second ≡ second }
    ensures alpha { result.alpha ≡ (if migrated_of (holds first) table.now == migrated_of (holds second) table.now then 1 else migrated_of (holds second) table.now - aim) }
    ensures beta { result.beta ≡ aim - migrated_of (holds first) table.now }
    ensures alpha_fits { result.alpha < 2 ^ 51 }
    ensures beta_fits { result.beta < 2 ^ 51 }
{
    let low = migrated(table, &first);
    let high = migrated(table, &second);
    let alpha = if low == high { 1 } else { high - aim };
    let beta = aim - low;
    Mix {
        first,
        second,
        alpha,
        beta,
    }
}

/// The multipliers and the mix of a slope.
fn relaxed(
    alloc: Global,
    table: &Table,
    range: &Range,
    node: &Node,
    found: Found,
) -> Result<(Multipliers, Mix), NoMemory>
    requires node { IsNode table.now.files node.now }
    requires range { IsRange range.now }
    requires aimed { IsAimed table.now range.now node.now found }
    ensures { IfOk result (λ r. IsRelaxation table.now range.now node.now r.0 r.1) }
{
    let _files = table.files();
    let Found { slope, minima, aim } = found;
    let Minima {
        least,
        greatest,
        flow,
        pipes,
    } = minima;
    let amounts = Amounts { flow: &flow, pipes };
    let multipliers = multipliers_from(alloc, table, node, slope, amounts)?;
    let mix = mix_of(table, least, greatest, aim);
    Ok((multipliers, mix))
}
