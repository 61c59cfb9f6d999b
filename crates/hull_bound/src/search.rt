// The search for the slope whose minima enclose an aim.
ghost use Rattle.std.specs.Prelude.{◌≡◌, ◌<◌, ◌≤◌, ◌-◌, ◌^◌, length, IfOk};
ghost use Rattle.seed_model.specs.Nodes.{IsNode};
ghost use Rattle.seed_ratio.specs.Fractions.{IsLowest};
ghost use Rattle.hull_bound.specs.Corners.{IsCorner, IsBetween, IsFound, IsTurn, aim_of};

use crate::minima::{Minima, minima_of};
use crate::node_net::Slope;
use flow_net::Steps;
use seed_model::limits::MOST_BYTES;
use seed_model::{NoMemory, Node, PlanSet, Range, Table, migrated, touched};
use seed_ratio::lowest;
use std::alloc::Global;
use std::sync::ledger::Ledger;

/// A set of files with the bytes that it migrates and those that it touches.
#[derive(Drop)]
pub(crate) struct Corner {
    pub set: PlanSet,
    pub migrated: u64,
    pub touched: u64,
}

/// Two sets between which the aim lies, by the bytes that they migrate.
#[derive(Drop)]
pub(crate) struct Stretch {
    pub lower: Corner,
    pub upper: Corner,
}

/// A slope in lowest terms with its minima, and the migrated bytes between them at which a mix of the two aims.
#[derive(Drop)]
pub(crate) struct Found {
    pub slope: Slope,
    pub minima: Minima,
    pub aim: u64,
}

/// What a turn of the search makes of a stretch: the slope that was sought, or a narrower stretch.
#[derive(Drop)]
enum Turn {
    Ends(Found),
    Narrows(Stretch),
}

/// A set with its sums.
pub(crate) fn corner_of(table: &Table, set: PlanSet) -> Corner
    requires { length set ≡ table.now.files }
    ensures same { result.set ≡ set }
    ensures corner { IsCorner table.now result }
{
    let migrated = migrated(table, &set);
    let touched = touched(table, &set);
    Corner {
        set,
        migrated,
        touched,
    }
}

/// The slope of the line between the two ends, in lowest terms.
fn slope_between(stretch: &Stretch) -> Slope
    requires touched { stretch.now.lower.touched ≤ stretch.now.upper.touched }
    requires migrated { stretch.now.lower.migrated < stretch.now.upper.migrated }
    requires few_touched { stretch.now.upper.touched ≤ MOST_BYTES }
    requires few_migrated { stretch.now.upper.migrated ≤ MOST_BYTES }
    ensures lowest { IsLowest (stretch.now.upper.touched - stretch.now.lower.touched) (stretch.now.upper.migrated - stretch.now.lower.migrated) result.p result.q }
    ensures p { result.p ≤ 2 ^ 50 }
    ensures q { result.q ≤ 2 ^ 50 }
{
    let over = stretch.upper.touched - stretch.lower.touched;
    let under = stretch.upper.migrated - stretch.lower.migrated;
    let (p, q) = lowest(over as u128, under as u128);
    Slope {
        p: p as u64,
        q: q as u64,
    }
}

/// The end of the range at which a mix aims: the low one where all sets that replicate least fall short of the range, and
/// else the high one.
fn aim_at(range: &Range, short: bool) -> u64
    ensures { result ≡ aim_of range.now short }
{
    if short { range.low } else { range.high }
}

/// A turn takes the line between the two ends of a stretch. Where both of its minima lie on one side of the aim, the
/// nearer one takes the place of that end.
fn take_turn<L: Ledger>(
    alloc: Global,
    table: &Table,
    range: &Range,
    node: &Node,
    short: bool,
    stretch: Stretch,
    steps: &mut Steps<L>,
) -> Result<Turn, NoMemory>
    requires node { IsNode table.now.files node.now }
    requires between { IsBetween table.now node.now short (aim_of range.now short) stretch }
    ensures { IfOk result (IsTurn table.now node.now short (aim_of range.now short) stretch) }
{
    let _files = table.files();
    let aim = aim_at(range, short);
    let slope = slope_between(&stretch);
    let minima = minima_of(alloc, table, node, slope, steps)?;
    let first = migrated(table, &minima.least);
    let last = migrated(table, &minima.greatest);
    let Stretch { lower, upper } = stretch;
    if last < aim {
        let lower = corner_of(table, minima.into_greatest());
        return Ok(Turn::Narrows(Stretch { lower, upper }));
    }
    if aim < first {
        let upper = corner_of(table, minima.into_least());
        return Ok(Turn::Narrows(Stretch { lower, upper }));
    }
    Ok(Turn::Ends(Found { slope, minima, aim }))
}

/// The first slope between whose minima the aim lies, both ends included.
pub(crate) fn seek<L: Ledger>(
    alloc: Global,
    table: &Table,
    range: &Range,
    node: &Node,
    short: bool,
    stretch: Stretch,
    steps: &mut Steps<L>,
) -> Result<Found, NoMemory>
    requires node { IsNode table.now.files node.now }
    requires between { IsBetween table.now node.now short (aim_of range.now short) stretch }
    ensures { IfOk result (IsFound table.now node.now short (aim_of range.now short)) }
{
    let mut stretch = stretch;
    'turns: loop {
        match take_turn(alloc, table, range, node, short, stretch, steps)? {
            Turn::Ends(found) => return Ok(found),
            Turn::Narrows(next) => stretch = next,
        }
    }
}
