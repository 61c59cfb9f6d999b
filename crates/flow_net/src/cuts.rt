// Greatest flows with both sides of a least cut.
ghost use Rattle.std.specs.Prelude.{◌≡◌, ◌≢◌, ℕ, ◌+◌, ◌-◌, ◌*◌, ◌^◌, ◌<◌, ◌≤◌, Bool, true, false, List, length, replicate, IfOk, OnErr};
ghost use Rattle.flow_net.specs.Nets.{IsNet};
ghost use Rattle.flow_net.specs.Flows.{IsFlow, AreRoomsBelow, is_in};
ghost use Rattle.flow_net.specs.Levels.{reached};
ghost use Rattle.flow_net.specs.Runs.{IsProblem, IsScratchFor, IsRun, HasLevels};
ghost use Rattle.flow_net.specs.Values.{CarriesAtMost};
ghost use Rattle.flow_net.specs.Cuts.{AreSides, IsPrepared, chosen};

use crate::amounts::Filling;
use crate::counter::Steps;
use crate::levels::{Sought, UNREACHED, search};
use crate::links::{Adjacency, adjacency_of};
use crate::network::Net;
use crate::phases::begin;
use crate::powers::powers;
use crate::problem::Problem;
use crate::run::Run;
use crate::scratch::Scratch;
use seed_model::NoMemory;
use std::alloc::Global;
use std::sync::ledger::Ledger;

/// A greatest flow, and the nodes on the source side of two least cuts: the smallest and the largest such side.
#[derive(Drop)]
pub struct FlowCut {
    pub flow: Filling,
    pub least: Vec<bool>,
    pub greatest: Vec<bool>,
}

/// All the memory of a call: the links at each node, nothing on any pipe, and a place for each node in each list.
#[derive(Drop)]
struct Prepared {
    adjacency: Adjacency,
    run: Run,
    least: Vec<bool>,
    greatest: Vec<bool>,
}

/// Takes the memory of a call.
fn prepare(alloc: Global, net: &Net) -> Result<Prepared, NoMemory>
    ensures { IfOk result (λ prepared. IsPrepared net.now prepared) }
{
    let nodes = net.nodes() as usize;
    let adjacency = adjacency_of(alloc, net)?;
    let scratch = Scratch::of(alloc, nodes)?;
    let filling = Filling::empty(alloc, net)?;
    Ok(Prepared {
        adjacency,
        run: Run { filling, scratch },
        least: vec![in alloc; false; nodes]?,
        greatest: vec![in alloc; false; nodes]?,
    })
}

/// Notes which nodes were reached, or which were not.
fn note_side(levels: &[u32], which: bool, side: &mut [bool])
    requires { length side.old ≡ length levels.now }
    ensures { (v : ℕ) → v < length levels.now → is_in side.new v ≡ chosen which (reached levels.now v) }
{
    for (index, level) in levels.iter().enumerate() {
        side[index] = (*level != UNREACHED) == which;
    }
}

/// Pushes until no path is left: first along any paths, then in turns by powers of two.
fn fill<L: Ledger>(problem: &Problem, run: &mut Run, steps: &mut Steps<L>)
    requires run { IsRun problem.now run.old }
    requires none { run.old.filling.pushes ≡ 0 }
    requires few { length problem.now.net.now.pipes ≤ 2 ^ 24 }
    ensures run { IsRun problem.now run.new }
    ensures upto { (k : ℕ) → AreRoomsBelow (2 ^ k) problem.now.net.now.pipes →
        run.new.filling.pushes ≤ 2 * length problem.now.net.now.pipes * (k + 1) }
    ensures steps { steps.new ≡ steps.old + run.new.filling.pushes }
    ensures closed { HasLevels problem.now 1 run.new false }
{
    if begin(problem, run, steps) {
        return;
    }
    powers(problem, run, steps);
}

/// Notes the two sides: what a search from the source reached, and what a search back from the sink does not reach.
fn note_sides(problem: &Problem, run: &mut Run, least: &mut [bool], greatest: &mut [bool])
    requires net { IsNet problem.now.net.now }
    requires run { IsRun problem.now run.old }
    requires levels { HasLevels problem.now 1 run.old false }
    requires least { length least.old ≡ problem.now.net.now.nodes }
    requires greatest { length greatest.old ≡ problem.now.net.now.nodes }
    ensures filling { run.new.filling ≡ run.old.filling }
    ensures sides { AreSides problem.now.net.now problem.now.source problem.now.sink
        run.old.filling.amounts least.new greatest.new }
{
    let scratch = &mut run.scratch;
    note_side(&scratch.levels, true, least);
    let back = Problem {
        source: problem.sink,
        sink: problem.source,
        ..*problem
    };
    let sought = Sought {
        filling: &run.filling,
        power: 1,
        backward: true,
    };
    search(&back, &sought, &mut scratch.levels, &mut scratch.queue);
    note_side(&scratch.levels, false, greatest);
}

/// Fills the net, and notes the two sides.
fn solve<L: Ledger>(
    problem: &Problem,
    run: &mut Run,
    least: &mut [bool],
    greatest: &mut [bool],
    steps: &mut Steps<L>,
)
    requires net { IsNet problem.now.net.now }
    requires lawful { IsProblem problem.now }
    requires places { IsScratchFor problem.now.net.now.nodes run.old.scratch }
    requires none { run.old.filling.pushes ≡ 0 }
    requires empty { run.old.filling.amounts ≡ replicate (length problem.now.net.now.pipes) 0 }
    requires least { length least.old ≡ problem.now.net.now.nodes }
    requires greatest { length greatest.old ≡ problem.now.net.now.nodes }
    ensures flow { IsFlow problem.now.net.now problem.now.source problem.now.sink
        run.new.filling.amounts }
    ensures sides { AreSides problem.now.net.now problem.now.source problem.now.sink
        run.new.filling.amounts least.new greatest.new }
    ensures upto { (k : ℕ) → AreRoomsBelow (2 ^ k) problem.now.net.now.pipes →
        run.new.filling.pushes ≤ 2 * length problem.now.net.now.pipes * (k + 1) }
    ensures steps { steps.new ≡ steps.old + run.new.filling.pushes }
{
    fill(problem, run, steps);
    note_sides(problem, run, least, greatest);
}

/// A greatest flow from the source to the sink, and the smallest and the largest source side of a least cut. One step
/// is one push, and with every room below 2^k there are at most 2 * (number of pipes) * (k + 1) of them. Memory is
/// taken before the first push.
pub fn max_flow<L: Ledger>(
    alloc: Global,
    net: &Net,
    source: u32,
    sink: u32,
    steps: &mut Steps<L>,
) -> Result<FlowCut, NoMemory>
    requires source { source < net.now.nodes }
    requires sink { sink < net.now.nodes }
    requires apart { source ≢ sink }

    ensures flow { IfOk result (λ cut. IsFlow net.now source sink cut.flow.amounts) }
    ensures most { IfOk result (λ cut. (other : List ℕ) → IsFlow net.now source sink other →
        CarriesAtMost net.now.pipes source other cut.flow.amounts) }

    ensures sides { IfOk result (λ cut. AreSides net.now source sink
        cut.flow.amounts cut.least.items cut.greatest.items) }
    ensures least_nodes { IfOk result (λ cut. length cut.least.items ≡ net.now.nodes) }
    ensures greatest_nodes { IfOk result (λ cut. length cut.greatest.items ≡ net.now.nodes) }

    ensures bound { (k : ℕ) → AreRoomsBelow (2 ^ k) net.now.pipes →
        steps.new ≤ steps.old + 2 * length net.now.pipes * (k + 1) }
    ensures pushes { IfOk result (λ cut. steps.new ≡ steps.old + cut.flow.pushes) }
    ensures err { OnErr result (steps.new ≡ steps.old) }
{
    let prepared = prepare(alloc, net)?;
    let Prepared {
        adjacency,
        mut run,
        mut least,
        mut greatest,
    } = prepared;
    let problem = Problem {
        net,
        adjacency: &adjacency,
        source,
        sink,
    };
    solve(&problem, &mut run, &mut least, &mut greatest, steps);
    let Run { filling: flow, .. } = run;
    Ok(FlowCut {
        flow,
        least,
        greatest,
    })
}
