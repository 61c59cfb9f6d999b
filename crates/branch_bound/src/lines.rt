// The lines of a search's certificate.
ghost use Rattle.std.specs.Prelude.{◌≡◌, ◌<◌, ◌≤◌, ◌^◌, ℕ, Some, None, IfOk, IfSome, length, option_map};
ghost use Rattle.seed_model.specs.declared.node.Node.{Node};
ghost use Rattle.seed_model.specs.Nodes.{IsNode};
ghost use Rattle.seed_text.specs.SetTexts.{set_text};
ghost use Rattle.branch_bound.specs.Ended.{cut_of, heading_of as heading_for};
ghost use Rattle.branch_bound.specs.Entries.{entry_at, AreNodes};
ghost use Rattle.branch_bound.specs.Pinned.{pinned_node};
ghost use Rattle.branch_bound.specs.Outcomes.{named_pins};
ghost use Rattle.branch_bound.specs.States.{claim_of};
ghost use Rattle.branch_bound.specs.Written.{IsLeafLine, IsValuedLine, IsLineOf, IsSlope, AreWritable, branch_line};

use crate::ending::Ending;
use crate::entries::Entries;
use crate::entry::{Finding, Kept, Relaxation};
use crate::visits::Visit;
use bound_cert::{Answer, Claimed, Heading, NodeLine, Pins, SetText};
use hull_bound::multipliers_at;
use seed_model::{NoMemory, Node, PlanSet, Range, Table};
use seed_text::write_set;
use std::alloc::Global;

/// The text of a set.
fn named(alloc: Global, set: &PlanSet) -> Result<SetText, NoMemory>
    ensures { IfOk result (λ text. text ≡ set_text set.now) }
{
    Ok(SetText::new(write_set(alloc, set)?))
}

/// A branching on a file with a node's mix.
fn branching(alloc: Global, relaxation: &Relaxation, file: u32) -> Result<NodeLine, NoMemory>
    ensures { IfOk result (λ line. line ≡ branch_line relaxation.now file) }
{
    let first = named(alloc, &relaxation.mix.first)?;
    let second = named(alloc, &relaxation.mix.second)?;
    Ok(NodeLine::Branch {
        file,
        first,
        second,
        alpha: relaxation.mix.alpha,
        beta: relaxation.mix.beta,
    })
}

/// A leaf with multipliers at a node's slope, made anew.
fn leaf(
    alloc: Global,
    table: &Table,
    root: &Node,
    entries: &Entries,
    number: u32,
    relaxation: &Relaxation,
) -> Result<NodeLine, NoMemory>
    requires root { IsNode table.now.files root.now }
    requires inside { number < length entries.now }
    requires writable { AreWritable table.now root.now entries.now }
    requires slope { IsSlope relaxation.now }
    ensures { IfOk result (λ line. (nodes : ℕ → Node) → AreNodes root.now entries.now nodes → IsLeafLine table.now (nodes number) relaxation.now line) }
{
    let node = entries.node(root, number)?;
    let multipliers = multipliers_at(alloc, table, &node, relaxation.p, relaxation.q)?;
    Ok(NodeLine::Leaf(multipliers))
}

/// The line of a visited node that has a value.
fn valued_line(
    alloc: Global,
    table: &Table,
    root: &Node,
    entries: &Entries,
    visit: Visit,
    relaxation: &Relaxation,
    file: Option<u32>,
) -> Result<NodeLine, NoMemory>
    requires root { IsNode table.now.files root.now }
    requires inside { visit.number < length entries.now }
    requires writable { AreWritable table.now root.now entries.now }
    requires slope { IsSlope relaxation.now }
    ensures { IfOk result (λ line. (nodes : ℕ → Node) → AreNodes root.now entries.now nodes → IsValuedLine table.now visit.cut (nodes visit.number) file relaxation.now line) }
{
    match file {
        None => leaf(alloc, table, root, entries, visit.number, relaxation),
        Some(file) => {
            if visit.cut {
                leaf(alloc, table, root, entries, visit.number, relaxation)
            } else {
                branching(alloc, relaxation, file)
            }
        }
    }
}

/// The line of a visited node; the multipliers of a leaf are made anew.
pub(crate) fn line_of(
    alloc: Global,
    table: &Table,
    root: &Node,
    entries: &Entries,
    visit: Visit,
) -> Result<NodeLine, NoMemory>
    requires root { IsNode table.now.files root.now }
    requires inside { visit.number < length entries.now }
    requires writable { AreWritable table.now root.now entries.now }
    ensures { IfOk result (λ line. (nodes : ℕ → Node) → AreNodes root.now entries.now nodes → IsLineOf table.now visit.cut (nodes visit.number) (entry_at entries.now visit.number).file (entry_at entries.now visit.number).finding line) }
{
    let entry = entries.get(visit.number);
    match &entry.finding {
        Finding::Low => Ok(NodeLine::Low),
        Finding::High => Ok(NodeLine::High),
        Finding::Valued(relaxation) => {
            valued_line(alloc, table, root, entries, visit, relaxation, entry.file)
        }
    }
}

/// The pins as a certificate names them.
fn pins_of(alloc: Global, pins: Option<&Node>) -> Result<Option<Pins>, NoMemory>
    ensures { IfOk result (λ named. named ≡ named_pins (pinned_node pins.entry)) }
{
    match pins {
        None => Ok(None),
        Some(node) => {
            let go = named(alloc, &node.inside)?;
            let stay = named(alloc, &node.outside)?;
            Ok(Some(Pins { go, stay }))
        }
    }
}

/// The plan as a certificate claims it.
fn claimed_of(alloc: Global, kept: &Option<Kept>) -> Result<Option<Claimed>, NoMemory>
    ensures { IfOk result (λ claimed. claimed ≡ option_map claim_of kept.now) }
{
    match kept {
        None => Ok(None),
        Some(plan) => {
            let set = named(alloc, &plan.set)?;
            Ok(Some(Claimed {
                set,
                migrated: plan.migrated,
                replicated: plan.replicated,
            }))
        }
    }
}

/// The bytes that the plan replicates.
fn bytes_of(kept: &Option<Kept>) -> Option<u64>
    ensures { result ≡ option_map (λ (k : Kept). k.replicated) kept.now }
{
    match kept {
        None => None,
        Some(plan) => Some(plan.replicated),
    }
}

/// The bytes at which the tree of a search that ended so is cut.
pub(crate) fn cut_at(kept: &Option<Kept>, ending: Ending) -> Option<u64>
    ensures { result ≡ cut_of kept.now ending }
{
    match ending {
        Ending::Closed => bytes_of(kept),
        Ending::Spent(_) => None,
    }
}

/// What the certificate of a search claims that ended so.
pub(crate) fn heading_of(
    alloc: Global,
    range: &Range,
    pins: Option<&Node>,
    kept: &Option<Kept>,
    ending: Ending,
) -> Result<Heading, NoMemory>
    ensures { IfOk result (λ heading. heading ≡ heading_for range.now (pinned_node pins.entry) kept.now ending) }
{
    let pins = pins_of(alloc, pins)?;
    let plan = claimed_of(alloc, kept)?;
    let (answer, bound) = match ending {
        Ending::Closed if kept.is_some() => (Answer::Optimal, bytes_of(kept)),
        Ending::Closed => (Answer::Infeasible, None),
        Ending::Spent(whole) => (Answer::Open, Some(whole)),
    };
    Ok(Heading {
        range: *range,
        pins,
        answer,
        plan,
        bound,
    })
}
