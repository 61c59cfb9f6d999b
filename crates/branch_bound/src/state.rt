// The state of a search between two branchings, and one branching.
ghost use Rattle.std.specs.Prelude.{◌≡◌, ◌+◌, ◌*◌, ◌<◌, ◌≤◌, ◌^◌, ◌∷◌, ◌-◌, [], ℕ, List, None, All, IfOk, IfSome, OnOk, IsOk, length};
ghost use Rattle.seed_model.specs.declared.node.Node.{Node};
ghost use Rattle.seed_model.specs.Files.{holds};
ghost use Rattle.seed_model.specs.Nodes.{IsNode, mixed_replicated, weight_of};
ghost use Rattle.seed_model.specs.Ranges.{IsRange};
ghost use Rattle.seed_model.specs.Sums.{replicated_of};
ghost use Rattle.branch_bound.specs.declared.entry.Entry.{Entry};
ghost use Rattle.branch_bound.specs.Entries.{entry_at};
ghost use Rattle.branch_bound.specs.Orders.{GoesFirst};
ghost use Rattle.branch_bound.specs.SearchTrees.{is_at};
ghost use Rattle.branch_bound.specs.States.{IsKept, KeepsBetter, IsBelow, IsNew, waits, times_in, HaveValues, IsState, GoesOn, MayDiffer, DiffersAt};
ghost use Rattle.branch_bound.specs.Visits.{HasWeight};

use crate::candidate::Candidate;
use crate::entries::Entries;
use crate::entry::{Finding, Kept, Relaxation};
use crate::kept::offer;
use crate::waiting::Waiting;
use hull_bound::{NodeAnswer, solve_node};
use seed_model::{Mix, NoMemory, Node, Range, Table, first_difference, replicated};
use std::alloc::Global;

/// The nodes made so far, those of them that wait, the best plan that was offered, and the number of branchings.
#[derive(Drop)]
pub(crate) struct State {
    pub entries: Entries,
    pub waiting: Waiting,
    pub kept: Option<Kept>,
    pub branchings: u32,
}

/// The bytes that the sets of a mix replicate, each times its weight.
fn worth_of(mix: &Mix, first: u64, second: u64) -> u128
    requires alpha { mix.now.alpha < 2 ^ 51 }
    requires beta { mix.now.beta < 2 ^ 51 }
    ensures { result ≡ mix.now.alpha * first + mix.now.beta * second }
{
    mix.alpha as u128 * first as u128 + mix.beta as u128 * second as u128
}

/// What is found at a node; both sets of its mix are offered as plans, the one with fewer files first.
pub(crate) fn find(
    alloc: Global,
    table: &Table,
    range: &Range,
    node: &Node,
    kept: &mut Option<Kept>,
) -> Result<Finding, NoMemory>
    requires node { IsNode table.now.files node.now }
    requires range { IsRange range.now }
    ensures found { IfOk result (IsNew table.now range.now kept.new node.now) }
    ensures weight { IfOk result HasWeight }
    ensures better { IsOk result → KeepsBetter kept.old kept.new }
    ensures plan { (root : Node) → IsOk result → IsBelow table.now.files root node.now → IfSome kept.old (IsKept table.now range.now root) → IfSome kept.new (IsKept table.now range.now root) }
{
    let _files = table.files();
    match solve_node(alloc, table, range, node)? {
        NodeAnswer::Low => Ok(Finding::Low),
        NodeAnswer::High => Ok(Finding::High),
        NodeAnswer::Bound(multipliers, mix) => {
            let first = replicated(table, &mix.first);
            let second = replicated(table, &mix.second);
            offer(table, range, &mix.first, first, kept)?;
            offer(table, range, &mix.second, second, kept)?;
            let worth = worth_of(&mix, first, second);
            Ok(Finding::Valued(Relaxation {
                mix,
                p: multipliers.p,
                q: multipliers.q,
                worth,
            }))
        }
    }
}

/// Puts a new node where the waiting ones are, where it waits.
pub(crate) fn put_waiting(
    waiting: &mut Waiting,
    number: u32,
    finding: &Finding,
) -> Result<(), NoMemory>
    requires { HasWeight finding.now }
    ensures times { (k : ℕ) → OnOk result (times_in k waiting.new ≡ waits None finding.now * is_at k number + times_in k waiting.old) }
    ensures values { (es : List Entry) → OnOk result (HaveValues es waiting.old → (entry_at es number).file ≡ None → (entry_at es number).finding ≡ finding.now → HaveValues es waiting.new) }
{
    match finding {
        Finding::Low => Ok(()),
        Finding::High => Ok(()),
        Finding::Valued(relaxation) => {
            let weight = relaxation.mix.alpha + relaxation.mix.beta;
            waiting.push(Candidate {
                worth: relaxation.worth,
                weight,
                number,
            })
        }
    }
}

/// The first file in exactly one set of the mix at a node.
fn branching_file(entries: &Entries, number: u32) -> u32
    requires inside { number < length entries.now }
    requires differ { MayDiffer (entry_at entries.now number).finding }
    ensures { DiffersAt result (entry_at entries.now number).finding }
{
    let Finding::Valued(relaxation) = &entries.get(number).finding else {
        unreachable!();
    };
    let Some(file) = first_difference(&relaxation.mix.first, &relaxation.mix.second) else {
        unreachable!();
    };
    file
}

/// Branches the node of a candidate, the first of all that waited, which may hold a better plan: on the first file in
/// exactly one set of its mix, the child without the file first.
pub(crate) fn branch(
    alloc: Global,
    table: &Table,
    range: &Range,
    root: &Node,
    first: Candidate,
    state: &mut State,
) -> Result<(), NoMemory>
    requires root { IsNode table.now.files root.now }
    requires range { IsRange range.now }
    requires state { IsState table.now range.now root.now state.old.kept state.old.branchings state.old.entries (first ∷ state.old.waiting) }
    requires least { All (GoesFirst first) (first ∷ state.old.waiting) }
    requires goes_on { GoesOn state.old.kept first }
    requires few { state.old.branchings < 65535 }
    ensures branchings { OnOk result (state.new.branchings ≡ state.old.branchings + 1) }
    ensures state { OnOk result (IsState table.now range.now root.now state.new.kept state.new.branchings state.new.entries state.new.waiting) }
{
    let number = first.number;
    let file = branching_file(&state.entries, number);
    let without = state.entries.child_node(root, number, file, false)?;
    let out = find(alloc, table, range, &without, &mut state.kept)?;
    let with = state.entries.child_node(root, number, file, true)?;
    let inn = find(alloc, table, range, &with, &mut state.kept)?;
    let made = state.entries.len() as u32;
    put_waiting(&mut state.waiting, made, &out)?;
    put_waiting(&mut state.waiting, made + 1, &inn)?;
    state.entries.branch(number, file, out, inn)?;
    state.branchings += 1;
    Ok(())
}
