// The search.
ghost use Rattle.std.specs.Prelude.{◌≡◌, ◌≢◌, ◌+◌, ◌<◌, ◌≤◌, ◌^◌, IfSome, IfOk, OnOk, IsOk, length};
ghost use Rattle.seed_model.specs.Nodes.{IsNode};
ghost use Rattle.seed_model.specs.Ranges.{IsRange};
ghost use Rattle.branch_bound.specs.Ended.{IsEnded, AreVisited};
ghost use Rattle.branch_bound.specs.Founds.{IsComplete};
ghost use Rattle.branch_bound.specs.Outcomes.{IsSearched, search_root};
ghost use Rattle.branch_bound.specs.Pinned.{pinned_node};
ghost use Rattle.branch_bound.specs.States.{IsState};
ghost use Rattle.branch_bound.specs.Visits.{AreInside};
ghost use Rattle.branch_bound.specs.Written.{AreWritable};

use crate::ending::Ending;
use crate::entries::Entries;
use crate::found::Found;
use crate::kept::is_reached;
use crate::lines::{cut_at, heading_of, line_of};
use crate::state::{State, branch, find, put_waiting};
use crate::visits::{Visit, visits_of};
use crate::waiting::Waiting;
use bound_cert::{Document, NodeLine, NodeLines};
use seed_model::{NoMemory, Node, Range, Table, undecided};
use seed_ratio::ceiling;
use std::alloc::Global;

/// The node at which a search begins.
pub(crate) fn root_of(alloc: Global, table: &Table, pins: Option<&Node>) -> Result<Node, NoMemory>
    requires { IfSome (pinned_node pins) (IsNode table.now.files) }
    ensures root { IfOk result (λ root. root ≡ search_root table.now.files (pinned_node pins.entry)) }
    ensures node { IfOk result (IsNode table.now.files) }
{
    match pins {
        None => undecided(alloc, table.files()),
        Some(node) => {
            let inside = node.inside.copy()?;
            let outside = node.outside.copy()?;
            Ok(Node { inside, outside })
        }
    }
}

/// A search at its beginning: its root is the one node.
pub(crate) fn begin(
    alloc: Global,
    table: &Table,
    range: &Range,
    root: &Node,
) -> Result<State, NoMemory>
    requires root { IsNode table.now.files root.now }
    requires range { IsRange range.now }
    ensures none { IfOk result (λ state. state.branchings ≡ 0) }
    ensures state { IfOk result (λ state. IsState table.now range.now root.now state.kept state.branchings state.entries state.waiting) }
{
    let mut kept = None;
    let mut waiting = Waiting::new(alloc);
    let found = find(alloc, table, range, root, &mut kept)?;
    put_waiting(&mut waiting, 0, &found)?;
    let entries = Entries::of_root(alloc, found)?;
    Ok(State {
        entries,
        waiting,
        kept,
        branchings: 0,
    })
}

/// Branches the first of the waiting nodes, until none may hold a better plan or all branchings of the budget were made.
pub(crate) fn run(
    alloc: Global,
    table: &Table,
    range: &Range,
    root: &Node,
    nodes: u32,
    state: &mut State,
) -> Result<Ending, NoMemory>
    requires root { IsNode table.now.files root.now }
    requires range { IsRange range.now }
    requires budget { nodes ≤ 65535 }
    requires within { state.old.branchings ≤ nodes }
    requires state { IsState table.now range.now root.now state.old.kept state.old.branchings state.old.entries state.old.waiting }
    ensures within { IsOk result → state.new.branchings ≤ nodes }
    ensures ended { IfOk result (IsEnded table.now range.now root.now nodes state.new.kept state.new.branchings state.new.entries) }
{
    let _files = table.files();
    'branchings: loop {
        let Some(first) = state.waiting.take_first() else {
            return Ok(Ending::Closed);
        };
        let whole = ceiling(first.worth, first.weight as u128);
        if is_reached(whole, &state.kept) {
            return Ok(Ending::Closed);
        }
        if state.branchings == nodes {
            return Ok(Ending::Spent(whole as u64));
        }
        branch(alloc, table, range, root, first, state)?;
    }
}

/// The lines of the visited nodes.
fn lines_of(
    alloc: Global,
    table: &Table,
    root: &Node,
    entries: &Entries,
    visited: &[Visit],
) -> Result<Vec<NodeLine>, NoMemory>
    requires root { IsNode table.now.files root.now }
    requires inside { AreInside entries.now visited.now }
    requires writable { AreWritable table.now root.now entries.now }
    ensures { IfOk result (λ lines. AreVisited table.now root.now entries.now visited.now lines.items) }
{
    let mut lines = Vec::new(alloc);
    for visit in visited {
        let line = line_of(alloc, table, root, entries, *visit)?;
        lines.push(line)?;
    }
    Ok(lines)
}

/// Searches, and says what the certificate is made of.
pub(crate) fn explore(
    alloc: Global,
    table: &Table,
    range: &Range,
    pins: Option<&Node>,
    nodes: u32,
) -> Result<Found, NoMemory>
    requires range { IsRange range.now }
    requires pins { IfSome (pinned_node pins) (IsNode table.now.files) }
    requires budget { nodes ≤ 65535 }
    ensures { IfOk result (IsComplete table.now range.now (pinned_node pins.entry) nodes) }
{
    let _files = table.files();
    let root = root_of(alloc, table, pins)?;
    let mut state = begin(alloc, table, range, &root)?;
    let ending = run(alloc, table, range, &root, nodes, &mut state)?;
    let cut = cut_at(&state.kept, ending);
    let visited = visits_of(alloc, &state.entries, cut)?;
    let heading = heading_of(alloc, range, pins, &state.kept, ending)?;
    Ok(Found {
        root,
        state,
        ending,
        visited,
        heading,
    })
}

/// The certificate of a search with at most `nodes` branchings, which begins at the pins, or where none are given with no
/// file decided. Its answer is `Open` only where all branchings were made.
///
/// # Errors
///
/// `NoMemory` where memory runs out.
pub fn search(
    alloc: Global,
    table: &Table,
    range: &Range,
    pins: Option<&Node>,
    nodes: u32,
) -> Result<Document, NoMemory>
    requires range { IsRange range.now }
    requires pins { IfSome (pinned_node pins) (IsNode table.now.files) }
    requires budget { nodes ≤ 65535 }
    ensures { IfOk result (λ d. IsSearched table.now range.now (pinned_node pins.entry) nodes d.heading d.nodes) }
{
    let _files = table.files();
    let found = explore(alloc, table, range, pins, nodes)?;
    let lines = lines_of(
        alloc,
        table,
        &found.root,
        &found.state.entries,
        &found.visited,
    )?;
    let heading = found.heading;
    Ok(Document {
        heading,
        nodes: NodeLines::new(lines),
    })
}
