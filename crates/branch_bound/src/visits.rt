// The nodes of a search that its certificate has.
ghost use Rattle.std.specs.Prelude.{◌≡◌, ◌<◌, ◌^◌, IfOk, length};
ghost use Rattle.branch_bound.specs.Entries.{entry_at};
ghost use Rattle.branch_bound.specs.SearchTrees.{SearchTree};
ghost use Rattle.branch_bound.specs.Visits.{AreOrdered, IsOrdered, HasWeight, HaveWeights, skipped, visits};
ghost use Rattle.branch_bound.specs.Cuts.{is_cut};

use crate::entries::Entries;
use crate::entry::Finding;
use seed_model::NoMemory;
use seed_ratio::ceiling;
use std::alloc::Global;

/// A node that is written, by its number, and whether what lies below it is left out.
#[derive(Clone, Copy, Drop)]
pub(crate) struct Visit {
    pub number: u32,
    pub cut: bool,
}

/// Whether a node's value reaches so many bytes, if any are asked for: its ceiling is not below them.
fn reaches(bytes: Option<u64>, finding: &Finding) -> bool
    requires { HasWeight finding.now }
    ensures { result ≡ is_cut bytes finding.now }
{
    let Some(bytes) = bytes else {
        return false;
    };
    match finding {
        Finding::Low => false,
        Finding::High => false,
        Finding::Valued(relaxation) => {
            let weight = relaxation.mix.alpha as u128 + relaxation.mix.beta as u128;
            bytes as u128 <= ceiling(relaxation.worth, weight)
        }
    }
}

/// The nodes that are written, in preorder: what lies below a branched node whose value reaches so many bytes, if any are
/// asked for, is left out.
pub(crate) fn visits_of(
    alloc: Global,
    entries: &Entries,
    bytes: Option<u64>,
) -> Result<Vec<Visit>, NoMemory>
    requires ordered { AreOrdered entries.now }
    requires weights { HaveWeights entries.now }
    requires few { length entries.now < 2 ^ 32 }
    ensures { IfOk result (λ v. (tree : SearchTree) → IsOrdered entries.now tree → v.items ≡ visits bytes (entry_at entries.now) tree) }
{
    let mut order = Vec::new(alloc);
    let mut at = Some(0);
    let mut skip = 0;
    'nodes: for _turn in 0..entries.len() {
        let Some(number) = at else {
            unreachable!();
        };
        let entry = entries.get(number);
        let cut = reaches(bytes, &entry.finding);
        if skip == 0 {
            order.push(Visit { number, cut })?;
        }
        skip = left_out(skip, cut, entry.file.is_some());
        at = entry.next;
    }
    Ok(order)
}

/// How many of the trees that come next are left out behind a node, where so many were at it: its own is one of them, and
/// the trees of its children take its place where it is left out or cut.
fn left_out(skip: usize, cut: bool, parent: bool) -> usize
    requires { skip < 2 ^ 32 }
    ensures { result ≡ skipped skip cut parent }
{
    let before = skip.saturating_sub(1);
    if parent && (skip > 0 || cut) {
        before + 2
    } else {
        before
    }
}
