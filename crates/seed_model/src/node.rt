// Nodes of a search: sets of files with some files decided.
ghost use Rattle.std.specs.Prelude.{◌≡◌, IfOk};
ghost use Rattle.seed_model.specs.Nodes.{undecided_node};
ghost use Rattle.seed_model.specs.NodeLaws.{EndsAreMembers, MembersLieBetween, LowNodesAdmitNone, HighNodesAdmitNone, FreeFilesSplit, MembersGoDown, MembersGoUp, UndecidedAdmitsAll};

use crate::memory::NoMemory;
use crate::plan_set::PlanSet;
use std::alloc::Global;

/// The sets of files that have each file of `inside` and none of `outside`. A file in neither is free. Both are sets of
/// the same number of files, and no file is in both.
#[derive(Drop)]
pub struct Node {
    pub inside: PlanSet,
    pub outside: PlanSet,
}

/// Two sets of files with the weights of a mean.
#[derive(Drop)]
pub struct Mix {
    pub first: PlanSet,
    pub second: PlanSet,
    pub alpha: u64,
    pub beta: u64,
}

/// The node of so many files in which no file is decided.
///
/// # Errors
///
/// `NoMemory` where memory runs out.
pub fn undecided(alloc: Global, files: u32) -> Result<Node, NoMemory>
    ensures { IfOk result (λ node. node ≡ undecided_node files) }
{
    let inside = PlanSet::empty(alloc, files)?;
    let outside = PlanSet::empty(alloc, files)?;
    Ok(Node { inside, outside })
}

/// The laws of nodes and their members, for every table that keeps to the limits.
pub fn node_laws()
    ensures ends { EndsAreMembers }
    ensures between { MembersLieBetween }
    ensures low { LowNodesAdmitNone }
    ensures high { HighNodesAdmitNone }
    ensures split { FreeFilesSplit }
    ensures down { MembersGoDown }
    ensures up { MembersGoUp }
    ensures undecided { UndecidedAdmitsAll }
{}
