// Nodes with one member.
ghost use Rattle.std.specs.Prelude.{IfOk};
ghost use Rattle.recipe_order.specs.Pins.{HasOneMember, PinsExactly};

use seed_model::{NoMemory, Node, PlanSet};
use std::alloc::Global;

/// The node of which a set is the only member: the files of the set must go, and all others must stay.
///
/// # Errors
///
/// `NoMemory` where memory runs out.
pub fn pins_of(alloc: Global, set: &PlanSet) -> Result<Node, NoMemory>
    ensures { IfOk result (PinsExactly set.now) }
{
    let inside = set.copy()?;
    let files = set.files();
    let mut outside = PlanSet::empty(alloc, files)?;
    for file in 0..files {
        if !set.contains(file) {
            outside.insert(file);
        }
    }
    Ok(Node { inside, outside })
}

/// Where the files of a set are pinned inside and all others outside, that is a node, and its members are the set alone.
pub fn pins_laws()
    ensures { HasOneMember }
{}
