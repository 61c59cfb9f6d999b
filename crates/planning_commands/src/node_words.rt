// The node that two words spell.
ghost use Rattle.std.specs.Prelude.{◌<◌, ◌^◌, IfOk, IfErr};
ghost use Rattle.planning_commands.specs.Nodes.{IsBadNode, SpellsNode};

use seed_model::{NoMemory, Node, are_apart};
use seed_text::read_set;
use std::alloc::Global;

/// The node of so many files that two words spell: the set of the files inside, and that of the files outside. Where they
/// spell none, the place of the bad word; that of the first is given, and the second stands behind it.
pub(crate) fn node_of(
    alloc: Global,
    files: u32,
    inside: &[u8],
    outside: &[u8],
    place: u32,
) -> Result<Result<Node, u32>, NoMemory>
    requires { place < 2 ^ 31 }
    ensures node { IfOk result (λ read. IfOk read (λ node. SpellsNode files inside.now outside.now node)) }
    ensures bad { IfOk result (λ read. IfErr read (λ bad. IsBadNode files inside.now outside.now place bad)) }
{
    let Some(inside) = read_set(alloc, inside, files)? else {
        return Ok(Err(place));
    };
    let Some(outside) = read_set(alloc, outside, files)? else {
        return Ok(Err(place + 1));
    };
    if are_apart(&inside, &outside) {
        Ok(Ok(Node { inside, outside }))
    } else {
        Ok(Err(place + 1))
    }
}
