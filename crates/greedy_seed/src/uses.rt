// Which classes each file uses.
ghost use Rattle.std.specs.Prelude.{◌≡◌, ◌++◌, IfOk, OnOk};
ghost use Rattle.list_facts.specs.Keyed.{paired};
ghost use Rattle.seed_model.specs.Tables.{IsTable};
ghost use Rattle.greedy_seed.specs.Shares.{AreAllUses};

use list_facts::{KeyedLists, group};
use seed_model::{NoMemory, Table};
use std::alloc::Global;

/// The classes that each file uses, in order; in time linear in the uses.
///
/// # Errors
///
/// `NoMemory` where memory runs out.
pub fn uses_of(alloc: Global, table: &Table) -> Result<KeyedLists<u32>, NoMemory>
    ensures uses { IfOk result (AreAllUses table.now) }
    ensures table { IfOk result (λ uses. IsTable table.now) }
{
    let mut pairs = Vec::new(alloc);
    for class in 0..table.classes() {
        push_uses(&mut pairs, table.users(class), class)?;
    }
    Ok(group(alloc, &pairs, table.files(), 0)?)
}

/// Puts each user with the class last.
fn push_uses(pairs: &mut Vec<(u32, u32)>, users: &[u32], class: u32) -> Result<(), NoMemory>
    ensures { OnOk result (pairs.new.items ≡ pairs.old.items ++ paired users.now class) }
{
    for user in users {
        pairs.push((*user, class))?;
    }
    Ok(())
}
