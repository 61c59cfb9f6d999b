// A table with a class for each set of users.
ghost use Rattle.std.specs.Prelude.{◌≡◌, ◌+◌, ◌<◌, ◌^◌, length, IfOk, OnOk};
ghost use Rattle.incidence.specs.Incidences.{chunk_table};
ghost use Rattle.chunk_merge.specs.Classes.{bytes_in, classes_in, with_class};
ghost use Rattle.chunk_merge.specs.Merged.{merged};

use crate::user_list::UserList;
use incidence::Incidence;
use seed_model::{NoMemory, Table};
use std::alloc::Global;

/// The table whose classes are all chunks with one set of users: their sizes together, in the order of their first chunks.
pub fn merge(alloc: Global, incidence: &Incidence) -> Result<Table, NoMemory>
    ensures { IfOk result (λ table. table ≡ merged (chunk_table incidence.now)) }
{
    let mut users = UserList::new(alloc);
    let mut sizes = Vec::new(alloc);
    for chunk in 0..incidence.chunk_count() {
        add_chunk(
            &mut users,
            &mut sizes,
            incidence.users(chunk),
            incidence.size(chunk),
        )?;
    }
    let classes = users.into_classes(alloc, &sizes)?;
    Ok(Table::new(incidence.files(), classes))
}

/// Counts a chunk to the class with its users, which is put last where it is new.
fn add_chunk(
    users: &mut UserList,
    sizes: &mut Vec<u64>,
    list: &[u32],
    size: u64,
) -> Result<(), NoMemory>
    requires same { length sizes.old.items ≡ length users.old }
    requires fits { bytes_in (classes_in users.old sizes.old.items) + size < 2 ^ 64 }
    ensures same { OnOk result (length sizes.new.items ≡ length users.new) }
    ensures classes { OnOk result (classes_in users.new sizes.new.items ≡ with_class (classes_in users.old sizes.old.items) (record { size = size; users = list.now })) }
{
    if let Some(place) = users.find(list) {
        sizes[place] += size;
        return Ok(());
    }
    users.push(list)?;
    sizes.push(size)?;
    Ok(())
}
