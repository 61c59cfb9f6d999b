// The chunks that a volume holds, by name: what is kept of each, and their order.
ghost use Rattle.std.specs.Prelude.{◌≡◌, ◌⊎◌, ◌+◌, ◌^◌, ◌<◌, ◌≤◌, true, false, List, ℕ, [], slice_get, slice_index_or, Some, IfOk, OnOk, OnErr, IsOk, length, max};
ghost use Rattle.std.specs.List.{list_all};
ghost use Rattle.std.specs.FinMap as fin_map;
ghost use Rattle.volume_index.specs.ChunkTables.{IsSameTable, IsRank, new_entry, has_users, CountsList, MarksList, MayChange, ListMayChange, SettlesList, ChangesUsers, AreFree, with_entry, without_mark, changed_users};
ghost use Rattle.site_forms.specs.Names.{is_listed};

use indexmap::IndexMap;
use seed_model::NoMemory;
use std::alloc::Global;
use std::cmp::Ordering;
use std::marker::Model;
use tiered_list::TieredList;

// The most entries that numbers of 32 bits tell apart.
const MOST_ENTRIES: usize = 4_294_967_296;

/// What is kept of a chunk: never its bytes.
#[derive(Clone, Copy)]
pub(crate) struct ChunkEntry {
    /// The place of its first byte on the device.
    pub place: u64,
    /// Its length in bytes, from 1 to 1,048,576.
    pub len: u32,
    /// How many files use it.
    pub users: u32,
    /// Whether the list in work has named it.
    pub is_marked: bool,
}

/// How many chunks a list names, and how many of them have some number of users.
#[derive(Clone, Copy)]
pub(crate) struct ListCounts {
    pub distinct: u32,
    pub matching: u32,
}

/// What becomes of the users of the chunks of a list.
#[derive(Clone, Copy)]
pub(crate) enum Change {
    /// They stay.
    Keep,
    /// One more.
    Join,
    /// One less.
    Leave,
}

/// Chunks by name. Their order is kept from the time on when it is first asked for.
#[derive(Drop)]
pub(crate) struct ChunkTable {
    entries: IndexMap<[u8; 32], ChunkEntry>,
    order: TieredList,
    is_ordered: bool,
}

impl Model for ChunkTable {
    ghost use Rattle.std.specs.Prelude.{length};
    ghost use Rattle.std.specs.FinMap as fin_map;
    ghost use Rattle.indexmap.specs.IndexMap.{spare};
    ghost use Rattle.volume_index.specs.ChunkTables.{ChunkTableValue, table_code, table_room, KeepsTable};

    ghost Value = { ChunkTableValue };

    ghost coded = { table_code };

    ghost view = { λ t. record { entries = fin_map.from_entries t.entries.entries; is_ordered = t.is_ordered; room = table_room (spare t.entries) t.order.room (length t.entries.entries) } };

    ghost invariant = { λ t. KeepsTable t.is_ordered t.entries.entries t.order.items };
}

impl ChunkTable {
    /// No chunks.
    pub(crate) fn new(alloc: Global) -> Self
        ensures entries { result.entries ≡ fin_map.empty }
        ensures ordered { result.is_ordered ≡ false }
    {
        ChunkTable {
            entries: IndexMap::new(alloc),
            order: TieredList::new(alloc),
            is_ordered: false,
        }
    }

    /// What is kept of a chunk.
    pub(crate) fn get(&self, name: &[u8; 32]) -> Option<ChunkEntry>
        ensures { result ≡ fin_map.get self.now.entries name.now }
    {
        self.entries.get(name).copied()
    }

    /// How many chunks there are.
    pub(crate) fn len(&self) -> usize
        ensures len { result ≡ fin_map.len self.now.entries }
        ensures few { result ≤ 2 ^ 32 }
    {
        self.entries.len()
    }

    /// Whether the names are in order.
    pub(crate) fn is_ordered(&self) -> bool
        ensures { result ≡ self.now.is_ordered }
    {
        self.is_ordered
    }

    /// The name at a place in their order.
    pub(crate) fn name_at(&self, place: usize) -> &[u8; 32]
        requires ordered { self.now.is_ordered ≡ true }
        requires there { place < fin_map.len self.now.entries }
        ensures { slice_get (fin_map.keys self.now.entries) place ≡ Some result.now }
    {
        let number = self.order.get(place) as usize;
        self.entries.get_index(number).unwrap().0
    }

    /// The place of a name among the names in order, or that at which it belongs.
    pub(crate) fn rank(&self, name: &[u8; 32]) -> usize
        requires { self.now.is_ordered ≡ true }
        ensures { IsRank (fin_map.keys self.now.entries) name.now result }
    {
        let mut low = 0;
        let mut high = self.len();
        'halves: while low < high {
            let middle = low + (high - low) / 2;
            match self.name_at(middle).cmp(name) {
                Ordering::Less => low = middle + 1,
                Ordering::Equal => high = middle,
                Ordering::Greater => high = middle,
            }
        }
        low
    }

    /// Makes room for so many more chunks.
    pub(crate) fn reserve(&mut self, additional: usize) -> Result<(), NoMemory>
        ensures same { IsSameTable self.old self.new }
        ensures room { OnOk result (additional ≤ self.new.room) }
        ensures few { OnOk result (fin_map.len self.old.entries + additional ≤ 2 ^ 32) }
        ensures succeeds { additional ≤ self.old.room → IsOk result }
    {
        if MOST_ENTRIES - self.entries.len() < additional {
            return Err(NoMemory);
        }
        self.entries.reserve(additional)?;
        self.order.reserve(additional)?;
        Ok(())
    }

    /// Adds a chunk that is lacking.
    pub(crate) fn put(&mut self, name: &[u8; 32], place: u64, len: u32) -> Result<(), NoMemory>
        requires { fin_map.contains_key self.old.entries name.now ≡ false }
        ensures entries { OnOk result (self.new.entries ≡ fin_map.insert self.old.entries name.now (new_entry place len)) }
        ensures ordered { self.new.is_ordered ≡ self.old.is_ordered }
        ensures room { self.old.room ≤ self.new.room + 1 }
        ensures few { OnOk result (fin_map.len self.old.entries < 2 ^ 32) }
        ensures err { OnErr result (IsSameTable self.old self.new) }
        ensures succeeds { 1 ≤ self.old.room → IsOk result }
    {
        self.reserve(1)?;
        let entry = ChunkEntry {
            place,
            len,
            users: 0,
            is_marked: false,
        };
        if self.is_ordered() {
            self.put_in_order(name, entry);
        } else {
            self.put_last(name, entry);
        }
        Ok(())
    }

    // Adds a chunk that is lacking, where the names are not in order.
    fn put_last(&mut self, name: &[u8; 32], entry: ChunkEntry)
        requires lacking { fin_map.contains_key self.old.entries name.now ≡ false }
        requires ordered { self.old.is_ordered ≡ false }
        requires room { 1 ≤ self.old.room }
        ensures entries { self.new.entries ≡ fin_map.insert self.old.entries name.now entry }
        ensures ordered { self.new.is_ordered ≡ self.old.is_ordered }
        ensures room { self.old.room ≤ self.new.room + 1 }
    {
        let _ = self.entries.insert(*name, entry).unwrap();
    }

    // Adds a chunk that is lacking, and its number at the rank of its name.
    fn put_in_order(&mut self, name: &[u8; 32], entry: ChunkEntry)
        requires lacking { fin_map.contains_key self.old.entries name.now ≡ false }
        requires ordered { self.old.is_ordered ≡ true }
        requires room { 1 ≤ self.old.room }
        ensures entries { self.new.entries ≡ fin_map.insert self.old.entries name.now entry }
        ensures ordered { self.new.is_ordered ≡ self.old.is_ordered }
        ensures room { self.old.room ≤ self.new.room + 1 }
    {
        let rank = self.rank(name);
        let number = self.entries.len() as u32;
        self.order.insert(rank, number);
        let _ = self.entries.insert(*name, entry).unwrap();
    }

    /// Takes a chunk out.
    pub(crate) fn remove(&mut self, name: &[u8; 32])
        requires { fin_map.contains_key self.old.entries name.now ≡ true }
        ensures entries { self.new.entries ≡ fin_map.remove self.old.entries name.now }
        ensures ordered { self.new.is_ordered ≡ self.old.is_ordered }
        ensures room { self.old.room ≤ self.new.room }
    {
        if self.is_ordered() {
            self.take_in_order(name);
        } else {
            self.take(name);
        }
    }

    // Takes a chunk out, where the names are not in order.
    fn take(&mut self, name: &[u8; 32])
        requires held { fin_map.contains_key self.old.entries name.now ≡ true }
        requires ordered { self.old.is_ordered ≡ false }
        ensures entries { self.new.entries ≡ fin_map.remove self.old.entries name.now }
        ensures ordered { self.new.is_ordered ≡ self.old.is_ordered }
        ensures room { self.old.room ≤ self.new.room }
    {
        let _ = self.entries.swap_remove(name);
    }

    // Takes a chunk out, and its number. The last chunk takes this number.
    fn take_in_order(&mut self, name: &[u8; 32])
        requires held { fin_map.contains_key self.old.entries name.now ≡ true }
        requires ordered { self.old.is_ordered ≡ true }
        ensures entries { self.new.entries ≡ fin_map.remove self.old.entries name.now }
        ensures ordered { self.new.is_ordered ≡ self.old.is_ordered }
        ensures room { self.old.room ≤ self.new.room }
    {
        let rank = self.rank(name);
        let number = self.entries.get_index_of(name).unwrap();
        let last_name = *self.entries.get_index(self.entries.len() - 1).unwrap().0;
        let last = self.rank(&last_name);
        self.order.set(last, number as u32);
        let _ = self.order.remove(rank);
        let _ = self.entries.swap_remove_index(number).unwrap();
    }

    /// Puts the names in order.
    pub(crate) fn sort(&mut self) -> Result<(), NoMemory>
        ensures entries { self.new.entries ≡ self.old.entries }
        ensures ordered { OnOk result (self.new.is_ordered ≡ true) }
    {
        let mut order = TieredList::new(self.order.allocator());
        for number in 0..self.entries.len() {
            order.push(number as u32)?;
        }
        self.entries.sort_keys()?;
        self.order = order;
        self.is_ordered = true;
        Ok(())
    }

    /// Whether each chunk of a list is held.
    pub(crate) fn holds_all(&self, list: &[[u8; 32]]) -> bool
        ensures { result ≡ list_all (fin_map.contains_key self.now.entries) list.now }
    {
        list.iter().all(|name| self.get(name).is_some())
    }

    /// Changes the users of each chunk of a list, all of which are held, and counts those that had so many users before.
    pub(crate) fn change_users(
        &mut self,
        list: &[[u8; 32]],
        users: u32,
        change: Change,
    ) -> ListCounts
        requires held { list_all (fin_map.contains_key self.old.entries) list.now ≡ true }
        requires short { length list.now < 2 ^ 32 }
        requires free { AreFree self.old.entries }
        requires may { ListMayChange change list.now self.old.entries }
        ensures entries { ChangesUsers change list.now self.old.entries self.new.entries }
        ensures ordered { self.new.is_ordered ≡ self.old.is_ordered }
        ensures room { self.new.room ≡ self.old.room }
        ensures counts { CountsList users self.old.entries list.now result }
    {
        let counts = self.mark(list, users);
        self.settle(list, change);
        counts
    }

    /// The first place from this one on, in the order of the names, at which no file uses the chunk; the number of chunks
    /// where there is none.
    pub(crate) fn first_unused(&self, from: usize) -> usize
        requires ordered { self.now.is_ordered ≡ true }
        requires within { from ≤ fin_map.len self.now.entries }
        ensures within { result ≤ fin_map.len self.now.entries }
        ensures from { from ≤ result }
        ensures used { (j : ℕ) → from ≤ j → j < result → has_users 0 self.now.entries (slice_index_or (fin_map.keys self.now.entries) j []) ≡ false }
        ensures unused { result < fin_map.len self.now.entries → has_users 0 self.now.entries (slice_index_or (fin_map.keys self.now.entries) result []) ≡ true }
    {
        for place in from..self.len() {
            if self.entry_at(place).users == 0 {
                return place;
            }
        }
        self.len()
    }

    /// The least place at which a chunk of a list stands, or `most` where that is less.
    pub(crate) fn least_rank(&self, list: &[[u8; 32]], most: usize) -> usize
        requires { self.now.is_ordered ≡ true }
        ensures most { result ≤ most }
        ensures before { (j : ℕ) → j < result → j < fin_map.len self.now.entries → is_listed list.now (slice_index_or (fin_map.keys self.now.entries) j []) ≡ false }
    {
        let mut least = most;
        for name in list {
            least = least.min(self.rank(name));
        }
        least
    }

    /// A place at or before that at which a lacking name belongs, and at most `first`; 0 where the names are not in order.
    pub(crate) fn first_with(&self, name: &[u8; 32], first: usize) -> usize
        ensures most { result ≤ first }
        ensures rank { (result ≡ 0) ⊎ ((rank : ℕ) × IsRank (fin_map.keys self.now.entries) name.now rank × (result ≤ rank)) }
    {
        if !self.is_ordered() {
            return 0;
        }
        first.min(self.rank(name))
    }

    /// A place before which no chunk of a list stands, and at most `first`; 0 where the names are not in order.
    pub(crate) fn first_without(&self, list: &[[u8; 32]], first: usize) -> usize
        ensures most { result ≤ first }
        ensures before { (j : ℕ) → j < result → j < fin_map.len self.now.entries → is_listed list.now (slice_index_or (fin_map.keys self.now.entries) j []) ≡ false }
    {
        if !self.is_ordered() {
            return 0;
        }
        self.least_rank(list, first)
    }

    /// A place such that the chunks from `first` up to it are used; 0 where the names are not in order.
    pub(crate) fn next_unused(&self, first: usize) -> usize
        requires { first ≤ fin_map.len self.now.entries }
        ensures within { result ≤ fin_map.len self.now.entries }
        ensures used { (j : ℕ) → first ≤ j → j < result → has_users 0 self.now.entries (slice_index_or (fin_map.keys self.now.entries) j []) ≡ false }
    {
        if !self.is_ordered() {
            return 0;
        }
        self.first_unused(first)
    }

    // What is kept of the chunk at a place in the order of the names.
    fn entry_at(&self, place: usize) -> ChunkEntry
        requires ordered { self.now.is_ordered ≡ true }
        requires there { place < fin_map.len self.now.entries }
        ensures { fin_map.get self.now.entries (slice_index_or (fin_map.keys self.now.entries) place []) ≡ Some result }
    {
        let number = self.order.get(place) as usize;
        *self.entries.get_index(number).unwrap().1
    }

    // What is kept of a chunk that is held becomes another.
    fn replace(&mut self, name: &[u8; 32], entry: ChunkEntry)
        requires { fin_map.contains_key self.old.entries name.now ≡ true }
        ensures entries { self.new.entries ≡ fin_map.insert self.old.entries name.now entry }
        ensures ordered { self.new.is_ordered ≡ self.old.is_ordered }
        ensures room { self.new.room ≡ self.old.room }
    {
        let number = self.entries.get_index_of(name).unwrap();
        let (_, kept) = self.entries.pair_mut(number);
        *kept = entry;
    }

    // Marks the chunks of a list, all of which are held, and counts those that have so many users.
    fn mark(&mut self, list: &[[u8; 32]], users: u32) -> ListCounts
        requires held { list_all (fin_map.contains_key self.old.entries) list.now ≡ true }
        requires short { length list.now < 2 ^ 32 }
        requires free { AreFree self.old.entries }
        ensures entries { MarksList list.now self.old.entries self.new.entries }
        ensures ordered { self.new.is_ordered ≡ self.old.is_ordered }
        ensures room { self.new.room ≡ self.old.room }
        ensures counts { CountsList users self.old.entries list.now result }
    {
        let mut counts = ListCounts {
            distinct: 0,
            matching: 0,
        };
        for name in list {
            let entry = self.get(name).unwrap();
            self.replace(name, marked(entry));
            counts = counted(counts, entry, users);
        }
        counts
    }

    // Takes the marks of a list away, and changes the users of its chunks.
    fn settle(&mut self, list: &[[u8; 32]], change: Change)
        requires held { list_all (fin_map.contains_key self.old.entries) list.now ≡ true }
        requires marked { (name : List ℕ) (e : ChunkEntry) → is_listed list.now name ≡ true → fin_map.get self.old.entries name ≡ Some e → e.is_marked ≡ true }
        requires may { ListMayChange change list.now self.old.entries }
        ensures entries { SettlesList change list.now self.old.entries self.new.entries }
        ensures ordered { self.new.is_ordered ≡ self.old.is_ordered }
        ensures room { self.new.room ≡ self.old.room }
    {
        for name in list {
            let entry = self.get(name).unwrap();
            self.replace(name, settled(entry, change));
        }
    }
}

// An entry with its mark.
fn marked(entry: ChunkEntry) -> ChunkEntry
    ensures { result ≡ record entry { is_marked = true } }
{
    ChunkEntry {
        is_marked: true,
        ..entry
    }
}

// The counts with an entry more, where it was not marked before.
fn counted(counts: ListCounts, entry: ChunkEntry, users: u32) -> ListCounts
    requires distinct { counts.distinct + 1 < 2 ^ 32 }
    requires matching { counts.matching + 1 < 2 ^ 32 }
    ensures { result ≡ with_entry counts entry users }
{
    if entry.is_marked {
        return counts;
    }
    let distinct = counts.distinct + 1;
    if entry.users == users {
        return ListCounts {
            distinct,
            matching: counts.matching + 1,
        };
    }
    ListCounts {
        distinct,
        matching: counts.matching,
    }
}

// An entry without its mark, whose users have changed where it was marked.
fn settled(entry: ChunkEntry, change: Change) -> ChunkEntry
    requires { entry.is_marked ≡ true → MayChange change entry.users }
    ensures { result ≡ without_mark change entry }
{
    if !entry.is_marked {
        return entry;
    }
    ChunkEntry {
        users: changed(entry.users, change),
        is_marked: false,
        ..entry
    }
}

// A number of users that has changed.
fn changed(users: u32, change: Change) -> u32
    requires { MayChange change users }
    ensures { result ≡ changed_users change users }
{
    match change {
        Change::Keep => users,
        Change::Join => users + 1,
        Change::Leave => users - 1,
    }
}
