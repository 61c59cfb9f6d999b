// Shares: for each file what moving it changes of a sum, class by class.
ghost use Rattle.std.specs.Prelude.{◌≡◌, ◌+◌, ◌-◌, ◌<◌, ◌≤◌, ℕ, Bool, IfOk, OnOk, length, slice_index, slice_set, count_by, true};
ghost use Rattle.seed_model.specs.Files.{holds};
ghost use Rattle.seed_model.specs.Keys.{class_at};
ghost use Rattle.seed_model.specs.Tables.{IsTable};
ghost use Rattle.greedy_seed.specs.Greedy.{flipped};
ghost use Rattle.greedy_seed.specs.Shares.{share, share_of, times, HasClass, HaveRoom, AreChanged, AreKept, AreUses};

use seed_model::limits::{MOST_BYTES, MOST_PAIRS};
use seed_model::{NoMemory, PlanSet, Table};
use std::alloc::Global;

/// How many users each class has in a set; and for each file what the set migrates, and what it touches, more with the
/// file than without it.
#[derive(Drop)]
pub struct Shares {
    pub counts: Vec<u32>,
    pub gains: Vec<u64>,
    pub reaches: Vec<u64>,
}

/// A file that moves, and how many users of a class are in the set before and after.
#[derive(Clone, Copy)]
pub struct Move {
    pub file: u32,
    pub before: u32,
    pub after: u32,
}

impl Shares {
    /// What a set of the table's files counts and shares.
    ///
    /// # Errors
    ///
    /// `NoMemory` where memory runs out.
    pub fn of(alloc: Global, table: &Table, set: &PlanSet) -> Result<Shares, NoMemory>
        requires { length set.now ≡ table.now.files }
        ensures { IfOk result (AreKept (λ class. holds set.now) table.now (length table.now.classes)) }
    {
        let files = table.files() as usize;
        let mut shares = Shares {
            counts: Vec::with_capacity(alloc, table.classes() as usize)?,
            gains: vec![in alloc; 0u64; files]?,
            reaches: vec![in alloc; 0u64; files]?,
        };
        for number in 0..table.classes() {
            shares.push_class(table, number, set)?;
        }
        Ok(shares)
    }

    /// Counts and shares the class with this number, which follows on those so far.
    fn push_class(&mut self, table: &Table, number: u32, set: &PlanSet) -> Result<(), NoMemory>
        requires class { HasClass table.now number (length set.now) }
        requires shares { AreKept (λ class. holds set.now) table.now number self.old }
        ensures { OnOk result (AreKept (λ class. holds set.now) table.now (number + 1) self.new) }
    {
        let count = count_in(table, number, set);
        let users = table.users(number).len() as u32;
        self.counts.push(count)?;
        add_shares(&mut self.gains, table, number, set, count, users);
        add_shares(&mut self.reaches, table, number, set, count, 1);
        Ok(())
    }

    /// Changes what these classes count and share, as the file that uses them moves.
    pub fn move_file(&mut self, table: &Table, classes: &[u32], set: &PlanSet, file: u32)
        requires table { IsTable table.now }
        requires set { length set.now ≡ table.now.files }
        requires file { file < table.now.files }
        requires classes { AreUses table.now file classes.now }
        requires shares { AreKept (λ class. holds set.now) table.now (length table.now.classes) self.old }
        ensures { AreKept (λ class. holds (flipped set.now file)) table.now (length table.now.classes) self.new }
    {
        for class in classes {
            self.move_class(table, *class, set, file);
        }
    }

    /// Changes what the class with this number counts and shares, as one of its users moves.
    fn move_class(&mut self, table: &Table, number: u32, set: &PlanSet, file: u32)
        requires class { HasClass table.now number (length set.now) }
        requires file { file < table.now.files }
        requires user { times file (class_at table.now.classes number).users ≡ 1 }
        requires counts { length self.old.counts.items ≡ length table.now.classes }
        requires count { slice_index self.old.counts.items number ≡ count_by (holds set.now) (class_at table.now.classes number).users }
        requires gains { HaveRoom table.now.files (share_of (length (class_at table.now.classes number).users) (holds set.now) (class_at table.now.classes number)) self.old.gains.items }
        requires reaches { HaveRoom table.now.files (share_of 1 (holds set.now) (class_at table.now.classes number)) self.old.reaches.items }
        ensures counts { self.new.counts.items ≡ slice_set self.old.counts.items number (count_by (holds (flipped set.now file)) (class_at table.now.classes number).users) }
        ensures gains { AreChanged (share_of (length (class_at table.now.classes number).users) (holds set.now) (class_at table.now.classes number)) (share_of (length (class_at table.now.classes number).users) (holds (flipped set.now file)) (class_at table.now.classes number)) self.old.gains.items self.new.gains.items }
        ensures reaches { AreChanged (share_of 1 (holds set.now) (class_at table.now.classes number)) (share_of 1 (holds (flipped set.now file)) (class_at table.now.classes number)) self.old.reaches.items self.new.reaches.items }
    {
        let before = self.counts[number as usize];
        let after = if set.contains(file) {
            before - 1
        } else {
            before + 1
        };
        let step = Move {
            file,
            before,
            after,
        };
        let users = table.users(number).len() as u32;
        self.counts[number as usize] = after;
        move_shares(&mut self.gains, table, number, set, step, users);
        move_shares(&mut self.reaches, table, number, set, step, 1);
    }
}

/// The bytes of a class, where as many of its users as `whole` are in the set once a user is; `count` of them are.
fn share(whole: u32, count: u32, inside: bool, bytes: u64) -> u64
    requires { count ≤ MOST_PAIRS }
    ensures share { result ≡ share whole count inside bytes }
    ensures within { result ≤ bytes }
{
    let missing = if inside { 0 } else { 1 };
    if count + missing == whole { bytes } else { 0 }
}

/// How many users of the class with this number are in the set.
fn count_in(table: &Table, number: u32, set: &PlanSet) -> u32
    requires { HasClass table.now number (length set.now) }
    ensures { result ≡ count_by (holds set.now) (class_at table.now.classes number).users }
{
    let mut count = 0;
    for user in table.users(number) {
        if set.contains(*user) {
            count += 1;
        }
    }
    count
}

/// Whether a file is in the set with another one flipped.
fn is_in_flipped(set: &PlanSet, file: u32, user: u32) -> bool
    requires file { file < length set.now }
    requires user { user < length set.now }
    ensures { result ≡ holds (flipped set.now file) user }
{
    if user == file {
        !set.contains(file)
    } else {
        set.contains(user)
    }
}

/// Adds for each user of the class with this number its share; `count` of them are in the set.
fn add_shares(shares: &mut [u64], table: &Table, number: u32, set: &PlanSet, count: u32, whole: u32)
    requires class { HasClass table.now number (length set.now) }
    requires count { count ≡ count_by (holds set.now) (class_at table.now.classes number).users }
    requires room { HaveRoom table.now.files (λ file. 0) shares.old }
    ensures { AreChanged (λ file. 0) (share_of whole (holds set.now) (class_at table.now.classes number)) shares.old shares.new }
{
    let bytes = table.size(number);
    for user in table.users(number) {
        let more = share(whole, count, set.contains(*user), bytes);
        let at = *user as usize;
        shares[at] += more;
    }
}

/// Changes the shares of the users of the class with this number as a file moves.
fn move_shares(
    shares: &mut [u64],
    table: &Table,
    number: u32,
    set: &PlanSet,
    step: Move,
    whole: u32,
)
    requires class { HasClass table.now number (length set.now) }
    requires file { step.file < length set.now }
    requires before { step.before ≡ count_by (holds set.now) (class_at table.now.classes number).users }
    requires after { step.after ≡ count_by (holds (flipped set.now step.file)) (class_at table.now.classes number).users }
    requires room { HaveRoom table.now.files (share_of whole (holds set.now) (class_at table.now.classes number)) shares.old }
    ensures { AreChanged (share_of whole (holds set.now) (class_at table.now.classes number)) (share_of whole (holds (flipped set.now step.file)) (class_at table.now.classes number)) shares.old shares.new }
{
    if is_apart(step.before, whole) && is_apart(step.after, whole) {
        return;
    }
    let bytes = table.size(number);
    for user in table.users(number) {
        move_share(shares, bytes, set, step, whole, *user);
    }
}

/// Changes the share of a user of a class of these bytes.
fn move_share(shares: &mut [u64], bytes: u64, set: &PlanSet, step: Move, whole: u32, user: u32)
    requires set { length set.now ≡ length shares.old }
    requires file { step.file < length set.now }
    requires user { user < length set.now }
    requires before { step.before ≤ MOST_PAIRS }
    requires after { step.after ≤ MOST_PAIRS }
    requires bytes { bytes ≤ MOST_BYTES }
    requires small { slice_index shares.old user ≤ MOST_BYTES }
    requires room { share whole step.before (holds set.now user) bytes ≤ slice_index shares.old user }
    ensures { shares.new ≡ slice_set shares.old user (slice_index shares.old user + share whole step.after (holds (flipped set.now step.file) user) bytes - share whole step.before (holds set.now user) bytes) }
{
    let less = share(whole, step.before, set.contains(user), bytes);
    let moved = is_in_flipped(set, step.file, user);
    let more = share(whole, step.after, moved, bytes);
    let at = user as usize;
    shares[at] = shares[at] + more - less;
}

/// Whether no user has a share: too many or too few users are in the set.
fn is_apart(count: u32, whole: u32) -> bool
    requires { count ≤ MOST_PAIRS }
    ensures { result ≡ true → (inside : Bool) (bytes : ℕ) → share whole count inside bytes ≡ 0 }
{
    count > whole || count + 1 < whole
}
