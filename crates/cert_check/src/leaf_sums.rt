// The sums of a leaf in work, and the rules on a whole leaf.
ghost use Rattle.std.specs.Prelude.{◌≡◌, ◌↔◌, ◌++◌, ◌∷◌, [], ◌+◌, ◌*◌, ◌^◌, ◌<◌, ◌≤◌, length, List, ℕ, IfOk, IfSome, IsTrue};
ghost use Rattle.seed_model.specs.Keys.{sum_below};
ghost use Rattle.seed_model.specs.Ranges.{IsRange};
ghost use Rattle.seed_model.specs.Tables.{TableValue};
ghost use Rattle.bound_cert.specs.declared.multipliers.Give.{Give as GiveValue};
ghost use Rattle.cert_check.specs.Leaves.{AreSums, StaysSmall, behind_class, charge_sum, reward_sum, share_at, no_share, with_share, shared_out, share_won, share_lost, SumsReach, JudgesLeaf, multipliers_of};

use bound_cert::Give;
use seed_model::{NoMemory, Node, Range, Table};
use std::alloc::Global;

/// The rule on the charges of a leaf's classes.
const CHARGING: u8 = 10;

/// The rule on their rewards.
const REWARDING: u8 = 11;

/// The rule on the bound that a leaf proves.
const REACHING: u8 = 12;

/// What was charged and what was rewarded.
#[derive(Clone, Copy)]
pub(crate) struct Share {
    pub charge: u128,
    pub reward: u128,
}

const NO_SHARE: Share = Share {
    charge: 0,
    reward: 0,
};

/// The sums of the gives of a leaf, which rise by class: the share of each file, and that of the class in work. The
/// classes below that one are judged. All memory is taken when it is made.
#[derive(Drop)]
pub(crate) struct LeafSums {
    pub p: u64,
    pub q: u64,
    pub gives: u32,
    pub class: u32,
    pub work: Share,
    pub charged: bool,
    pub rewarded: bool,
    pub shares: Vec<Share>,
}

impl LeafSums {
    /// Sums with a share for each of so many files.
    pub(crate) fn new(alloc: Global, files: u32) -> Result<LeafSums, NoMemory>
        ensures files { IfOk result (λ s. length s.shares.items ≡ files) }
        ensures small { IfOk result StaysSmall }
        ensures begun { IfOk result (λ s. (s.p ≡ 0) × (s.q ≡ 0) × (s.class ≡ 0) × (s.gives ≡ 0)) }
        ensures sums { IfOk result (λ s. (table : TableValue) → AreSums table [] s) }
    {
        Ok(LeafSums {
            p: 0,
            q: 0,
            gives: 0,
            class: 0,
            work: NO_SHARE,
            charged: true,
            rewarded: true,
            shares: vec![in alloc; NO_SHARE; files as usize]?,
        })
    }

    /// Begins a leaf with its p and q, before its first give.
    pub(crate) fn begin(&mut self, p: u64, q: u64)
        requires p { p ≤ 2 ^ 50 }
        requires q { q ≤ 2 ^ 50 }
        ensures small { StaysSmall self.new }
        ensures files { length self.new.shares.items ≡ length self.old.shares.items }
        ensures p { self.new.p ≡ p }
        ensures q { self.new.q ≡ q }
        ensures class { self.new.class ≡ 0 }
        ensures sums { (table : TableValue) → AreSums table [] self.new }
    {
        self.p = p;
        self.q = q;
        self.gives = 0;
        self.class = 0;
        self.work = NO_SHARE;
        self.charged = true;
        self.rewarded = true;
        clear(&mut self.shares);
    }

    /// Judges the class in work, and goes on to the next.
    fn judge_class(&mut self, size: u64)
        requires size { size ≤ 2 ^ 50 }
        requires small { StaysSmall self.old }
        requires class { self.old.class + 1 < 2 ^ 32 }
        ensures { self.new ≡ behind_class size self.old }
    {
        let most = self.q as u128 * size as u128;
        let due = self.p as u128 * size as u128;
        self.charged = self.charged && self.work.charge <= most;
        self.rewarded = self.rewarded && self.work.reward == due;
        self.work = NO_SHARE;
        self.class += 1;
    }

    /// Judges the classes below one, from the class in work on.
    fn advance(&mut self, table: &Table, class: u32)
        requires class { class ≤ length table.now.classes }
        requires small { StaysSmall self.old }
        requires ahead { self.old.class ≤ class }
        ensures small { StaysSmall self.new }
        ensures class { self.new.class ≡ class }
        ensures rest { (self.new.p ≡ self.old.p) × (self.new.q ≡ self.old.q) × (self.new.gives ≡ self.old.gives) × (self.new.shares ≡ self.old.shares) }
        ensures sums { (gives : List GiveValue) → AreSums table.now gives self.old → AreSums table.now gives self.new }
    {
        while self.class < class {
            self.judge_class(table.size(self.class));
        }
    }

    /// Takes a give more.
    pub(crate) fn take(&mut self, table: &Table, give: Give)
        requires small { StaysSmall self.old }
        requires few { self.old.gives < 2 ^ 22 }
        requires class { give.class < length table.now.classes }
        requires rises { self.old.class ≤ give.class }
        requires file { give.file < length self.old.shares.items }
        requires charge { give.charge < 2 ^ 100 }
        requires reward { give.reward < 2 ^ 100 }
        ensures small { StaysSmall self.new }
        ensures files { length self.new.shares.items ≡ length self.old.shares.items }
        ensures p { self.new.p ≡ self.old.p }
        ensures q { self.new.q ≡ self.old.q }
        ensures class { self.new.class ≡ give.class }
        ensures gives { self.new.gives ≡ self.old.gives + 1 }
        ensures sums { (gives : List GiveValue) → AreSums table.now gives self.old → AreSums table.now (gives ++ give ∷ []) self.new }
    {
        self.advance(table, give.class);
        self.add(give);
    }

    /// Adds a give of the class in work.
    fn add(&mut self, give: Give)
        requires small { StaysSmall self.old }
        requires few { self.old.gives < 2 ^ 22 }
        requires file { give.file < length self.old.shares.items }
        requires class { self.old.class ≡ give.class }
        requires charge { give.charge < 2 ^ 100 }
        requires reward { give.reward < 2 ^ 100 }
        ensures small { StaysSmall self.new }
        ensures gives { self.new.gives ≡ self.old.gives + 1 }
        ensures work { self.new.work ≡ with_share self.old.work give }
        ensures shares { self.new.shares.items ≡ shared_out give self.old.shares.items }
        ensures rest { (self.new.p ≡ self.old.p) × (self.new.q ≡ self.old.q) × (self.new.class ≡ self.old.class) × (self.new.charged ≡ self.old.charged) × (self.new.rewarded ≡ self.old.rewarded) }
    {
        self.gives += 1;
        self.work.charge += give.charge;
        self.work.reward += give.reward;
        let share = self.shares[give.file as usize];
        self.shares[give.file as usize] = Share {
            charge: share.charge + give.charge,
            reward: share.reward + give.reward,
        };
    }

    /// Judges a whole leaf, behind its last give, by the rules on charges, on rewards and on the bound, and answers the
    /// number of the first that it breaks.
    pub(crate) fn judge(
        &mut self,
        table: &Table,
        range: &Range,
        bound: Option<u64>,
        node: &Node,
    ) -> Option<u8>
        requires small { StaysSmall self.old }
        requires class { self.old.class ≤ length table.now.classes }
        requires files { length self.old.shares.items ≡ table.now.files }
        requires inside { length node.now.inside ≡ table.now.files }
        requires outside { length node.now.outside ≡ table.now.files }
        requires range { IsRange range.now }
        requires bound { IfSome bound (λ z. z < 2 ^ 50) }
        ensures small { StaysSmall self.new }
        ensures files { length self.new.shares.items ≡ table.now.files }
        ensures judged { (gives : List GiveValue) → AreSums table.now gives self.old →
            JudgesLeaf table.now range.now bound node.now (multipliers_of self.old gives) result }
        ensures class { self.new.class ≤ length table.now.classes }
        ensures rest { (self.new.p ≡ self.old.p) × (self.new.q ≡ self.old.q) × (self.new.gives ≡ self.old.gives) }
        ensures sums { (gives : List GiveValue) → AreSums table.now gives self.old → AreSums table.now gives self.new }
    {
        self.advance(table, table.classes());
        if !self.charged {
            return Some(CHARGING);
        }
        if !self.rewarded {
            return Some(REWARDING);
        }
        match bound {
            Some(bound) if self.reaches(range, bound, node) => None,
            _ => Some(REACHING),
        }
    }

    /// Whether the sums reach a bound at a node.
    fn reaches(&self, range: &Range, bound: u64, node: &Node) -> bool
        requires small { StaysSmall self.now }
        requires inside { length node.now.inside ≡ length self.now.shares.items }
        requires outside { length node.now.outside ≡ length self.now.shares.items }
        requires range { IsRange range.now }
        requires bound { bound < 2 ^ 50 }
        ensures { IsTrue result ↔ SumsReach range.now node.now bound self.now }
    {
        let end = if self.p >= self.q {
            range.low
        } else {
            range.high
        };
        let lost = lost(&self.shares, node) + product(self.q, end) + product(self.q, bound);
        let won = won(&self.shares, node) + product(self.p, end) + self.q as u128;
        lost < won
    }
}

/// A product of one of p and q with a number of bytes.
fn product(times: u64, bytes: u64) -> u128
    requires times { times ≤ 2 ^ 50 }
    requires bytes { bytes < 2 ^ 51 }
    ensures product { result ≡ times * bytes }
    ensures small { result ≤ 2 ^ 101 }
{
    times as u128 * bytes as u128
}

/// Gives every file a share of nothing.
fn clear(shares: &mut [Share])
    ensures none { (file : ℕ) → file < length shares.old → share_at shares.new file ≡ no_share }
    ensures sums { (charge_sum shares.new ≡ 0) × (reward_sum shares.new ≡ 0) }
{
    for share in shares.iter_mut() {
        *share = NO_SHARE;
    }
}

/// What a node wins of the shares.
fn won(shares: &[Share], node: &Node) -> u128
    requires inside { length node.now.inside ≡ length shares.now }
    requires small { charge_sum shares.now ≤ 2 ^ 122 }
    ensures won { result ≡ sum_below (share_won node.now shares.now) (length shares.now) }
    ensures small { result ≤ 2 ^ 122 }
{
    let mut won = 0;
    for file in 0..node.inside.files() {
        let share = shares[file as usize];
        if node.inside.contains(file) {
            won += share.charge;
        }
    }
    won
}

/// What a node loses of them.
fn lost(shares: &[Share], node: &Node) -> u128
    requires inside { length node.now.inside ≡ length shares.now }
    requires outside { length node.now.outside ≡ length shares.now }
    requires small { reward_sum shares.now ≤ 2 ^ 122 }
    ensures lost { result ≡ sum_below (share_lost node.now shares.now) (length shares.now) }
    ensures small { result ≤ 2 ^ 122 }
{
    let mut lost = 0;
    for file in 0..node.inside.files() {
        let share = shares[file as usize];
        if node.inside.contains(file) {
            lost += share.reward;
        } else if !node.outside.contains(file) {
            lost += share.reward.saturating_sub(share.charge);
        }
    }
    lost
}
