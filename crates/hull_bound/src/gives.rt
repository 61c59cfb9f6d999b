// What the amounts on a node's net give: multipliers, read in one walk along the users of each class.
ghost use Rattle.std.specs.Prelude.{◌≡◌, ℕ, ◌+◌, ◌-◌, ◌*◌, ◌^◌, ◌<◌, ◌≤◌, ◌++◌, ◌∷◌, ◌&&◌, ◌||◌, not, true, [], All, length, drop, slice_index_or, IfOk, if◌then◌else◌};
ghost use Rattle.std.specs.List.{count_by, filter};
ghost use Rattle.seed_model.specs.Files.{holds};
ghost use Rattle.seed_model.specs.Keys.{class_at};
ghost use Rattle.seed_model.specs.Nodes.{IsNode, is_free};
ghost use Rattle.hull_bound.specs.Forms.{is_some_give};
ghost use Rattle.hull_bound.specs.Slots.{reward_slots, charge_slots, slots_from};
ghost use Rattle.hull_bound.specs.Walks.{AreSmall, taken, left_over, walk, asked, class_gives, node_gives, multipliers_of};

use crate::node_net::{Slope, any_in, is_open};
use bound_cert::{Give, Gives, Multipliers};
use flow_net::Filling;
use seed_model::{NoMemory, Node, Table};
use std::alloc::Global;

/// The amounts on the pipes of a net, and how many pipes it has.
#[derive(Clone, Copy)]
pub(crate) struct Amounts<'a> {
    pub flow: &'a Filling,
    pub pipes: u32,
}

/// Half of what is still to be shared by the users of a class: what the first user that is asked takes, and the pipe of
/// the next free one.
#[derive(Clone, Copy)]
struct Half {
    rest: u128,
    pipe: u32,
}

/// Both halves of it.
#[derive(Clone, Copy)]
struct Shares {
    rewards: Half,
    charges: Half,
}

/// The amount on a pipe; past the last pipe there is none.
fn amount_on(amounts: Amounts, pipe: u32) -> u128
    requires pipes { amounts.pipes ≡ length amounts.flow.now.amounts }
    requires small { AreSmall amounts.flow.now.amounts }
    ensures amount { result ≡ slice_index_or amounts.entry.flow.now.amounts pipe 0 }
    ensures small { result < 2 ^ 104 }
{
    if pipe < amounts.pipes {
        amounts.flow.amount(pipe)
    } else {
        0
    }
}

impl Half {
    /// What a user takes of the rest: all of it where it is asked.
    fn take_rest(&mut self, asks: bool) -> u128
        ensures taken { result ≡ (if asks then self.old.rest else 0) }
        ensures rest { self.new.rest ≡ (if asks then 0 else self.old.rest) }
        ensures pipe { self.new.pipe ≡ self.old.pipe }
    {
        if !asks {
            return 0;
        }
        let rest = self.rest;
        self.rest = 0;
        rest
    }

    /// What a user takes of the flow: the next amount where it is free.
    fn take_next(&mut self, free: bool, amounts: Amounts) -> u128
        requires pipes { amounts.pipes ≡ length amounts.flow.now.amounts }
        requires small { AreSmall amounts.flow.now.amounts }
        requires pipe { self.old.pipe < 2 ^ 31 }
        ensures taken { result ≡ taken free (drop self.old.pipe amounts.entry.flow.now.amounts) }
        ensures small { result < 2 ^ 104 }
        ensures rest { self.new.rest ≡ self.old.rest }
        ensures pipe { drop self.new.pipe amounts.entry.flow.now.amounts ≡ left_over free (drop self.old.pipe amounts.entry.flow.now.amounts) }
        ensures next { self.new.pipe ≤ self.old.pipe + 1 }
    {
        if !free {
            return 0;
        }
        let amount = amount_on(amounts, self.pipe);
        self.pipe += 1;
        amount
    }

    /// What a user takes of a half: the rest where it is asked, and the next amount where it is free.
    fn take(&mut self, asks: bool, free: bool, amounts: Amounts) -> u128
        requires pipes { amounts.pipes ≡ length amounts.flow.now.amounts }
        requires small { AreSmall amounts.flow.now.amounts }
        requires rest { self.old.rest < 2 ^ 104 }
        requires pipe { self.old.pipe < 2 ^ 31 }
        ensures taken { result ≡ (if asks then self.old.rest else 0) + taken free (drop self.old.pipe amounts.entry.flow.now.amounts) }
        ensures rest { self.new.rest ≡ (if asks then 0 else self.old.rest) }
        ensures less { self.new.rest ≤ self.old.rest }
        ensures pipe { drop self.new.pipe amounts.entry.flow.now.amounts ≡ left_over free (drop self.old.pipe amounts.entry.flow.now.amounts) }
        ensures next { self.new.pipe ≤ self.old.pipe + 1 }
    {
        let rest = self.take_rest(asks);
        let next = self.take_next(free, amounts);
        rest + next
    }
}

/// How many users are free.
fn count_free(users: &[u32], node: &Node) -> u32
    requires node { length node.now.inside ≡ length node.now.outside }
    requires below { All (λ file. file < length node.now.inside) users.now }
    requires few { length users.now < 2 ^ 22 }
    ensures { result ≡ count_by (is_free node.now) users.now }
{
    let mut count = 0;
    for file in users {
        if is_open(*file, node) {
            count += 1;
        }
    }
    count
}

/// Who takes the rest of a class's rewards: a user outside, or any user where none is.
fn is_asked(file: u32, node: &Node, barred: bool) -> bool
    requires { file < length node.now.outside }
    ensures { result ≡ asked node.now barred file }
{
    !barred || node.outside.contains(file)
}

/// Adds a give, unless it is one of nothing.
fn push_some(gives: &mut Vec<Give>, give: Give) -> Result<(), NoMemory>
    ensures { IfOk result (λ _. gives.new.items ≡ gives.old.items ++ filter is_some_give (give ∷ [])) }
{
    let nothing = give.charge == 0 && give.reward == 0;
    if nothing {
        return Ok(());
    }
    gives.push(give)?;
    Ok(())
}

/// Adds the gives of a class: one to each user that gets something.
fn push_gives(
    gives: &mut Vec<Give>,
    users: &[u32],
    class: u32,
    node: &Node,
    barred: bool,
    amounts: Amounts,
    shares: Shares,
) -> Result<(), NoMemory>
    requires node { length node.now.inside ≡ length node.now.outside }
    requires below { All (λ file. file < length node.now.inside) users.now }
    requires few { length users.now < 2 ^ 22 }
    requires pipes { amounts.pipes ≡ length amounts.flow.now.amounts }
    requires small { AreSmall amounts.flow.now.amounts }
    requires rewards { shares.rewards.rest < 2 ^ 104 }
    requires reward_pipe { shares.rewards.pipe < 2 ^ 30 }
    requires charges { shares.charges.rest < 2 ^ 104 }
    requires charge_pipe { shares.charges.pipe < 2 ^ 30 }
    ensures { IfOk result (λ _. gives.new.items ≡ gives.old.items ++ filter is_some_give (walk (is_free node.now) (asked node.now barred) (holds node.now.inside) class
        users.now shares.rewards.rest shares.charges.rest (drop shares.rewards.pipe amounts.entry.flow.now.amounts) (drop shares.charges.pipe amounts.entry.flow.now.amounts))) }
{
    let Shares {
        mut rewards,
        mut charges,
    } = shares;
    for file in users {
        let free = is_open(*file, node);
        let asks = is_asked(*file, node, barred);
        let pays = node.inside.contains(*file);
        let reward = rewards.take(asks, free, amounts);
        let charge = charges.take(pays, free, amounts);
        let give = Give {
            class,
            file: *file,
            charge,
            reward,
        };
        push_some(gives, give)?;
    }
    Ok(())
}

/// What the rewards of a class begin with, whose first pipe this is.
fn rewards_of(whole: u128, barred: bool, amounts: Amounts, first: u32) -> Half
    requires pipes { amounts.pipes ≡ length amounts.flow.now.amounts }
    requires small { AreSmall amounts.flow.now.amounts }
    requires first { first < 2 ^ 29 }
    requires few { amounts.pipes < 2 ^ 29 }
    requires whole { whole < 2 ^ 104 }
    ensures rest { result.rest ≡ (if barred then whole else whole - slice_index_or (drop first amounts.entry.flow.now.amounts) 0 0) }
    ensures pipe { drop result.pipe amounts.entry.flow.now.amounts ≡ (if barred then [] else drop 1 (drop first amounts.entry.flow.now.amounts)) }
    ensures small { result.rest < 2 ^ 104 }
    ensures few { result.pipe < 2 ^ 30 }
{
    if barred {
        Half {
            rest: whole,
            pipe: amounts.pipes,
        }
    } else {
        Half {
            rest: whole.saturating_sub(amount_on(amounts, first)),
            pipe: first + 1,
        }
    }
}

/// What the charges of a class begin with, whose first pipe of that half this is.
fn charges_of(forced: bool, amounts: Amounts, first: u32) -> Half
    requires pipes { amounts.pipes ≡ length amounts.flow.now.amounts }
    requires small { AreSmall amounts.flow.now.amounts }
    requires first { first < 2 ^ 29 }
    requires few { amounts.pipes < 2 ^ 29 }
    ensures rest { result.rest ≡ (if forced then slice_index_or (drop first amounts.entry.flow.now.amounts) 0 0 else 0) }
    ensures pipe { drop result.pipe amounts.entry.flow.now.amounts ≡ (if forced then [] else drop 1 (drop first amounts.entry.flow.now.amounts)) }
    ensures small { result.rest < 2 ^ 104 }
    ensures few { result.pipe < 2 ^ 30 }
{
    if forced {
        Half {
            rest: amount_on(amounts, first),
            pipe: amounts.pipes,
        }
    } else {
        Half {
            rest: 0,
            pipe: first + 1,
        }
    }
}

/// Adds the gives of a class, whose first pipe this is, and answers the first pipe of the next.
fn add_class(
    gives: &mut Vec<Give>,
    table: &Table,
    class: u32,
    node: &Node,
    p: u64,
    amounts: Amounts,
    first: u32,
) -> Result<u32, NoMemory>
    requires class { class < length table.now.classes }
    requires node { IsNode table.now.files node.now }
    requires p { p ≤ 2 ^ 50 }
    requires pipes { amounts.pipes ≡ length amounts.flow.now.amounts }
    requires small { AreSmall amounts.flow.now.amounts }
    requires first { first < 2 ^ 28 }
    requires few { amounts.pipes < 2 ^ 29 }
    ensures next { IfOk result (λ next. next ≡ first + length (reward_slots node.now class (class_at table.now.classes class) ++ charge_slots node.now class (class_at table.now.classes class))) }
    ensures gives { IfOk result (λ _. gives.new.items ≡ gives.old.items ++ filter is_some_give (class_gives p node.now class (class_at table.now.classes class) (drop first amounts.entry.flow.now.amounts))) }
{
    let _files = table.files();
    let users = table.users(class);
    let free = count_free(users, node);
    let barred = any_in(users, &node.outside);
    let forced = any_in(users, &node.inside);
    let behind = first + half_length(barred, free);
    let whole = p as u128 * table.size(class) as u128;
    let shares = Shares {
        rewards: rewards_of(whole, barred, amounts, first),
        charges: charges_of(forced, amounts, behind),
    };
    push_gives(gives, users, class, node, barred, amounts, shares)?;
    Ok(behind + half_length(forced, free))
}

/// The pipes of half a class: one alone where it is decided, and else one more for each free user.
fn half_length(decided: bool, free: u32) -> u32
    requires { free < 2 ^ 22 }
    ensures { result ≡ (if decided then 1 else 1 + free) }
{
    if decided { 1 } else { 1 + free }
}

/// The multipliers that a flow through the net of a node gives.
pub(crate) fn multipliers_from(
    alloc: Global,
    table: &Table,
    node: &Node,
    slope: Slope,
    amounts: Amounts,
) -> Result<Multipliers, NoMemory>
    requires node { IsNode table.now.files node.now }
    requires p { slope.p ≤ 2 ^ 50 }
    requires pipes { amounts.pipes ≡ length amounts.flow.now.amounts }
    requires slots { length amounts.flow.now.amounts ≡ length (slots_from node.now 0 table.now.classes) }
    requires few { amounts.pipes ≤ 2 ^ 24 }
    requires small { AreSmall amounts.flow.now.amounts }
    ensures { IfOk result (λ m. m ≡ multipliers_of slope.p slope.q (node_gives slope.p table.now node.now amounts.entry.flow.now.amounts)) }
{
    let mut gives = Vec::new(alloc);
    let mut first = 0;
    for class in 0..table.classes() {
        first = add_class(&mut gives, table, class, node, slope.p, amounts, first)?;
    }
    Ok(Multipliers {
        p: slope.p,
        q: slope.q,
        gives: Gives::new(gives),
    })
}
