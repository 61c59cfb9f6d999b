// Amounts on the pipes of a net, changed by pushes alone.
ghost use Rattle.std.specs.Prelude.{◌≡◌, ◌≢◌, ℕ, ◌+◌, ◌^◌, ◌<◌, ◌≤◌, true, false, All, Contains, length, replicate, slice_index, IfOk};
ghost use Rattle.flow_net.specs.Paths.{use_of, LeadsOn, HaveLeft, pushed, left_on};
ghost use Rattle.flow_net.specs.Moves.{IsReady};

use crate::counter::Steps;
use crate::network::Net;
use crate::pipes::{Pipe, Use};
use seed_model::NoMemory;
use std::alloc::Global;
use std::marker::Model;
use std::sync::ledger::Ledger;

/// The amount on each pipe of a net. It begins with 0 everywhere, and `push` alone changes it.
#[derive(Drop)]
pub struct Filling {
    amounts: Vec<u128>,
    pushes: u64,
}

impl Model for Filling {
    ghost use Rattle.flow_net.specs.Nets.{FillingValue};

    ghost Value = { FillingValue };

    ghost view = { λ f. record { amounts = f.amounts.items; pushes = f.pushes } };
}

/// Carries an amount more along each use of a path.
fn move_along(path: &[Use], amount: u128, amounts: &mut [u128])
    requires { IsReady amount amounts.old path.now }
    ensures { amounts.new ≡ pushed amount amounts.old path.now }
{
    for each in path {
        let pipe = each.pipe as usize;
        if each.back {
            amounts[pipe] -= amount;
        } else {
            amounts[pipe] += amount;
        }
    }
}

impl Filling {
    /// Nothing on any pipe, and no push.
    pub fn empty(alloc: Global, net: &Net) -> Result<Filling, NoMemory>
        ensures amounts { IfOk result (λ f. f.amounts ≡ replicate (length net.now.pipes) 0) }
        ensures pushes { IfOk result (λ f. f.pushes ≡ 0) }
    {
        let amounts = vec![in alloc; 0u128; net.pipes().len()]?;
        Ok(Filling { amounts, pushes: 0 })
    }

    /// The amount on a pipe of the net.
    pub fn amount(&self, pipe: u32) -> u128
        requires { pipe < length self.now.amounts }
        ensures { result ≡ slice_index self.now.amounts pipe }
    {
        self.amounts[pipe as usize]
    }

    /// How many pushes were made.
    pub fn pushes(&self) -> u64
        ensures { result ≡ self.now.pushes }
    {
        self.pushes
    }

    /// Carries an amount more along a path from one node to another that meets no node twice: each pipe that the path
    /// uses forward gains the amount, each that it uses back loses it. This is one push and one step.
    pub fn push<L: Ledger>(&mut self, net: &Net, path: &[Use], amount: u128, steps: &mut Steps<L>)
        requires of_net { length self.old.amounts ≡ length net.now.pipes }
        requires few { self.old.pushes < 2 ^ 62 }
        requires path { LeadsOn net.now.pipes path.now }
        requires some { 1 ≤ amount }
        requires left { HaveLeft net.now.pipes self.old.amounts amount path.now }
        ensures each { length self.new.amounts ≡ length self.old.amounts }
        ensures forward { (i : ℕ) → Contains path.now (use_of i false) →
            slice_index self.new.amounts i ≡ slice_index self.old.amounts i + amount }
        ensures back { (i : ℕ) → Contains path.now (use_of i true) →
            slice_index self.new.amounts i + amount ≡ slice_index self.old.amounts i }
        ensures others { (i : ℕ) → All (λ u. u.pipe ≢ i) path.now →
            slice_index self.new.amounts i ≡ slice_index self.old.amounts i }
        ensures pushes { self.new.pushes ≡ self.old.pushes + 1 }
        ensures step { steps.new ≡ steps.old + 1 }
    {
        let pipes = net.pipes();
        prove!(pipes.len() == self.amounts.len());
        move_along(path, amount, &mut self.amounts);
        self.pushes += 1;
        steps.tick();
    }
}

/// How much more a use can carry.
pub(crate) fn left(pipes: &[Pipe], filling: &Filling, along: Use) -> u128
    requires pipe { along.pipe < length pipes.now }
    requires of_net { length filling.now.amounts ≡ length pipes.now }
    ensures { result ≡ left_on pipes.now filling.now.amounts along }
{
    let amount = filling.amount(along.pipe);
    if along.back {
        amount
    } else {
        pipes[along.pipe as usize].room.saturating_sub(amount)
    }
}
