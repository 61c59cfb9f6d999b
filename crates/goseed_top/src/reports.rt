// What the command of an order is to print, by what carries it out.
ghost use Rattle.std.specs.Prelude.{◌≡◌, true, IfOk};
ghost use Rattle.fault_count.specs.Counts.{HandsOn};
ghost use Rattle.goseed_words.specs.Asked.{IsLawful};
ghost use Rattle.goseed_words.specs.Orders.{asked_of};
ghost use Rattle.goseed_top.specs.Groups.{group};
ghost use Rattle.goseed_top.specs.Reports.{OrderKeeps, ShelfAnswers, ShelfLeaves};

use crate::groups::Group;
use command_texts::{Halt, Report};
use goseed_words::Order;
use order_commands::carry::carry;
use order_commands::sort::sort;
use planning_commands::best::best;
use planning_commands::check::check;
use planning_commands::plan::{Aim, pinned, plan};
use planning_commands::relax::relax;
use planning_commands::weigh::weigh;
use seed_io::Shelf;
use std::alloc::Global;
use trial_commands::drawing::draw;
use trial_commands::gap::gap;
use trial_commands::greedy::greedy;

/// What the order of a command on plans that writes nothing is to print, and how it then ends.
#[tactic(auto, using(crate::proofs::RunLemmas::leaves_same))]
pub(crate) fn report_of_reading<F: Shelf>(
    alloc: Global,
    order: Order,
    shelf: &mut F,
) -> Result<Report, Halt>
    requires group { group (asked_of order).command ≡ Group.Reading }
    requires lawful { IsLawful (asked_of order) }
    ensures report { IfOk result (λ report. ShelfAnswers (F.tells shelf.old) (F.map shelf.old) (F.map shelf.new) order.entry report.status report.text.items) }
    ensures same { F.map shelf.new ≡ F.map shelf.old }
    ensures cause { HandsOn Halt.Outside (F.faults shelf.old) (F.faults shelf.new) result }
    ensures tells { F.tells shelf.new ≡ F.tells shelf.old }
{
    match order {
        Order::Best {
            recipe,
            target,
            slack,
        } => best(alloc, shelf, recipe, target, slack),
        Order::Weigh { recipe, set } => weigh(alloc, shelf, recipe, set),
        Order::Check {
            recipe,
            certificate,
        } => check(alloc, shelf, recipe, certificate),
        Order::Relax {
            recipe,
            target,
            slack,
            inside,
            outside,
        } => relax(alloc, shelf, recipe, target, slack, inside, outside),
        _ => unreachable!(),
    }
}

/// The same of a command that searches for a plan and writes the certificate.
pub(crate) fn report_of_search<F: Shelf>(
    alloc: Global,
    order: Order,
    shelf: &mut F,
) -> Result<Report, Halt>
    requires group { group (asked_of order).command ≡ Group.Searching }
    requires lawful { IsLawful (asked_of order) }
    ensures report { IfOk result (λ report. ShelfAnswers (F.tells shelf.old) (F.map shelf.old) (F.map shelf.new) order.entry report.status report.text.items) }
    ensures left { F.tells shelf.old ≡ true → ShelfLeaves (F.tells shelf.old) (F.map shelf.old) (F.map shelf.new) order.entry }
    ensures same { OrderKeeps (F.map shelf.old) (F.map shelf.new) order.entry }
    ensures cause { HandsOn Halt.Outside (F.faults shelf.old) (F.faults shelf.new) result }
    ensures tells { F.tells shelf.new ≡ F.tells shelf.old }
{
    match order {
        Order::Plan {
            recipe,
            document,
            target,
            slack,
            nodes,
        } => {
            let aim = Aim {
                target,
                slack,
                nodes,
            };
            plan(alloc, shelf, recipe, document, aim)
        }
        Order::Pinned {
            recipe,
            document,
            target,
            slack,
            nodes,
            go,
            stay,
        } => {
            let aim = Aim {
                target,
                slack,
                nodes,
            };
            pinned(alloc, shelf, recipe, document, aim, go, stay)
        }
        _ => unreachable!(),
    }
}

/// The same of a command that draws a recipe or chooses a set greedily.
#[tactic(auto, using(crate::proofs::RunLemmas::leaves_same))]
pub(crate) fn report_of_trial<F: Shelf>(
    alloc: Global,
    order: Order,
    shelf: &mut F,
) -> Result<Report, Halt>
    requires group { group (asked_of order).command ≡ Group.Trying }
    requires lawful { IsLawful (asked_of order) }
    ensures report { IfOk result (λ report. ShelfAnswers (F.tells shelf.old) (F.map shelf.old) (F.map shelf.new) order.entry report.status report.text.items) }
    ensures left { F.tells shelf.old ≡ true → ShelfLeaves (F.tells shelf.old) (F.map shelf.old) (F.map shelf.new) order.entry }
    ensures same { OrderKeeps (F.map shelf.old) (F.map shelf.new) order.entry }
    ensures cause { HandsOn Halt.Outside (F.faults shelf.old) (F.faults shelf.new) result }
    ensures tells { F.tells shelf.new ≡ F.tells shelf.old }
{
    match order {
        Order::Gen { number, files } => draw(alloc, shelf, number, files),
        Order::Greedy {
            recipe,
            target,
            slack,
        } => greedy(alloc, shelf, recipe, target, slack),
        Order::Gap {
            recipe,
            certificate,
        } => gap(alloc, shelf, recipe, certificate),
        _ => unreachable!(),
    }
}

/// The same of a command on the order of a recipe's files.
pub(crate) fn report_of_ordering<F: Shelf>(
    alloc: Global,
    order: Order,
    shelf: &mut F,
) -> Result<Report, Halt>
    requires group { group (asked_of order).command ≡ Group.Ordering }
    ensures report { IfOk result (λ report. ShelfAnswers (F.tells shelf.old) (F.map shelf.old) (F.map shelf.new) order.entry report.status report.text.items) }
    ensures left { F.tells shelf.old ≡ true → ShelfLeaves (F.tells shelf.old) (F.map shelf.old) (F.map shelf.new) order.entry }
    ensures same { OrderKeeps (F.map shelf.old) (F.map shelf.new) order.entry }
    ensures cause { HandsOn Halt.Outside (F.faults shelf.old) (F.faults shelf.new) result }
    ensures tells { F.tells shelf.new ≡ F.tells shelf.old }
{
    match order {
        Order::Sort { recipe, out } => sort(alloc, shelf, recipe, out),
        Order::Carry {
            recipe,
            document,
            other,
            out,
        } => carry(alloc, shelf, recipe, document, other, out),
        _ => unreachable!(),
    }
}
