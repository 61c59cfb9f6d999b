// The commands by what carries them out.
ghost use Rattle.std.specs.Prelude.{◌≡◌};
ghost use Rattle.goseed_words.specs.Orders.{asked_of};
ghost use Rattle.goseed_top.specs.Groups.{group};

use goseed_words::Order;

/// What carries out a command.
#[derive(Clone, Copy, Debug)]
pub(crate) enum Group {
    /// The commands on plans, and on recipes, that write nothing.
    Reading,
    /// The commands that search for a plan and write the certificate.
    Searching,
    /// The commands that draw a recipe or choose a set greedily.
    Trying,
    /// The commands on the order of a recipe's files.
    Ordering,
}

/// What carries out the command of an order.
pub(crate) fn group_of(order: &Order) -> Group
    ensures { result ≡ group (asked_of order.now).command }
{
    match order {
        Order::Best { .. } | Order::Weigh { .. } | Order::Check { .. } | Order::Relax { .. } => {
            Group::Reading
        }
        Order::Plan { .. } | Order::Pinned { .. } => Group::Searching,
        Order::Gen { .. } | Order::Greedy { .. } | Order::Gap { .. } => Group::Trying,
        Order::Sort { .. } | Order::Carry { .. } => Group::Ordering,
    }
}
