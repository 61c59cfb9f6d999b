// Multipliers: what proves a bound at a node.
ghost use Rattle.std.specs.Prelude.{◌≡◌};

use std::marker::Model;

/// What a class charges and rewards one of its users. Classes and files are numbered from 0.
#[derive(Clone, Copy, Debug, PartialEq, Eq)]
pub struct Give {
    pub class: u32,
    pub file: u32,
    pub charge: u128,
    pub reward: u128,
}

/// Gives in order.
#[derive(Drop)]
pub struct Gives {
    list: Vec<Give>,
}

impl Model for Gives {
    ghost use Rattle.std.specs.Prelude.{List};
    ghost use Rattle.bound_cert.specs.declared.multipliers.Give.{Give};

    ghost Value = { List Give };

    ghost view = { λ g. g.list.items };
}

impl Gives {
    /// Gives from their list.
    pub fn new(list: Vec<Give>) -> Self
        ensures { result ≡ list.items }
    {
        Gives { list }
    }

    /// The gives, in order.
    pub fn list(&self) -> &[Give]
        ensures { result.now ≡ self.now }
    {
        &self.list
    }
}

/// What proves a bound at a node: each byte of a class is charged `q` and rewarded `p`, shared by its users.
#[derive(Drop)]
pub struct Multipliers {
    pub p: u64,
    pub q: u64,
    pub gives: Gives,
}
