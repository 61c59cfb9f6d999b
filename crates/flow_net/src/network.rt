// Nets of pipes.
ghost use Rattle.std.specs.Prelude.{◌≡◌, ◌≢◌, ◌+◌, ◌^◌, ◌<◌, ◌≤◌, ◌++◌, ◌∷◌, [], length, IfOk, OnErr, IsOk};
ghost use Rattle.flow_net.specs.Nets.{IsNet};

use crate::pipes::Pipe;
use seed_model::NoMemory;
use std::alloc::Global;
use std::marker::Model;

/// A number of nodes, and pipes between them in the order in which they were added.
#[derive(Drop)]
pub struct Net {
    nodes: u32,
    pipes: Vec<Pipe>,
}

impl Model for Net {
    ghost use Rattle.flow_net.specs.Nets.{NetValue, IsNet};

    ghost Value = { NetValue };

    ghost view = { λ n. record { nodes = n.nodes; pipes = n.pipes.items } };

    ghost invariant = { λ n. IsNet (record { nodes = n.nodes; pipes = n.pipes.items }) };
}

impl Net {
    /// A net of at most 2^22 nodes, numbered from 0, without pipes.
    pub fn new(alloc: Global, nodes: u32) -> Result<Net, NoMemory>
        requires { nodes ≤ 2 ^ 22 }
        ensures made { IsOk result }
        ensures empty { IfOk result (λ n. n ≡ record { nodes = nodes; pipes = [] }) }
    {
        Ok(Net {
            nodes,
            pipes: Vec::new(alloc),
        })
    }

    /// Adds a pipe between two nodes that differ, and answers its number. A net has at most 2^24 pipes, and a room is
    /// below 2^104.
    pub fn add(&mut self, from: u32, to: u32, room: u128) -> Result<u32, NoMemory>
        requires from_is_node { from < self.old.nodes }
        requires to_is_node { to < self.old.nodes }
        requires apart { from ≢ to }
        requires small { room < 2 ^ 104 }
        requires few { length self.old.pipes < 2 ^ 24 }
        ensures number { IfOk result (λ i. i ≡ length self.old.pipes) }
        ensures nodes { self.new.nodes ≡ self.old.nodes }
        ensures added { IfOk result (λ _. self.new.pipes ≡ self.old.pipes ++ record { from = from; to = to; room = room } ∷ []) }
        ensures err { OnErr result (self.new ≡ self.old) }
    {
        let number = self.pipes.len() as u32;
        self.pipes.push(Pipe { from, to, room })?;
        Ok(number)
    }

    /// How many nodes the net has.
    pub fn nodes(&self) -> u32
        ensures value { result ≡ self.now.nodes }
        ensures lawful { IsNet self.now }
    {
        self.nodes
    }

    /// The pipes by number.
    pub fn pipes(&self) -> &[Pipe]
        ensures value { result.now ≡ self.now.pipes }
        ensures lawful { IsNet self.now }
    {
        &self.pipes
    }
}
