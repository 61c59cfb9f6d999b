// What is to be filled.
use crate::links::Adjacency;
use crate::network::Net;

/// A net with the links at each node, and the two nodes between which it is to be filled.
#[derive(Clone, Copy)]
pub(crate) struct Problem<'a> {
    pub net: &'a Net,
    pub adjacency: &'a Adjacency,
    pub source: u32,
    pub sink: u32,
}
