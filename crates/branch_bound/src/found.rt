// A search that has ended.
use crate::ending::Ending;
use crate::state::State;
use crate::visits::Visit;
use bound_cert::Heading;
use seed_model::Node;

/// All that the certificate of a search is made of: the node at which it began, its nodes, how it ended, which of the
/// nodes are written, and what the certificate claims.
#[derive(Drop)]
pub(crate) struct Found {
    pub root: Node,
    pub state: State,
    pub ending: Ending,
    pub visited: Vec<Visit>,
    pub heading: Heading,
}
