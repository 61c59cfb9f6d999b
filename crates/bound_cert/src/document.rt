// Certificates.
ghost use Rattle.bound_cert.specs.Documents.{IsDocument};

use crate::heading::Heading;
use crate::node_line::NodeLines;

/// A certificate whose text is in the form of documents.
#[derive(Drop)]
pub struct Document {
    pub heading: Heading,
    pub nodes: NodeLines,
    ghost lawful: { ∥ IsDocument heading nodes ∥₁ },
}
