// Documents from text.
ghost use Rattle.std.specs.Prelude.{◌≡◌, IfOk, IfErr};
ghost use Rattle.bound_cert.specs.Documents.{document_text};
ghost use Rattle.bound_cert.specs.Errors.{IsBadAt};

use crate::doc_error::DocError;
use crate::document::Document;
use crate::heading_reading::heading_of;
use crate::line_list::lines_of;
use crate::node_reading::nodes_of;
use std::alloc::Global;

/// The document that a text is.
///
/// # Errors
///
/// `Bad` with the first line that breaks the form of documents, where the text is in no document's form, and `Memory`
/// where memory runs out.
pub fn read_document(alloc: Global, text: &[u8]) -> Result<Document, DocError>
    ensures found { IfOk result (λ d. text.now ≡ document_text d.heading d.nodes) }
    ensures bad { IfErr result (IsBadAt text.now) }
{
    let lines = lines_of(alloc, text)?;
    let (heading, rest) = heading_of(alloc, &lines)?;
    let nodes = nodes_of(alloc, rest)?;
    Ok(Document { heading, nodes })
}
