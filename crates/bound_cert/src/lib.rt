//! Certificates of plans: their types, their texts both ways, and what makes one valid.
#![tactic(auto)]

pub mod doc_error;
pub mod document;
pub mod heading;
mod heading_reading;
pub mod laws;
mod line_list;
pub mod line_reading;
pub mod multipliers;
pub mod node_line;
mod node_reading;
pub mod place;
pub mod read;
pub mod set_text;
pub mod text_line;
mod words;
pub mod write;

pub use doc_error::DocError;
pub use document::Document;
pub use heading::{Answer, Claimed, Heading, Pins};
pub use laws::certificate_laws;
pub use line_reading::read_line;
pub use multipliers::{Give, Gives, Multipliers};
pub use node_line::{NodeLine, NodeLines};
pub use place::Place;
pub use read::read_document;
pub use set_text::SetText;
pub use text_line::TextLine;
pub use write::{heading_text, node_text, write_document};
