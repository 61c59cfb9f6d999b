// Certificates of searches that are judged.
ghost use Rattle.std.specs.Prelude.{◌≤◌, IfSome};
ghost use Rattle.seed_model.specs.Nodes.{IsNode};
ghost use Rattle.seed_model.specs.Ranges.{IsRange};
ghost use Rattle.branch_bound.specs.Pinned.{pinned_node};

use bound_cert::Document;
use branch_bound::search;
use cert_check::{Verdict, check};
use seed_model::{Node, Range, Table};
use std::alloc::Global;

/// Whether the judge says yes to a certificate.
fn is_valid(alloc: Global, table: &Table, document: &Document) -> bool {
    match check(alloc, table, document) {
        Ok(verdict) => verdict == Verdict::Yes,
        Err(_) => false,
    }
}

/// The certificate of a search, where the judge says yes to it.
pub(crate) fn judged(
    alloc: Global,
    table: &Table,
    range: &Range,
    pins: Option<&Node>,
    nodes: u32,
) -> Option<Document>
    requires range { IsRange range.now }
    requires pins { IfSome (pinned_node pins) (IsNode table.now.files) }
    requires budget { nodes ≤ 65535 }
{
    let document = search(alloc, table, range, pins, nodes).ok()?;
    if is_valid(alloc, table, &document) {
        Some(document)
    } else {
        None
    }
}
