// The rule on nodes that are closed as low or high.
ghost use Rattle.std.specs.Prelude.{◌≡◌, ◌↔◌, length, IsTrue};
ghost use Rattle.seed_model.specs.Nodes.{IsLow, IsHigh};
ghost use Rattle.bound_cert.specs.Judgements.{Told, node_of};
ghost use Rattle.bound_cert.specs.Lines.{Low, High};
ghost use Rattle.cert_rules.specs.Judged.{Judges};

use crate::numbers::CLOSING;
use seed_model::{Node, Range, Table, migrated, touched};

/// Judges a line `low` by rule 8, with the range and the node in work.
pub fn judge_low(table: &Table, range: &Range, node: &Node) -> Option<u8>
    requires { length node.now.outside ≡ table.now.files }
    ensures { (told : Told) → told.range ≡ range.now → node_of table.now.files told ≡ node.now → Judges table.now told Low result }
{
    if is_low(table, range, node) {
        None
    } else {
        Some(CLOSING)
    }
}

/// Judges a line `high` by rule 8, with the range and the node in work.
pub fn judge_high(table: &Table, range: &Range, node: &Node) -> Option<u8>
    requires { length node.now.inside ≡ table.now.files }
    ensures { (told : Told) → told.range ≡ range.now → node_of table.now.files told ≡ node.now → Judges table.now told High result }
{
    if is_high(table, range, node) {
        None
    } else {
        Some(CLOSING)
    }
}

// Whether even all files that are not outside migrate too little: what they migrate is what the files outside do not
// touch.
fn is_low(table: &Table, range: &Range, node: &Node) -> bool
    requires { length node.now.outside ≡ table.now.files }
    ensures { IsTrue result ↔ IsLow table.now range.now node.now }
{
    table.total() - touched(table, &node.outside) < range.low
}

// Whether the files inside alone migrate too much.
fn is_high(table: &Table, range: &Range, node: &Node) -> bool
    requires { length node.now.inside ≡ table.now.files }
    ensures { IsTrue result ↔ IsHigh table.now range.now node.now }
{
    range.high < migrated(table, &node.inside)
}
