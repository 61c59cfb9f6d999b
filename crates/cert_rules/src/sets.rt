// Sets of files, read from words, and members of nodes.
ghost use Rattle.std.specs.Prelude.{◌≡◌, ◌↔◌, length, true, IsTrue};
ghost use Rattle.seed_model.specs.Files.{holds};
ghost use Rattle.seed_model.specs.Nodes.{IsMember};
ghost use Rattle.bound_cert.specs.Sets.{IsSetOf, set_named};

use seed_model::{Node, PlanSet, are_apart, is_within};
use seed_text::fill_set;

// Reads the set that a word names into a set of as many files. False where the word names none.
pub(crate) fn fill_named(word: &[u8], set: &mut PlanSet) -> bool
    ensures named { IsTrue result ↔ IsSetOf (length set.old) word.now }
    ensures set { result ≡ true → set.new ≡ set_named (length set.old) word.now }
    ensures stays { length set.new ≡ length set.old }
{
    fill_set(word, set)
}

// Whether a set is a member of a node: it has the files inside, and none of those outside.
pub(crate) fn is_member(node: &Node, set: &PlanSet) -> bool
    requires inside { length node.now.inside ≡ length set.now }
    requires outside { length node.now.outside ≡ length set.now }
    ensures { IsTrue result ↔ IsMember (length set.now) node.now (holds set.now) }
{
    is_within(&node.inside, set) && are_apart(&node.outside, set)
}
