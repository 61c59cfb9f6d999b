// Writing the certificate of a search to a shelf.
ghost use Rattle.std.specs.Prelude.{◌≡◌, ◌⊎◌, ◌<◌, ◌^◌, ◌++◌, ◌∷◌, [], List, ℕ, true, Some, IfOk, IsErr, OnOk, length, if◌then◌else◌};
ghost use Rattle.fault_count.specs.Counts.{HandsOn};
ghost use Rattle.seed_io.specs.Shelf.{OthersStay};
ghost use Rattle.seed_model.specs.Nodes.{IsNode};
ghost use Rattle.bound_cert.specs.Documents.{heading_entries};
ghost use Rattle.bound_cert.specs.Grammar.{text_of};
ghost use Rattle.bound_cert.specs.Trees.{is_branch};
ghost use Rattle.branch_bound.specs.Streams.{AreAdded, HaveLines, HoldsFront, HoldsPart, HoldsText, IsPartAdded};
ghost use Rattle.branch_bound.specs.Visits.{AreInside};
ghost use Rattle.branch_bound.specs.Written.{AreWritable};
ghost use Rattle.branch_bound.specs.declared.outcome.PlanError.TheVariants.{Fault, Memory};

use crate::found::Found;
use crate::lines::line_of;
use crate::outcome::PlanError;
use crate::visits::Visit;
use bound_cert::{NodeLine, node_text};
use seed_io::{Shelf, ShelfError};
use seed_model::{NoMemory, Table};
use std::alloc::Global;

impl From<NoMemory> for PlanError {
    ghost from_gives = { λ _ e. e ≡ Memory };

    fn from(_: NoMemory) -> PlanError {
        PlanError::Memory
    }
}

/// Makes a name's bytes empty, or makes the name.
fn create<F: Shelf>(shelf: &mut F, name: &str) -> Result<(), PlanError>
    ensures made { F.tells shelf.old ≡ true → OnOk result (F.map shelf.new name.now ≡ Some []) }
    ensures front { F.tells shelf.old ≡ true → IsErr result → (F.map shelf.new name.now ≡ F.map shelf.old name.now) ⊎ (F.map shelf.new name.now ≡ Some []) }
    ensures others { F.tells shelf.old ≡ true → OthersStay (F.map shelf.old) (F.map shelf.new) name.now }
    ensures cause { HandsOn Fault (F.faults shelf.old) (F.faults shelf.new) result }
    ensures tells { F.tells shelf.new ≡ F.tells shelf.old }
{
    match shelf.create(name) {
        Ok(()) => Ok(()),
        Err(ShelfError::Fault) => Err(PlanError::Fault),
        Err(ShelfError::NotThere | ShelfError::Memory) => Err(PlanError::Memory),
    }
}

/// Adds bytes to those that a name has.
fn add<F: Shelf>(shelf: &mut F, name: &str, bytes: &[u8]) -> Result<(), PlanError>
    ensures added { (held : List ℕ) → F.tells shelf.old ≡ true → F.map shelf.old name.now ≡ Some held → OnOk result (F.map shelf.new name.now ≡ Some (held ++ bytes.now)) }
    ensures front { (held : List ℕ) → F.tells shelf.old ≡ true → F.map shelf.old name.now ≡ Some held → IsErr result → HoldsFront (F.map shelf.new name.now) (held ++ bytes.now) }
    ensures others { F.tells shelf.old ≡ true → OthersStay (F.map shelf.old) (F.map shelf.new) name.now }
    ensures cause { HandsOn Fault (F.faults shelf.old) (F.faults shelf.new) result }
    ensures tells { F.tells shelf.new ≡ F.tells shelf.old }
{
    match shelf.append(name, bytes) {
        Ok(()) => Ok(()),
        Err(ShelfError::Fault) => Err(PlanError::Fault),
        Err(ShelfError::NotThere | ShelfError::Memory) => Err(PlanError::Memory),
    }
}

/// Whether a line is a branching's.
fn is_branching(line: &NodeLine) -> bool
    ensures { result ≡ is_branch line.now }
{
    matches!(line, NodeLine::Branch { .. })
}

/// Adds the text of a visited node, which is made in `text`, and answers whether it is a branching's.
fn write_node<F: Shelf>(
    alloc: Global,
    table: &Table,
    found: &Found,
    visit: Visit,
    text: &mut Vec<u8>,
    shelf: &mut F,
    name: &str,
) -> Result<bool, PlanError>
    requires root { IsNode table.now.files found.now.root }
    requires inside { visit.number < length found.now.state.entries }
    requires writable { AreWritable table.now found.now.root found.now.state.entries }
    ensures added { IfOk result (λ branching. AreAdded table.now found.now (visit ∷ []) (F.tells shelf.old) (F.map shelf.old name.now) (F.map shelf.new name.now) (if branching then 1 else 0)) }
    ensures part { F.tells shelf.old ≡ true → IsErr result → IsPartAdded table.now found.now (visit ∷ []) (F.map shelf.old name.now) (F.map shelf.new name.now) }
    ensures others { F.tells shelf.old ≡ true → OthersStay (F.map shelf.old) (F.map shelf.new) name.now }
    ensures cause { HandsOn Fault (F.faults shelf.old) (F.faults shelf.new) result }
    ensures tells { F.tells shelf.new ≡ F.tells shelf.old }
{
    let line = line_of(alloc, table, &found.root, &found.state.entries, visit)?;
    text.clear();
    node_text(&line, text)?;
    add(shelf, name, text)?;
    Ok(is_branching(&line))
}

/// Adds the text of each visited node, one behind the other, and answers how many are branchings.
fn write_nodes<F: Shelf>(
    alloc: Global,
    table: &Table,
    found: &Found,
    text: &mut Vec<u8>,
    shelf: &mut F,
    name: &str,
) -> Result<u32, PlanError>
    requires root { IsNode table.now.files found.now.root }
    requires inside { AreInside found.now.state.entries found.now.visited.items }
    requires writable { AreWritable table.now found.now.root found.now.state.entries }
    requires few { length found.now.visited.items < 2 ^ 32 }
    ensures added { IfOk result (AreAdded table.now found.now found.now.visited.items (F.tells shelf.old) (F.map shelf.old name.now) (F.map shelf.new name.now)) }
    ensures part { F.tells shelf.old ≡ true → IsErr result → IsPartAdded table.now found.now found.now.visited.items (F.map shelf.old name.now) (F.map shelf.new name.now) }
    ensures others { F.tells shelf.old ≡ true → OthersStay (F.map shelf.old) (F.map shelf.new) name.now }
    ensures cause { HandsOn Fault (F.faults shelf.old) (F.faults shelf.new) result }
    ensures tells { F.tells shelf.new ≡ F.tells shelf.old }
{
    let mut branchings = 0;
    for visit in &found.visited {
        if write_node(alloc, table, found, *visit, text, shelf, name)? {
            branchings += 1;
        }
    }
    Ok(branchings)
}

/// Gives a name the certificate of a search, of which `text` has the heading, in place of what it had, and answers how
/// many branchings it has. `text` then serves for the nodes.
pub(crate) fn write_found<F: Shelf>(
    alloc: Global,
    table: &Table,
    found: &Found,
    text: &mut Vec<u8>,
    shelf: &mut F,
    name: &str,
) -> Result<u32, PlanError>
    requires root { IsNode table.now.files found.now.root }
    requires inside { AreInside found.now.state.entries found.now.visited.items }
    requires writable { AreWritable table.now found.now.root found.now.state.entries }
    requires few { length found.now.visited.items < 2 ^ 32 }
    requires lines { HaveLines table.now found.now }
    requires heading { text.old.items ≡ text_of (heading_entries found.now.heading) }
    ensures whole { IfOk result (HoldsText table.now found.now (F.tells shelf.old) (F.map shelf.new name.now)) }
    ensures part { F.tells shelf.old ≡ true → IsErr result → (F.map shelf.new name.now ≡ F.map shelf.old name.now) ⊎ HoldsPart table.now found.now (F.map shelf.new name.now) }
    ensures others { F.tells shelf.old ≡ true → OthersStay (F.map shelf.old) (F.map shelf.new) name.now }
    ensures cause { HandsOn Fault (F.faults shelf.old) (F.faults shelf.new) result }
    ensures tells { F.tells shelf.new ≡ F.tells shelf.old }
{
    create(shelf, name)?;
    add(shelf, name, text)?;
    let branchings = write_nodes(alloc, table, found, text, shelf, name)?;
    add(shelf, name, b"end\n")?;
    Ok(branchings)
}
