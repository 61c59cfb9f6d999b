// The command `relax`.
ghost use Rattle.std.specs.Prelude.{◌≡◌, length, IfOk};
ghost use Rattle.seed_model.specs.Nodes.{IsNode};
ghost use Rattle.seed_model.specs.Ranges.{IsRange};
ghost use Rattle.fault_count.specs.Counts.{HasCause};
ghost use Rattle.recipe_reader.specs.Lawful.{IsRecipe};
ghost use Rattle.goseed_words.specs.Amounts.{IsAmount};
ghost use Rattle.command_endings.specs.Worlds.{Over};
ghost use Rattle.planning_commands.specs.Relax.{PrintsNode, RelaxEnds, RelaxOf};

use crate::merged_table::merged_table;
use crate::node_words::node_of;
use crate::ranges::range_within;
use crate::reading::recipe_named;
use crate::relax_text::text_of_bound;
use command_texts::{Halt, Refusal, Report, Status, or_halt, refused};
use goseed_words::Amount;
use hull_bound::{NodeAnswer, solve_node};
use recipe_reader::Recipe;
use seed_io::Shelf;
use seed_model::{NoMemory, Node, Range};
use std::alloc::Global;

/// The place of the word that spells the files inside, the command being place 1. That of the files outside is the next.
const INSIDE_PLACE: u32 = 5;

/// Reads a recipe by its name, and finds the least that a mix of a node of its files replicates.
pub fn relax<F: Shelf>(
    alloc: Global,
    shelf: &mut F,
    name: &str,
    target: Amount,
    slack: Amount,
    inside: &str,
    outside: &str,
) -> Result<Report, Halt>
    requires target { IsAmount target }
    requires slack { IsAmount slack }
    ensures report { IfOk result (λ report. Over (F.tells shelf.old) (F.map shelf.old) (λ given. RelaxEnds name.now target slack inside.now outside.now given report.status report.text.items)) }
    ensures cause { HasCause Halt.Outside (F.faults shelf.old) (F.faults shelf.new) result }
    ensures tells { F.tells shelf.new ≡ F.tells shelf.old }
    ensures same { F.map shelf.new ≡ F.map shelf.old }
{
    match recipe_named(alloc, shelf, name)? {
        Ok(recipe) => or_halt(relax_of(
            alloc,
            &recipe,
            target,
            slack,
            inside.as_bytes(),
            outside.as_bytes(),
        )),
        Err(report) => Ok(report),
    }
}

/// Finds the least that a mix of the node replicates that two words spell.
fn relax_of(
    alloc: Global,
    recipe: &Recipe,
    target: Amount,
    slack: Amount,
    inside: &[u8],
    outside: &[u8],
) -> Result<Report, NoMemory>
    requires target { IsAmount target }
    requires slack { IsAmount slack }
    ensures { IfOk result (λ report. RelaxOf target slack inside.now outside.now report.status report.text.items recipe.now) }
{
    let range = range_within(recipe.total(), target, slack);
    match node_of(alloc, recipe.files(), inside, outside, INSIDE_PLACE)? {
        Ok(node) => Ok(Report {
            status: Status::Done,
            text: text_of_node(alloc, recipe, &range, &node)?,
        }),
        Err(place) => refused(alloc, &Refusal::BadWord { place }),
    }
}

/// What `relax` prints of a node of a recipe's files.
fn text_of_node(
    alloc: Global,
    recipe: &Recipe,
    range: &Range,
    node: &Node,
) -> Result<Vec<u8>, NoMemory>
    requires recipe { IsRecipe recipe.now }
    requires range { IsRange range.now }
    requires node { IsNode (length recipe.now.files) node.now }
    ensures { IfOk result (λ text. PrintsNode recipe.now range.now node.now text.items) }
{
    let table = merged_table(alloc, recipe)?;
    match solve_node(alloc, &table, range, node)? {
        NodeAnswer::Low => Ok(Vec::from_slice(alloc, b"low\n".as_slice())?),
        NodeAnswer::High => Ok(Vec::from_slice(alloc, b"high\n".as_slice())?),
        NodeAnswer::Bound(multipliers, mix) => text_of_bound(alloc, &table, &multipliers, &mix),
    }
}
