// A set of a recipe's files that is sought greedily.
ghost use Rattle.std.specs.Prelude.{◌≡◌, length, IfOk, IfSome};
ghost use Rattle.seed_model.specs.Nodes.{IsNode};
ghost use Rattle.seed_model.specs.Ranges.{IsRange};
ghost use Rattle.branch_bound.specs.Outcomes.{search_root};
ghost use Rattle.branch_bound.specs.Pinned.{pinned_node};
ghost use Rattle.planning_commands.specs.Check.{judged_table};
ghost use Rattle.trial_commands.specs.Greedy.{TriesSet};

use chunk_merge::merge_laws;
use greedy_seed::{Tried, greedy};
use recipe_reader::Recipe;
use seed_model::{NoMemory, Node, Range, Table, undecided};
use std::alloc::Global;

/// Seeks a set of a recipe's files in a range greedily, of those that have the files that must go and none of those that must
/// stay, if there are any.
pub(crate) fn seek(
    alloc: Global,
    recipe: &Recipe,
    table: &Table,
    range: &Range,
    pins: Option<&Node>,
) -> Result<Tried, NoMemory>
    requires table { table.now ≡ judged_table recipe.now }
    requires range { IsRange range.now }
    requires pins { IfSome (pinned_node pins) (IsNode (length recipe.now.files)) }
    ensures { IfOk result (TriesSet recipe.now range.now (search_root (length recipe.now.files) (pinned_node pins.entry))) }
{
    match pins {
        Some(pins) => seek_at(alloc, recipe, table, range, pins),
        None => {
            let pins = undecided(alloc, recipe.files())?;
            seek_at(alloc, recipe, table, range, &pins)
        }
    }
}

/// The same with the node of the pins.
fn seek_at(
    alloc: Global,
    recipe: &Recipe,
    table: &Table,
    range: &Range,
    pins: &Node,
) -> Result<Tried, NoMemory>
    requires table { table.now ≡ judged_table recipe.now }
    requires range { IsRange range.now }
    requires pins { IsNode (length recipe.now.files) pins.now }
    ensures { IfOk result (TriesSet recipe.now range.now pins.now) }
{
    merge_laws();
    let _files = recipe.files();
    greedy(alloc, table, range, pins)
}
