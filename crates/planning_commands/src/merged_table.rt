// The table of a recipe's files.
ghost use Rattle.std.specs.Prelude.{◌≡◌, ℕ, Bool, length, IfOk};
ghost use Rattle.seed_model.specs.declared.range.Range.{Range};
ghost use Rattle.seed_model.specs.Best.{IsFirstBest, NoneInRange};
ghost use Rattle.seed_model.specs.Tables.{IsTable};
ghost use Rattle.recipe_reader.specs.Lawful.{IsRecipe};
ghost use Rattle.recipe_reader.specs.Recipes.{table_of};
ghost use Rattle.chunk_merge.specs.Merged.{merged};
ghost use Rattle.planning_commands.specs.Tables.{HasSumsOf};

use chunk_merge::{merge, merge_laws};
use incidence::{Incidence, incidence_laws};
use recipe_reader::Recipe;
use seed_model::{NoMemory, Table};
use std::alloc::Global;

/// The recipe's table with a class for each set of users. Each sum of a set of files, and so what is best, is that of the
/// table with a class for each chunk.
pub fn merged_table(alloc: Global, recipe: &Recipe) -> Result<Table, NoMemory>
    requires { IsRecipe recipe.now }
    ensures files { IfOk result (λ table. table.files ≡ length recipe.now.files) }
    ensures table { IfOk result (λ table. table ≡ merged (table_of recipe.now)) }
    ensures lawful { IfOk result IsTable }
    ensures sums { IfOk result (λ table. HasSumsOf (table_of recipe.now) table) }
    ensures best { IfOk result (λ table. (range : Range) (set : ℕ → Bool) → IsFirstBest table range set → IsFirstBest (table_of recipe.now) range set) }
    ensures none { IfOk result (λ table. (range : Range) → NoneInRange table range → NoneInRange (table_of recipe.now) range) }
{
    incidence_laws();
    merge_laws();
    let incidence = Incidence::of(alloc, recipe)?;
    merge(alloc, &incidence)
}
