// Names that are looked up.
ghost use Rattle.std.specs.Prelude.{◌≡◌, ◌∷◌, ◌++◌, [], false, IfNone, IfOk, IfSome, OnOk};
ghost use Rattle.std.specs.List.{list_any};
ghost use Rattle.list_facts.specs.Firsts.{IsNumberOf};
ghost use Rattle.recipe_reader.specs.Recipes.{is_named};
ghost use Rattle.recipe_order.specs.Matching.{AreAmong, AreNumbers, chunk_names};

use indexmap::IndexSet;
use recipe_reader::Recipe;
use seed_model::NoMemory;
use std::alloc::Global;
use std::marker::Model;

/// Names, numbered from 0 by first appearance.
#[derive(Drop)]
pub(crate) struct NameTable {
    names: IndexSet<Vec<u8>>,
}

impl Model for NameTable {
    ghost use Rattle.std.specs.Prelude.{List, ℕ};
    ghost use Rattle.list_facts.specs.Listed.{lists_in};

    ghost Value = { List (List ℕ) };

    ghost view = { λ a. lists_in a.names.keys };
}

impl NameTable {
    /// No names.
    pub(crate) fn new(alloc: Global) -> Self
        ensures { result ≡ [] }
    {
        NameTable {
            names: IndexSet::new(alloc),
        }
    }

    /// The number of a name.
    pub(crate) fn find(&self, name: &[u8]) -> Option<usize>
        ensures { IsNumberOf (is_named name.now) self.now result }
    {
        self.names.get_index_of(name)
    }

    /// Puts a new name last.
    pub(crate) fn push(&mut self, name: &[u8]) -> Result<(), NoMemory>
        requires { list_any (is_named name.now) self.old ≡ false }
        ensures { OnOk result (self.new ≡ self.old ++ name.now ∷ []) }
    {
        let Ok(owned) = name.to_vec(*self.names.allocator()) else {
            return Err(NoMemory);
        };
        let Ok(_) = self.names.insert(owned) else {
            return Err(NoMemory);
        };
        Ok(())
    }
}

/// The names of a recipe's files.
fn file_table(alloc: Global, recipe: &Recipe) -> Result<NameTable, NoMemory>
    ensures { IfOk result (λ table. table ≡ recipe.now.files) }
{
    let mut table = NameTable::new(alloc);
    for file in 0..recipe.files() {
        table.push(recipe.file_name(file).as_bytes())?;
    }
    Ok(table)
}

/// The names of a recipe's chunks.
fn chunk_table(alloc: Global, recipe: &Recipe) -> Result<NameTable, NoMemory>
    ensures { IfOk result (λ table. table ≡ chunk_names recipe.now) }
{
    let mut table = NameTable::new(alloc);
    for chunk in 0..recipe.chunks() {
        table.push(recipe.chunk_name(chunk))?;
    }
    Ok(table)
}

/// The numbers that the files of one recipe have in another, by name; `None` where one is not there.
pub(crate) fn file_numbers(
    alloc: Global,
    whole: &Recipe,
    part: &Recipe,
) -> Result<Option<Vec<usize>>, NoMemory>
    ensures found { IfOk result (λ o. IfSome o (λ numbers. AreNumbers whole.now.files part.now.files numbers.items)) }
    ensures none { IfOk result (λ o. IfNone o (¬ AreAmong whole.now.files part.now.files)) }
{
    let table = file_table(alloc, whole)?;
    let mut numbers = Vec::new(alloc);
    for file in 0..part.files() {
        let Some(number) = table.find(part.file_name(file).as_bytes()) else {
            return Ok(None);
        };
        numbers.push(number)?;
    }
    Ok(Some(numbers))
}

/// The numbers that the chunks of one recipe have in another, by name; `None` where one is not there.
pub(crate) fn chunk_numbers(
    alloc: Global,
    whole: &Recipe,
    part: &Recipe,
) -> Result<Option<Vec<usize>>, NoMemory>
    ensures found { IfOk result (λ o. IfSome o (λ numbers. AreNumbers (chunk_names whole.now) (chunk_names part.now) numbers.items)) }
    ensures none { IfOk result (λ o. IfNone o (¬ AreAmong (chunk_names whole.now) (chunk_names part.now))) }
{
    let table = chunk_table(alloc, whole)?;
    let mut numbers = Vec::new(alloc);
    for chunk in 0..part.chunks() {
        let Some(number) = table.find(part.chunk_name(chunk)) else {
            return Ok(None);
        };
        numbers.push(number)?;
    }
    Ok(Some(numbers))
}
