// Why commands are refused, and what they print then.
ghost use Rattle.std.specs.Prelude.{◌≡◌, IfOk, string_bytes};
ghost use Rattle.command_texts.specs.Refusals.{refusal_text, no_recipe, what_word};
ghost use Rattle.command_texts.specs.Refused.{refusal_of};

use recipe_reader::{RecipeError, What};
use seed_model::NoMemory;
use std::alloc::Global;

/// Why a command is refused.
#[derive(Clone, Copy, Debug)]
pub enum Refusal<'w> {
    /// The words are no command.
    Usage,
    /// No byte string has the name.
    NotThere { name: &'w str },
    /// The byte string of the name is longer than is read.
    TooLong { name: &'w str },
    /// The text is no recipe.
    NoRecipe(RecipeError),
    /// The word at the place is not spelled as it must be.
    BadWord { place: u32 },
    /// There are more files than those of which every set is tried.
    TooManyFiles { files: u32 },
    /// The document has no plan.
    NoPlan,
    /// The recipes are not one but for the order of their files and chunks.
    OtherRecipe,
}

/// The refusal's number.
pub(crate) fn number_of(refusal: &Refusal) -> u8
    ensures { result ≡ (refusal_of refusal.now).number }
{
    match refusal {
        Refusal::Usage => 1,
        Refusal::NotThere { .. } => 2,
        Refusal::TooLong { .. } => 3,
        Refusal::NoRecipe(error) => fault_number(error),
        Refusal::BadWord { .. } => 10,
        Refusal::TooManyFiles { .. } => 11,
        Refusal::NoPlan => 18,
        Refusal::OtherRecipe => 27,
    }
}

/// The number of a recipe's fault.
fn fault_number(error: &RecipeError) -> u8
    ensures { result ≡ (no_recipe error.now).number }
{
    match error {
        RecipeError::BadRow { .. } => 4,
        RecipeError::BadName { .. } => 5,
        RecipeError::BadChunkName { .. } => 6,
        RecipeError::BadSize { .. } => 7,
        RecipeError::SizeClash { .. } => 8,
        RecipeError::TooMany { .. } => 9,
        RecipeError::Memory => 0,
    }
}

/// What a refused command prints.
pub(crate) fn text_of(alloc: Global, refusal: &Refusal) -> Result<String, NoMemory>
    ensures { IfOk result (λ text. string_bytes text ≡ refusal_text (refusal_of refusal.now)) }
{
    let number = number_of(refusal);
    match refusal {
        Refusal::Usage => Ok(format!(in alloc; "refused {number}\n")?),
        Refusal::NotThere { name } => Ok(format!(in alloc; "refused {number} {name}\n")?),
        Refusal::TooLong { name } => Ok(format!(in alloc; "refused {number} {name}\n")?),
        Refusal::NoRecipe(error) => fault_text(alloc, error),
        Refusal::BadWord { place } => Ok(format!(in alloc; "refused {number} {place}\n")?),
        Refusal::TooManyFiles { files } => Ok(format!(in alloc; "refused {number} {files}\n")?),
        Refusal::NoPlan => Ok(format!(in alloc; "refused {number}\n")?),
        Refusal::OtherRecipe => Ok(format!(in alloc; "refused {number}\n")?),
    }
}

/// What a command prints that is refused for a recipe's fault.
fn fault_text(alloc: Global, error: &RecipeError) -> Result<String, NoMemory>
    ensures { IfOk result (λ text. string_bytes text ≡ refusal_text (no_recipe error.now)) }
{
    let number = fault_number(error);
    match error {
        RecipeError::BadRow { row } => Ok(format!(in alloc; "refused {number} {row}\n")?),
        RecipeError::BadName { row } => Ok(format!(in alloc; "refused {number} {row}\n")?),
        RecipeError::BadChunkName { row } => Ok(format!(in alloc; "refused {number} {row}\n")?),
        RecipeError::BadSize { row } => Ok(format!(in alloc; "refused {number} {row}\n")?),
        RecipeError::SizeClash { row, first, now } => {
            Ok(format!(in alloc; "refused {number} {row} {first} {now}\n")?)
        }
        RecipeError::TooMany { row, what } => {
            let what = word_of(*what);
            Ok(format!(in alloc; "refused {number} {row} {what}\n")?)
        }
        RecipeError::Memory => Ok(format!(in alloc; "refused {number}\n")?),
    }
}

/// The word for what a recipe has too many of.
fn word_of(what: What) -> &'static str
    ensures { result.now ≡ what_word what }
{
    match what {
        What::Files => "files",
        What::Chunks => "chunks",
        What::Bytes => "bytes",
        What::Pairs => "pairs",
    }
}
