//! Recipes: which file uses which chunks, and their sizes; read from rows of text and written as them.
#![tactic(auto)]

mod chunk;
mod chunks;
pub mod error;
mod files;
mod grouped;
mod pairs;
pub mod reading;
pub mod recipe;
mod row;
mod text_key;
pub mod writing;

pub use error::{AddError, RecipeError, What, limit_laws};
pub use reading::{read_recipe, recipe_laws};
pub use recipe::Recipe;
pub use writing::{write_recipe, written_laws};
