//! Tests from rows to tables: rows, names of files, recipes, their incidence, and classes merged.
#![tactic(auto)]

#[cfg(test)]
mod merged_classes;
#[cfg(test)]
mod names;
#[cfg(test)]
mod recipes;
#[cfg(test)]
mod rows;
#[cfg(test)]
mod users_and_chunks;
