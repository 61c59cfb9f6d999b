//! Tests of lists by key, of sets, sums and numbers, of the texts of sets, and of flows: a module for each crate tested.
#![tactic(auto)]

#[cfg(test)]
mod flow;
#[cfg(test)]
mod lists;
#[cfg(test)]
mod models;
#[cfg(test)]
mod set_texts;
