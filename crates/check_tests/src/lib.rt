//! Tests of certificates: their text, their numbers and their judge.
#![tactic(auto)]

#[cfg(test)]
mod documents;
#[cfg(test)]
mod fractions;
#[cfg(test)]
mod generated;
#[cfg(test)]
mod maker;
#[cfg(test)]
mod plain;
#[cfg(test)]
mod sets;
#[cfg(test)]
mod worked;
